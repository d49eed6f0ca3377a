ghost use Rattle.std.specs.Prelude.{◌≡◌, ◌<◌, ◌≤◌, MatchOption, MatchResult};
ghost use Rattle.queue.specs.Places.{place_at};
ghost use Rattle.queue.specs.Rings.{Placed, Pushed, Popped};

use super::Ring;
use crate::Full;

impl Ring {
    pub fn new(room: usize) -> Ring
        ensures first { result.first ≡ 0 }
        ensures len { result.len ≡ 0 }
        ensures room { result.room ≡ room }
    {
        Ring {
            first: 0,
            len: 0,
            room,
        }
    }

    pub fn len(&self) -> usize
        ensures { result ≡ self.now.len }
    {
        self.len
    }

    pub fn room(&self) -> usize
        ensures { result ≡ self.now.room }
    {
        self.room
    }

    // The place of the item at i, in order.
    pub fn place(&self, i: usize) -> Option<usize>
        ensures { MatchOption result (self.now.len ≤ i) (Placed self.now i) }
    {
        if i < self.len { Some(self.at(i)) } else { None }
    }

    // The place for a new last item.
    pub fn push(&mut self) -> Result<usize, Full>
        ensures { MatchResult result
            (Pushed self.old self.new)
            (λ _. (self.old.len ≡ self.old.room) × (self.new ≡ self.old)) }
    {
        if self.len == self.room {
            return Err(Full);
        }
        let at = self.at(self.len);
        self.len += 1;
        Ok(at)
    }

    // The place of the first item, which leaves the ring.
    pub fn pop(&mut self) -> Option<usize>
        ensures { MatchOption result
            ((self.old.len ≡ 0) × (self.new ≡ self.old))
            (Popped self.old self.new) }
    {
        if self.len == 0 {
            return None;
        }
        let at = self.at(0);
        self.first = at + 1;
        self.len -= 1;
        Some(at)
    }

    // The ring goes on from the start past the last place. No sum of its counts could wrap.
    #[tactic(auto, unfolding(crate::specs::Places::place_at))]
    fn at(&self, i: usize) -> usize
        ensures place { result ≡ place_at self.now.room self.now.first i }
        ensures within { i < self.now.room → result < self.now.room }
    {
        let to_end = self.room - self.first;
        if i < to_end {
            self.first + i
        } else {
            i - to_end
        }
    }
}
