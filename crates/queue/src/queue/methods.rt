ghost use Rattle.std.specs.Prelude.{◌≡◌, ◌≤◌, [], length};
ghost use Rattle.std.specs.List.{slice_get};
ghost use Rattle.theory.specs.Lists.{head, tail};
ghost use Rattle.queue.specs.Pushes.{pushed, push_answer, has_room};
ghost use Rattle.queue.specs.Queued.{queued, room_of};
ghost use Rattle.queue.specs.Rings.{items};

use super::Queue;
use crate::Full;
use crate::ring::Ring;

#[tactic(auto, using(crate::proofs::Rings::ring_items))]
impl<'a, T: Copy> Queue<'a, T> {
    // An empty queue with as many places as were lent.
    pub fn over(places: &'a mut [T]) -> Queue<'a, T>
        ensures after { queued result ≡ [] }
        ensures room { room_of result ≡ length places.old }
    {
        let ring = Ring::new(places.len());
        Queue { ring, places }
    }

    pub fn len(&self) -> usize
        ensures { result ≡ length (queued self.now) }
    {
        self.fitted().len()
    }

    pub fn room(&self) -> usize
        ensures { result ≡ room_of self.now }
    {
        self.places.len()
    }

    // The item at i, in order.
    pub fn get(&self, i: usize) -> Option<T>
        ensures { result ≡ slice_get (queued self.now) i }
    {
        self.fitted().item(self.places, i)
    }

    pub fn first(&self) -> Option<T>
        ensures { result ≡ head (queued self.now) }
    {
        self.get(0)
    }

    pub fn push(&mut self, x: T) -> Result<(), Full>
        ensures after { queued self.new ≡ pushed (room_of self.old) x (queued self.old) }
        ensures answer { result ≡ push_answer (has_room (room_of self.old) (queued self.old)) }
        ensures room { room_of self.new ≡ room_of self.old }
        ensures refused { room_of self.old ≤ length (queued self.old) → self.new ≡ self.old }
    {
        let mut ring = self.fitted();
        ring.push_into(self.places, x)?;
        self.ring = ring;
        Ok(())
    }

    pub fn pop(&mut self) -> Option<T>
        ensures answer { result ≡ head (queued self.old) }
        ensures after { queued self.new ≡ tail (queued self.old) }
        ensures room { room_of self.new ≡ room_of self.old }
    {
        // no call reads and pops at once: after a shared loan of a `&mut` field a proof does not know its value (tried)
        let mut rest = self.fitted();
        let at = rest.pop()?;
        self.ring = rest;
        Some(self.places[at])
    }

    // The ring, with as much room as there are places.
    fn fitted(&self) -> Ring
        ensures room { length self.now.places.now ≡ result.room }
        ensures items { queued self.now ≡ items self.now.places.now result }
    {
        let room = self.places.len();
        if self.ring.room() == room {
            return self.ring;
        }
        Ring::new(room)
    }
}
