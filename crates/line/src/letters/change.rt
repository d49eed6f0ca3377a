// Putting a letter behind the others, and taking one out.
ghost use Rattle.std.specs.Prelude.{◌≡◌, ◌<◌, ◌≤◌, [], ◌∷◌, ◌++◌, length, take, drop, slice_index_or};
ghost use Rattle.std.specs.List.{remove};
ghost use Rattle.line.specs.declared.letters.Letter.{Letter};
ghost use Rattle.line.specs.Letters.{letter};
ghost use Rattle.line.specs.Kept.{kept, lent, room};

use super::{Letter, Letters};
use theory::message::{Message, Pair};

impl<'a> Letters<'a> {
    pub(crate) fn over(places: &'a mut [Letter]) -> Letters<'a>
        ensures none { kept result ≡ [] }
        ensures places { lent result ≡ places.old }
    {
        Letters { places, used: 0 }
    }
}

impl Letters<'_> {
    pub(crate) fn clear(&mut self)
        ensures none { kept self.new ≡ [] }
        ensures places { lent self.new ≡ lent self.old }
    {
        self.used = 0;
    }

    pub(crate) fn push(&mut self, pair: Pair, message: Message)
        requires free { length (kept self.old) < room self.old }
        ensures behind { kept self.new ≡ kept self.old ++ letter pair message ∷ [] }
        ensures room { room self.new ≡ room self.old }
    {
        let at = self.used;
        self.places[at] = Letter { pair, message };
        self.used = at + 1;
    }

    // Takes the letter at a place out, and closes the gap: with `copy_within` it was three times as slow.
    pub(crate) fn remove(&mut self, at: usize) -> Message
        requires there { at < length (kept self.old) }
        ensures message { (d : Letter) → result ≡ (slice_index_or (kept self.old) at d).message }
        ensures closed { kept self.new ≡ remove (kept self.old) at }
        ensures room { room self.new ≡ room self.old }
    {
        let message = self.places[at].message;
        let used = self.used;
        if at + 1 < used {
            first_to_last(&mut self.places[at..used]);
        }
        self.used = used - 1;
        message
    }
}

// Out of line: in `take` the counters of its loop would join the loop that looks for the letter.
#[inline(never)]
fn first_to_last(letters: &mut [Letter])
    requires { 1 ≤ length letters.old }
    ensures { letters.new ≡ drop 1 letters.old ++ take 1 letters.old }
{
    letters.rotate_left(1);
}
