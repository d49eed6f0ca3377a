// The calls of a ring with the places of its items: a slice of its own, or a part of a shared one.
ghost use Rattle.std.specs.Prelude.{◌≡◌, ◌≤◌, length};
ghost use Rattle.std.specs.List.{slice_get};
ghost use Rattle.queue.specs.Pushes.{pushed, push_answer, has_room};
ghost use Rattle.queue.specs.Rings.{items};

use super::Ring;
use crate::Full;

#[tactic(auto, using(crate::proofs::Rings::ring_items))]
impl Ring {
    // The item at i, in order.
    pub(crate) fn item<T: Copy>(&self, places: &[T], i: usize) -> Option<T>
        requires { length places.now ≡ self.now.room }
        ensures { result ≡ slice_get (items places.now self.now) i }
    {
        let at = self.place(i)?;
        Some(places[at])
    }

    pub(crate) fn push_into<T: Copy>(&mut self, places: &mut [T], x: T) -> Result<(), Full>
        requires { length places.old ≡ self.old.room }
        ensures after { items places.new self.new ≡ pushed self.old.room x (items places.old self.old) }
        ensures answer { result ≡ push_answer (has_room self.old.room (items places.old self.old)) }
        ensures room { self.new.room ≡ self.old.room }
        ensures refused { self.old.room ≤ length (items places.old self.old) → (self.new ≡ self.old) × (places.new ≡ places.old) }
    {
        let at = self.push()?;
        places[at] = x;
        Ok(())
    }
}
