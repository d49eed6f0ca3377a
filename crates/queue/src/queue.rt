// One queue over a lent slice. It has no ghost field beside the slice, so that a function can take it by value and
// change it: a ring of another room than the slice has counts as empty.
use crate::ring::Ring;

mod methods;

#[derive(Drop)]
pub struct Queue<'a, T> {
    ring: Ring,
    places: &'a mut [T],
}
