// The memory that a pack is brought: all boards' cells and entries, the places for free entry
// numbers, and those for held operations.
use theory::memory::{Cell, Entry};
use theory::message::Held;

#[derive(Drop)]
pub struct Memory<'a> {
    pub cells: &'a mut [Cell],
    pub entries: &'a mut [Entry],
    pub free: &'a mut [u16],
    pub held: &'a mut [Held],
}
