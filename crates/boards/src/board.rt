// One board, to be read.
ghost use Rattle.std.specs.Prelude.{◌≡◌, slice_index_or};
ghost use Rattle.std.specs.List.{slice_get};
ghost use Rattle.theory.specs.declared.memory.Cell.TheVariants.{Value};
ghost use Rattle.theory.specs.Answer.{collecting, ready};
ghost use Rattle.theory.specs.Lists.{head};
ghost use Rattle.theory.specs.State.{no_entry};
ghost use Rattle.boards.specs.Models.{Shows};
ghost use Rattle.boards.specs.Views.{viewed};

use crate::registers::Registers;
use queue::queues::Queues;
use theory::fault::PackFault;
use theory::memory::{Cell, Entry, Mode};
use theory::message::Held;

// What the board keeps beside its memory, its parts of the cells and of the entries, and its queues: those of
// its number.
#[derive(Clone, Copy)]
pub struct BoardView<'b, 'a> {
    pub(crate) registers: Registers,
    pub(crate) cells: &'b [Cell],
    pub(crate) entries: &'b [Entry],
    pub(crate) free: &'b Queues<'a, u16>,
    pub(crate) held: &'b Queues<'a, Held>,
    pub(crate) number: usize,
}

impl BoardView<'_, '_> {
    // All that the board keeps beside its memory.
    pub fn registers(&self) -> Registers
        ensures { Shows result (viewed self.now) }
    {
        self.registers
    }

    pub fn top(&self) -> u32
        ensures { result ≡ (viewed self.now).top }
    {
        self.registers.top
    }

    pub fn waits(&self) -> bool
        ensures { result ≡ (viewed self.now).waits }
    {
        self.registers.waits
    }

    pub fn mode(&self) -> Mode
        ensures { result ≡ (viewed self.now).mode }
    {
        self.registers.mode
    }

    // Whether the board is in a collection.
    pub fn collecting(&self) -> bool
        ensures { result ≡ collecting (viewed self.now).mode }
    {
        matches!(self.registers.mode, Mode::Mark | Mode::Done)
    }

    // Whether calls of the board are taken: it is in no collection, and waits for no answer.
    pub fn ready(&self) -> Result<(), PackFault>
        ensures { result ≡ ready (viewed self.now) }
    {
        if self.collecting() {
            return Err(PackFault::Collecting);
        }
        if self.waits() {
            return Err(PackFault::Waiting);
        }
        Ok(())
    }

    // A cell of the board's own part; past its end there is none, and a value 0 is read: as the rules' definitions
    // read it, so that no call has to ask for the place.
    pub fn cell(&self, at: u32) -> Cell
        ensures { result ≡ slice_index_or (viewed self.now).cells at (Value 0) }
    {
        self.cells
            .get(at as usize)
            .copied()
            .unwrap_or(Cell::Value(0))
    }

    // An entry of the board's own part; past its end there is none, and it reads as a free one, likewise.
    pub fn entry(&self, entry: u32) -> Entry
        ensures { result ≡ slice_index_or (viewed self.now).entries entry no_entry }
    {
        self.entries
            .get(entry as usize)
            .copied()
            .unwrap_or(Entry::FREE)
    }

    // The free entry that is taken next.
    pub fn first_free(&self) -> Option<u16>
        ensures { result ≡ head (viewed self.now).free }
    {
        self.free.first(self.number)
    }

    // The free entry at a place of the queue.
    pub fn free_at(&self, i: usize) -> Option<u16>
        ensures { result ≡ slice_get (viewed self.now).free i }
    {
        self.free.get(self.number, i)
    }

    // The operation that is held at a place of the queue.
    pub fn held_at(&self, i: usize) -> Option<Held>
        ensures { result ≡ slice_get (viewed self.now).held i }
    {
        self.held.get(self.number, i)
    }
}
