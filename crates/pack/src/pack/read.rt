// What can be seen of a pack. Where there is no such board, slot, cell or entry, there is nothing.
ghost use Rattle.std.specs.Prelude.{◌≡◌, ◌<◌, ◌≤◌, MatchOption};
ghost use Rattle.theory.specs.declared.memory.Cell.TheVariants.{Value};
ghost use Rattle.theory.specs.State.{no_entry};
ghost use Rattle.boards.specs.Models.{Shows};
ghost use Rattle.pack.specs.Shown.{state, item, free_item};

use super::Pack;
use boards::registers::Registers;
use tally::Tally;
use theory::memory::{Cell, Entry};
use theory::state::Figures;
use wire::Wire;

impl<W: Wire, T: Tally> Pack<'_, W, T> {
    // The figures of the last collection, or zeros.
    pub fn result(&self) -> Figures
        ensures { result ≡ (state W.means self.now).result }
    {
        self.core.result
    }

    // All that a board keeps beside its cells, entries and queues: its slots, top, mode, outcome, purse and
    // counts, and whether it waits.
    pub fn board(&self, board: u32) -> Option<Registers>
        ensures { MatchOption result ((state W.means self.now).settings.boards ≤ board)
            (λ x. (board < (state W.means self.now).settings.boards) × Shows x ((state W.means self.now).boards board)) }
    {
        Some(self.core.board(board)?.registers())
    }

    pub fn cell(&self, board: u32, at: u32) -> Option<Cell>
        ensures { result ≡ item (λ x. x.cells) (state W.means self.now).settings.cells (Value 0) board at (state W.means self.now) }
    {
        let x = self.core.board(board)?;
        (at < self.core.settings.cells).then_some(x.cell(at))
    }

    pub fn entry(&self, board: u32, entry: u32) -> Option<Entry>
        ensures { result ≡ item (λ x. x.entries) (state W.means self.now).settings.entries no_entry board entry (state W.means self.now) }
    {
        let x = self.core.board(board)?;
        (entry < self.core.settings.entries).then_some(x.entry(entry))
    }

    // The number of a free entry, by its place in the queue of those.
    pub fn free(&self, board: u32, i: usize) -> Option<u16>
        ensures { result ≡ free_item board i (state W.means self.now) }
    {
        self.core.board(board)?.free_at(i)
    }
}
