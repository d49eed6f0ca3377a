// Reading one board.
ghost use Rattle.std.specs.Prelude.{◌≡◌, ◌<◌, ◌≤◌, MatchOption};
ghost use Rattle.boards.specs.Models.{model};
ghost use Rattle.boards.specs.Views.{viewed};

use super::Core;
use crate::board::BoardView;
use crate::flat::part;
use crate::registers::Registers;
use wire::Wire;

impl<'a, W: Wire> Core<'a, W> {
    // The board of a number, where there is one.
    pub fn board(&self, b: u32) -> Option<BoardView<'_, 'a>>
        ensures { MatchOption result (self.now.settings.boards ≤ b)
            (λ x. (b < self.now.settings.boards) × (viewed x ≡ (model W.means self.now).boards b)) }
    {
        if b >= self.settings.boards {
            return None;
        }
        Some(BoardView {
            registers: self.registers[b as usize],
            cells: part(self.cells, self.settings.cells, b),
            entries: part(self.entries, self.settings.entries, b),
            free: &self.free,
            held: &self.held,
            number: b as usize,
        })
    }
}
