// The calls: each refuses and changes nothing, or does the whole step.
ghost use Rattle.std.specs.Prelude.{◌≡◌, ◌<◌, ◌≤◌, ◌⊎◌, OnErr, MatchResult};
ghost use Rattle.theory.specs.declared.fault.PackFault.TheVariants.{NoBoard, NoSlot};
ghost use Rattle.theory.specs.Make.{make};
ghost use Rattle.theory.specs.SetSlot.{set_slot};
ghost use Rattle.boards.specs.Views.{viewed};
ghost use Rattle.pack.specs.Shown.{state, memory};

use super::Pack;
use boards::board::BoardView;
use tally::Tally;
use theory::fault::PackFault;
use theory::memory::Cell;
use wire::Wire;

impl<'a, W: Wire, T: Tally> Pack<'a, W, T> {
    // The board that a call names with a slot, where there are both.
    fn named(&self, board: u32, slot: u32) -> Result<BoardView<'_, 'a>, PackFault>
        ensures { MatchResult result
            (λ x. (board < (state W.means self.now).settings.boards) × (slot ≤ 7) × (viewed x ≡ (state W.means self.now).boards board))
            (λ e. ((state W.means self.now).settings.boards ≤ board) × (e ≡ NoBoard) ⊎ (board < (state W.means self.now).settings.boards) × (7 < slot) × (e ≡ NoSlot)) }
    {
        let x = self.core.board(board).ok_or(PackFault::NoBoard)?;
        if slot > 7 {
            return Err(PackFault::NoSlot);
        }
        Ok(x)
    }
}

impl<W: Wire, T: Tally> Pack<'_, W, T> {
    // A new record of so many cells, all the value 0, which the slot refers to.
    pub fn make(&mut self, board: u32, slot: u32, size: u32) -> Result<(), PackFault>
        ensures does_its_step { (state W.means self.new, result) ≡ make board slot size (state W.means self.old) }
        ensures keeps_its_memory { memory self.new ≡ memory self.old }
        ensures refused_leaves_all_as_it_was { OnErr result (self.new ≡ self.old) }
    {
        let x = self.named(board, slot)?;
        if !(1..=64).contains(&size) {
            return Err(PackFault::BadSize);
        }
        x.ready()?;
        let entry = x.first_free().ok_or(PackFault::NoEntry)?;
        if self.core.settings.cells.saturating_sub(x.top()) <= size {
            return Err(PackFault::NoRoom);
        }
        self.core.place_record(board, slot, entry, size);
        Ok(())
    }

    // The slot becomes a value.
    pub fn set(&mut self, board: u32, slot: u32, number: u32) -> Result<(), PackFault>
        ensures does_its_step { (state W.means self.new, result) ≡ set_slot board slot number (state W.means self.old) }
        ensures keeps_its_memory { memory self.new ≡ memory self.old }
        ensures refused_leaves_all_as_it_was { OnErr result (self.new ≡ self.old) }
    {
        let x = self.named(board, slot)?;
        x.ready()?;
        self.core.put_slot(board, slot, Cell::Value(number));
        Ok(())
    }
}
