// Any call, as a value.
ghost use Rattle.std.specs.Prelude.{◌≡◌, OnErr};
ghost use Rattle.theory.specs.Calls.{step};
ghost use Rattle.pack.specs.Shown.{state, memory};

use super::Pack;
use tally::Tally;
use theory::call::Call;
use theory::fault::PackFault;
use wire::Wire;

impl<W: Wire, T: Tally> Pack<'_, W, T> {
    // Performs a call, and answers how many deliveries it made.
    pub fn perform(&mut self, call: Call) -> Result<u32, PackFault>
        ensures does_its_step { (state W.means self.new, result) ≡ step call (state W.means self.old) }
        ensures keeps_its_memory { memory self.new ≡ memory self.old }
        ensures refused_leaves_all_as_it_was { OnErr result (self.new ≡ self.old) }
    {
        match call {
            Call::Make { board, slot, size } => self.make(board, slot, size)?,
            Call::Set {
                board,
                slot,
                number,
            } => self.set(board, slot, number)?,
        }
        Ok(0)
    }
}
