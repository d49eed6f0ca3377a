// A wire that joins no board yet, and its opening.
ghost use Rattle.std.specs.Prelude.{◌≡◌, length};
ghost use Rattle.theory.specs.Wire.{empty};
ghost use Rattle.chains.specs.WireStates.{wire_state};

use crate::table::Table;
use crate::{Chains, Link};
use theory::fault::PackFault;
use wire::opening::Open;

impl<'a> Chains<'a> {
    // Joins no board: every message is refused until `open`. All places are free.
    pub fn over(links: &'a mut [Link]) -> Chains<'a>
        ensures { wire_state result ≡ empty 0 (length links.old) }
    {
        Chains {
            table: Table::over(links),
            boards: 0,
            total: 0,
        }
    }
}

impl Open for Chains<'_> {
    fn open(&mut self, boards: u32) -> Result<(), PackFault> {
        if boards > 16 {
            return Err(PackFault::Setting);
        }
        self.table.clear();
        self.boards = boards;
        self.total = 0;
        Ok(())
    }
}
