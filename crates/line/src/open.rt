// Making a line, and opening it for a number of boards.
ghost use Rattle.std.specs.Prelude.{◌≡◌, length, OnErr};
ghost use Rattle.theory.specs.Wire.{empty, open_for};
ghost use Rattle.line.specs.WireStates.{letters_of, wire_state};

use crate::Line;
use crate::letters::{Letter, Letters};
use theory::fault::PackFault;
use wire::opening::Open;

impl<'a> Line<'a> {
    // A line that joins no boards yet, with room for as many messages as letters are lent.
    pub fn over(letters: &'a mut [Letter]) -> Line<'a>
        ensures joins_none { wire_state result ≡ empty 0 (length letters.old) }
        ensures keeps_the_lent_letters { letters_of result ≡ letters.old }
    {
        Line {
            letters: Letters::over(letters),
            boards: 0,
        }
    }
}

impl Open for Line<'_> {
    // As of every wire that is opened; besides, the lent letters stay as they are.
    fn open(&mut self, boards: u32) -> Result<(), PackFault>
        ensures does_its_step { (wire_state self.new, result) ≡ open_for boards (wire_state self.old) }
        ensures refused_leaves_all_as_it_was { OnErr result (self.new ≡ self.old) }
        ensures keeps_the_lent_letters { letters_of self.new ≡ letters_of self.old }
    {
        if boards > 16 {
            return Err(PackFault::Setting);
        }
        self.letters.clear();
        self.boards = boards;
        Ok(())
    }
}
