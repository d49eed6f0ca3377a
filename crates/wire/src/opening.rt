// Wires that are opened for a number of boards. Each tests the number itself: a helper would be as long.
ghost use Rattle.std.specs.Prelude.{◌≡◌, OnErr};
ghost use Rattle.theory.specs.Wire.{open_for};

use crate::Wire;
use theory::fault::PackFault;

pub trait Open: Wire {
    // Joins so many boards, with nothing waiting, or refuses more than 16 and changes nothing.
    fn open(&mut self, boards: u32) -> Result<(), PackFault>
        ensures does_its_step { (Self.means self.new, result) ≡ open_for boards (Self.means self.old) }
        ensures refused_leaves_all_as_it_was { OnErr result (self.new ≡ self.old) };
}
