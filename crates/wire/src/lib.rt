// What a wire means, to all that is built on one: how many boards it joins, how many messages it can
// hold, and for each ordered pair of boards, equal ones too, the messages that wait, in order.
#![tactic(auto)]

ghost use Rattle.std.specs.Prelude.{◌≡◌, length, OnErr};
ghost use Rattle.theory.specs.Wire.{WireState, Proper, load, send, take};

use theory::fault::WireFault;
use theory::message::{Message, Pair};

pub mod lent;
pub mod opening;
pub mod transfer;

// A wire tests its pair where it sends and takes: a helper that refuses would need a `?` there, and be as long.
pub trait Wire {
    ghost means: { Self → WireState };

    // How many boards it joins: at most 16.
    fn boards(&self) -> u32
        ensures number { result ≡ (means self.now).boards }
        ensures proper { Proper (means self.now) };

    // How many messages it can hold.
    fn capacity(&self) -> usize
        ensures { result ≡ (means self.now).capacity };

    // How many messages wait on a pair: none where the wire does not join it.
    fn len(&self, pair: Pair) -> usize
        ensures { result ≡ length ((means self.now).waiting pair.from pair.to) };

    // How many messages wait on all pairs together.
    fn total(&self) -> usize
        ensures { result ≡ load (means self.now) };

    // Appends a message to those of its pair, or refuses and changes nothing.
    fn send(&mut self, pair: Pair, message: Message) -> Result<(), WireFault>
        ensures does_its_step { (means self.new, result) ≡ send pair.from pair.to message (means self.old) }
        ensures refused_leaves_all_as_it_was { OnErr result (self.new ≡ self.old) };

    // Takes the first message of a pair, or refuses and changes nothing.
    fn take(&mut self, pair: Pair) -> Result<Message, WireFault>
        ensures does_its_step { (means self.new, result) ≡ take pair.from pair.to (means self.old) }
        ensures refused_leaves_all_as_it_was { OnErr result (self.new ≡ self.old) };

    // What holds of every wire. Generic code has it without a call; who knows the wire's type learns it from `boards`.
    ghost proper: { (wire : Self) → Proper (means wire) };
}
