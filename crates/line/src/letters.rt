// Letters in the order of sending, at the front of a lent slice. Only this module reads and writes the
// slice, so that a line speaks of its letters as a list, and not of places and how many are used.
ghost use Rattle.std.specs.Prelude.{◌≤◌, length};

use theory::message::{Message, Pair};

mod change;
mod read;

#[derive(Clone, Copy, PartialEq, Eq, Debug)]
pub struct Letter {
    pub pair: Pair,
    pub message: Message,
}

impl Letter {
    // What a place holds before a letter was put there. No `Default`: no message is one.
    pub const BLANK: Letter = Letter {
        pair: Pair { from: 0, to: 0 },
        message: Message::Want,
    };
}

// The first `used` places have letters. The memory is lent and nothing is allocated, so no Vec knows the length.
#[derive(Drop)]
pub(crate) struct Letters<'a> {
    places: &'a mut [Letter],
    used: usize,
    ghost fits: { used ≤ length places.now },
}
