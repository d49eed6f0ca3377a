// What boards send each other.
ghost use Rattle.std.specs.Prelude.{◌↔◌, ◌<◌, IsTrue};

use crate::memory::{Cell, Outcome, Parent, Ref};
use crate::state::Figures;

// A remote read or write of a board's memory, or the answer to one.
#[derive(Clone, Copy, PartialEq, Eq, Debug)]
pub enum Operation {
    Put {
        at: Ref,
        offset: u32,
        cell: Cell,
    },
    Get {
        at: Ref,
        offset: u32,
        target: u32,
    },
    Give {
        slot: u32,
        cell: Cell,
    },
    Ack {
        outcome: Outcome,
    },
    Fill {
        slot: u32,
        cell: Cell,
        outcome: Outcome,
    },
}

#[derive(Clone, Copy, PartialEq, Eq, Debug)]
pub enum Message {
    Operation(Operation),
    Want,
    Start,
    Shove,
    End,
    Sweep,
    Swept(Figures),
    Mark { target: Ref, parent: Parent },
    Reply { parent: Parent },
}

// An ordered pair of boards: the one that sends, and the one that takes.
#[derive(Clone, Copy, PartialEq, Eq, Debug)]
pub struct Pair {
    pub from: u32,
    pub to: u32,
}

impl Pair {
    // Whether both are below a number of boards.
    pub fn is_below(self, boards: u32) -> bool
        ensures { IsTrue result ↔ ((self.from < boards) × (self.to < boards)) }
    {
        self.from < boards && self.to < boards
    }
}

// An operation that a board holds until it has swept, with the board that sent it.
#[derive(Clone, Copy, PartialEq, Eq, Debug)]
pub struct Held {
    pub from: u32,
    pub operation: Operation,
}

impl Held {
    // What a place holds before anything was held there. No `Default`: no operation is one.
    pub const BLANK: Held = Held {
        from: 0,
        operation: Operation::Ack {
            outcome: Outcome::Done,
        },
    };
}
