// The same sends and takes in every run: draws of a linear congruential generator. It stands here in a few
// lines, so that the draws depend on no library's version.
ghost use Rattle.std.specs.Prelude.{◌<◌};

use theory::memory::{Cell, Parent, Ref};
use theory::message::{Message, Operation, Pair};
use theory::state::Figures;

#[derive(Clone, Copy)]
pub(crate) struct Draws {
    state: u32,
}

impl Draws {
    pub(crate) fn seeded(state: u32) -> Draws {
        Draws { state }
    }

    pub(crate) fn below(&mut self, bound: u32) -> u32
        requires { 0 < bound }
        ensures { result < bound }
    {
        self.state = self
            .state
            .wrapping_mul(1_664_525)
            .wrapping_add(1_013_904_223);
        (self.state >> 16) % bound
    }

    // First the board that sends, then the one that takes.
    pub(crate) fn pair_below(&mut self, bound: u32) -> Pair
        requires { 0 < bound }
        ensures { (result.from < bound) × (result.to < bound) }
    {
        let from = self.below(bound);
        let to = self.below(bound);
        Pair { from, to }
    }
}

// A message that tells its number, of one kind or another.
pub(crate) fn message(number: u32) -> Message {
    match number % 4 {
        0 => Message::Swept(Figures {
            kept: u64::from(number),
            messages: 2,
            freed: 1,
        }),
        1 => Message::Reply {
            parent: Parent::Entry(Ref {
                board: (number >> 16) as u16,
                entry: (number % 65_536) as u16,
            }),
        },
        2 => Message::Operation(Operation::Get {
            at: Ref { board: 1, entry: 2 },
            offset: number,
            target: 7,
        }),
        _ => Message::Operation(Operation::Give {
            slot: 3,
            cell: Cell::Value(number),
        }),
    }
}
