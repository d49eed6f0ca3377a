// A wire over one lent table whose places are linked: a chain of places for each ordered pair of
// boards, and one for the free places. What a send or a take costs does not depend on how many
// messages wait.
#![tactic(auto)]

ghost use Rattle.std.specs.Prelude.{◌≤◌};
ghost use Rattle.chains.specs.Linkages.{Counted, Summed};
ghost use Rattle.chains.specs.Tables.{linkage};

use crate::table::Table;
use theory::message::Message;

pub mod as_wire;
mod open;
mod table;

// A place of the table: a message, and the number of the place that follows it in its chain. That of a chain's
// last place is never followed, so it needs no Option.
#[derive(Clone, Copy, PartialEq, Eq, Debug)]
pub struct Link {
    message: Message,
    next: usize,
}

impl Link {
    // What a place holds before it was used. No `Default`: no message is one.
    pub const BLANK: Link = Link {
        message: Message::Want,
        next: 0,
    };
}

// The places of `table` are in chains, `total` of them in those of pairs of boards.
#[derive(Drop)]
pub struct Chains<'a> {
    table: Table<'a>,
    boards: u32,
    total: usize,
    ghost few: { boards ≤ 16 },
    ghost counted: { Counted (linkage table) total },
    ghost summed: { Summed (linkage table) boards total },
}
