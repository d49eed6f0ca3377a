// What a board keeps beside its memory.
ghost use Rattle.std.specs.Prelude.{◌≡◌, ℕ, ◌<◌, length, min};
ghost use Rattle.boards.specs.Models.{Bare};

use purse::Purse;
use theory::memory::{Cell, Mode, Outcome};
use theory::state::Round;

#[derive(Clone, Copy, PartialEq, Eq, Debug)]
pub struct Registers {
    pub slots: [Cell; 8],
    pub top: u32,
    pub waits: bool,
    pub outcome: Outcome,
    pub mode: Mode,
    pub requested: bool,
    pub purse: Purse,
    pub round: Round,
}

// Sixteen boards with nothing on them, each with so much credit, but no more than the most.
pub fn fresh_registers(credit: u32, most: u32) -> [Registers; 16]
    ensures count { length result ≡ 16 }
    ensures each { (b : ℕ) → b < 16 → Bare (min credit most) most result b }
{
    [Registers {
        slots: [Cell::Value(0); 8],
        top: 0,
        waits: false,
        outcome: Outcome::Done,
        mode: Mode::Run,
        requested: false,
        purse: Purse::new(credit, most),
        round: Round::default(),
    }; 16]
}
