// A wire over one lent slice: all letters in the order of sending, whatever their pair.
#![tactic(auto)]

ghost use Rattle.std.specs.Prelude.{◌≡◌, ◌≤◌, true};
ghost use Rattle.line.specs.Letters.{joins};
ghost use Rattle.line.specs.Kept.{kept};

pub use letters::Letter;
use letters::Letters;

pub mod as_wire;
mod letters;
mod open;

#[derive(Drop)]
pub struct Line<'a> {
    letters: Letters<'a>,
    boards: u32,
    ghost few: { boards ≤ 16 },
    ghost joined: { joins boards (kept letters) ≡ true },
}
