// The boards of a pack over lent memory: what each holds, and its elementary changes.
#![tactic(auto)]

pub mod board;
mod flat;
pub mod inner;
pub mod memory;
mod numbering;
pub mod ranged;
pub mod registers;
