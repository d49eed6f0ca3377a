// What a collection counts of the records that it keeps: a word for each record, joined in any order.
#![tactic(auto)]

ghost use Rattle.std.specs.Prelude.{◌≡◌, ℕ, ◌+◌, ◌%◌, ◌^◌, ◌<◌, min, List, fold};
ghost use mathlib.Core.List.{Permᴰ};
ghost use Rattle.theory.specs.declared.memory.Cell.{Cell};
ghost use Rattle.tally.specs.Words.{number_or};
ghost use Rattle.std.proofs.Common.{rules};

use theory::memory::Cell;

pub trait Tally {
    // The word of no record.
    const START: u64;

    // The same for contracts: generic code knows by it what START is.
    ghost START: { ℕ };

    // The word of a record, from its size and its first cell.
    ghost weight: { ℕ → Cell → ℕ };

    ghost joined: { ℕ → ℕ → ℕ };

    fn weigh(size: u32, first_cell: Cell) -> u64
        ensures { result ≡ weight size first_cell };

    fn join(x: u64, y: u64) -> u64
        ensures { result ≡ joined x y };

    ghost assoc: { (x y z : ℕ) → joined (joined x y) z ≡ joined x (joined y z) };

    ghost comm: { (x y : ℕ) → joined x y ≡ joined y x };

    ghost identity: { (x : ℕ) → x < 2 ^ 64 → joined START x ≡ x };

    ghost start_fits: { START < 2 ^ 64 };

    ghost weight_fits: { (size : ℕ) (cell : Cell) → size < 2 ^ 64 → number_or 0 cell < 2 ^ 64 → weight size cell < 2 ^ 64 };

    ghost joined_fits: { (x y : ℕ) → x < 2 ^ 64 → y < 2 ^ 64 → joined x y < 2 ^ 64 };
}

// How many cells the records have, modulo 2^64.
#[derive(Clone, Copy, PartialEq, Eq, Debug, Drop)]
pub struct Cells;

impl Tally for Cells {
    const START: u64 = 0;

    ghost START = { 0 };

    ghost weight = { λ size cell. size };

    ghost joined = { λ x y. (x + y) % 2 ^ 64 };

    ghost assoc = { Prim.search rules };

    ghost comm = { Prim.search rules };

    ghost identity = { Prim.search rules };

    ghost start_fits = { Prim.search rules };

    ghost weight_fits = { Prim.search rules };

    ghost joined_fits = { Prim.search rules };

    fn weigh(size: u32, _first_cell: Cell) -> u64 {
        u64::from(size)
    }

    fn join(x: u64, y: u64) -> u64 {
        x.wrapping_add(y)
    }
}

// The least number that a record has in its first cell: the week of the oldest record.
#[derive(Clone, Copy, PartialEq, Eq, Debug, Drop)]
pub struct OldestWeek;

impl Tally for OldestWeek {
    const START: u64 = u64::MAX;

    ghost START = { 18446744073709551615 };

    ghost weight = { λ size cell. number_or 18446744073709551615 cell };

    ghost joined = { min };

    ghost assoc = { Prim.search rules };

    ghost comm = { Prim.search rules };

    ghost identity = { Prim.search rules };

    ghost start_fits = { Prim.search rules };

    ghost weight_fits = { Prim.search rules };

    ghost joined_fits = { Prim.search rules };

    fn weigh(_size: u32, first_cell: Cell) -> u64 {
        match first_cell {
            Cell::Value(week) => u64::from(week),
            Cell::Ref(_) => Self::START,
        }
    }

    fn join(x: u64, y: u64) -> u64 {
        x.min(y)
    }
}

// All words joined, which their order does not change.
pub fn total<T: Tally>(words: &[u64]) -> u64
    ensures fold { result ≡ fold T.joined T.START words.now }
    ensures order { (others : List ℕ) → Permᴰ words.now others → result ≡ fold T.joined T.START others }
{
    words.iter().fold(T::START, |sum, word| T::join(sum, *word))
}
