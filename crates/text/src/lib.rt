// Reading lines of numbers, and writing a listing into a lent place.
#![tactic(auto)]

pub mod fields;
pub mod reader;
pub mod writer;
