// A pack: boards over lent memory and any wire, with any tally, and its calls.
#![tactic(auto)]

pub mod pack;
