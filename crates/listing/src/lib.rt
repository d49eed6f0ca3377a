// A file of calls, and its listing.
#![tactic(auto)]

mod expect;
pub mod fault;
pub mod list;
mod print;
mod row;
mod script;
