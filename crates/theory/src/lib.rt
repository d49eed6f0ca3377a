// What the code and the model of a pack share: the values that boards keep and send.
#![tactic(auto)]

pub mod call;
pub mod fault;
pub mod memory;
pub mod message;
pub mod state;
