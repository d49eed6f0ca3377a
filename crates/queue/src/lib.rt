// First in, first out, over places that the caller lends.
#![tactic(auto)]

pub mod queue;
pub mod queues;
pub mod ring;

use thiserror::Error;

// The refusal of a queue that is full.
#[derive(Clone, Copy, PartialEq, Eq, Debug, Error)]
#[error("the queue is full")]
pub struct Full;

// The refusal of a layout of more than 16 queues, or of more places than are lent.
#[derive(Clone, Copy, PartialEq, Eq, Debug, Error)]
#[error("more than 16 queues, or more places than are lent")]
pub struct TooSmall;
