// The listing function on many files: every way in which a line can be malformed, the ranges of the
// settings, the order of the refusals, and files as long as they may be and longer.
#![tactic(auto)]

#[cfg(test)]
mod cases;
#[cfg(test)]
mod harness;
#[cfg(test)]
mod tests;
