// Credit: what is there, and the most that there can be.
#![tactic(auto)]

ghost use Rattle.std.specs.Prelude.{◌≡◌, ◌+◌, ◌-◌, ◌<◌, ◌≤◌, min, if◌then◌else◌, Ok, Err, nat_lt};

use thiserror::Error;

// The refusal to spend more than there is.
#[derive(Clone, Copy, PartialEq, Eq, Debug, Error)]
#[error("the purse has less than that")]
pub struct Short;

#[derive(Clone, Copy, PartialEq, Eq, Debug)]
pub struct Purse {
    have: u32,
    most: u32,
    ghost within: { have ≤ most },
}

impl Purse {
    // What is above the most is cut off.
    pub fn new(have: u32, most: u32) -> Purse
        ensures have { result.have ≡ min have most }
        ensures most { result.most ≡ most }
    {
        Purse {
            have: have.min(most),
            most,
        }
    }

    pub fn have(&self) -> u32
        ensures { result ≡ self.now.have }
    {
        self.have
    }

    pub fn most(&self) -> u32
        ensures { result ≡ self.now.most }
    {
        self.most
    }

    pub fn spend(&mut self, n: u32) -> Result<(), Short>
        ensures most { self.new.most ≡ self.old.most }
        ensures have { self.new.have ≡ (if nat_lt self.old.have n then self.old.have else self.old.have - n) }
        ensures answer { result ≡ (if nat_lt self.old.have n then Err (record {}) else Ok tt) }
        ensures refused { self.old.have < n → self.new ≡ self.old }
    {
        self.have = self.have.checked_sub(n).ok_or(Short)?;
        Ok(())
    }

    // What does not fit is lost.
    pub fn earn(&mut self, n: u32)
        ensures most { self.new.most ≡ self.old.most }
        ensures have { self.new.have ≡ min (self.old.have + n) self.old.most }
    {
        self.have = self.have.saturating_add(n).min(self.most);
    }
}
