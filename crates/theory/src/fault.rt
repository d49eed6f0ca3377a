// Why a call is refused.
ghost use Rattle.std.specs.Prelude.{◌≡◌};
ghost use Rattle.theory.specs.declared.fault.PackFault.TheVariants.{NothingWaits};
ghost use Rattle.theory.specs.Numbers.{number};

use thiserror::Error;

// Why a wire refuses: the pair is not below its number of boards, it is full, or nothing waits.
#[derive(Clone, Copy, PartialEq, Eq, Debug, Error)]
pub enum WireFault {
    #[error("the wire does not join these boards")]
    NoPair,
    #[error("the wire is full")]
    Full,
    #[error("nothing waits on the wire between these boards")]
    Empty,
}

// Why a pack refuses, in the order in which its checks are made.
#[derive(Clone, Copy, PartialEq, Eq, Debug, Error)]
pub enum PackFault {
    #[error("a setting is out of its range")]
    Setting,
    #[error("the memory is too small for the settings")]
    Memory,
    #[error("the wire joins too few boards, or has too little room")]
    SmallWire,
    #[error("a message waits on the wire already")]
    BusyWire,
    #[error("there is no such board")]
    NoBoard,
    #[error("there is no such slot")]
    NoSlot,
    #[error("a record has 1 to 64 cells")]
    BadSize,
    #[error("an offset is at most 63")]
    BadOffset,
    #[error("the board is in a collection")]
    Collecting,
    #[error("the board waits for an answer")]
    Waiting,
    #[error("the slot holds no reference")]
    NoReference,
    #[error("the offset is past the end of the record")]
    PastEnd,
    #[error("no entry is free")]
    NoEntry,
    #[error("too few cells are free")]
    NoRoom,
    #[error("a collection is requested already")]
    Requested,
    #[error("nothing can be taken: {0}")]
    NothingWaits(WireFault),
}

impl From<WireFault> for PackFault {
    ghost from_gives = { λ e r. r ≡ NothingWaits e };

    fn from(fault: WireFault) -> PackFault {
        PackFault::NothingWaits(fault)
    }
}

// The number by which a refusal is known outside.
impl From<PackFault> for u8 {
    ghost from_gives = { λ fault n. n ≡ number fault };

    fn from(fault: PackFault) -> u8 {
        match fault {
            PackFault::Setting | PackFault::Memory => 5,
            PackFault::SmallWire => 6,
            PackFault::BusyWire => 7,
            PackFault::NoBoard => 8,
            PackFault::NoSlot => 9,
            PackFault::BadSize | PackFault::BadOffset => 10,
            PackFault::Collecting => 11,
            PackFault::Waiting => 12,
            PackFault::NoReference => 13,
            PackFault::PastEnd => 14,
            PackFault::NoEntry => 15,
            PackFault::NoRoom => 16,
            PackFault::Requested => 17,
            PackFault::NothingWaits(_) => 18,
        }
    }
}
