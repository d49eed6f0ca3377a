// Why a line is refused: the wire's fault in the pack's, the pack's in the line's.
ghost use Rattle.std.specs.Prelude.{◌≡◌};
ghost use Rattle.listing.specs.declared.fault.Refusal.TheVariants.{Pack};
ghost use Rattle.std.specs.Result.{result_map_both};
ghost use Rattle.listing.specs.Numbers.{at_line, number};

use theory::fault::PackFault;
use thiserror::Error;

#[derive(Clone, Copy, PartialEq, Eq, Debug, Error)]
pub enum Refusal {
    #[error("the file is too long, or the place for its listing too short")]
    Size,
    #[error("a names line differs or is missing")]
    Names,
    #[error("a value line is malformed or missing")]
    Values,
    #[error("no call has this code")]
    Code,
    #[error("{0}")]
    Pack(PackFault),
}

impl From<PackFault> for Refusal {
    ghost from_gives = { λ e r. r ≡ Pack e };

    fn from(fault: PackFault) -> Refusal {
        Refusal::Pack(fault)
    }
}

#[derive(Clone, Copy, PartialEq, Eq, Debug, Error)]
#[error("line {line}: {refusal}")]
pub struct LineFault {
    pub line: usize,
    pub refusal: Refusal,
}

// The number by which a refusal is known outside.
impl From<Refusal> for u8 {
    ghost from_gives = { λ refusal n. n ≡ number refusal };

    fn from(refusal: Refusal) -> u8 {
        match refusal {
            Refusal::Size => 1,
            Refusal::Names => 2,
            Refusal::Values => 3,
            Refusal::Code => 4,
            Refusal::Pack(inner) => u8::from(inner),
        }
    }
}

impl Refusal {
    // The refusal, with the line that it is of.
    pub(crate) fn at(self, line: usize) -> LineFault
        ensures { result ≡ at_line line self }
    {
        LineFault {
            line,
            refusal: self,
        }
    }
}

// What a call answered, with the line that it was made for.
pub fn on_line<T>(line: usize, r: Result<T, PackFault>) -> Result<T, LineFault>
    ensures { result ≡ result_map_both (λ x. x) (λ e. at_line line (Pack e)) r }
{
    r.map_err(|fault| Refusal::from(fault).at(line))
}
