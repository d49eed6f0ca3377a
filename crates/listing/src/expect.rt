// The lines that a file has to begin with.
ghost use Rattle.std.specs.Prelude.{◌≡◌, ◌+◌, true, false, Some, None, MatchResult};
ghost use Rattle.text.specs.Left.{left, given};
ghost use Rattle.text.specs.Lines.{lines};
ghost use Rattle.theory.specs.Lists.{tail};
ghost use Rattle.listing.specs.declared.fault.Refusal.TheVariants.{Names, Values};
ghost use Rattle.listing.specs.Listing.{begins, settings_in};
ghost use Rattle.listing.specs.Numbers.{at_line};

use crate::fault::{LineFault, Refusal};
use crate::row::settings;
use text::reader::Reader;
use theory::state::Settings;

// The next line has just these names.
pub(crate) fn expect_names(
    reader: &mut Reader<'_>,
    number: usize,
    names: &[u8],
) -> Result<(), LineFault>
    ensures { MatchResult result
        (λ _. (begins names.now (lines (left reader.old)) ≡ true)
        × (lines (left reader.new) ≡ tail (lines (left reader.old)))
        × (given reader.new ≡ given reader.old + 1))
        (λ e. (begins names.now (lines (left reader.old)) ≡ false) × (e ≡ at_line number Names)) }
{
    let fault = Refusal::Names.at(number);
    match reader.next_line() {
        Some(line) if line.text == names => Ok(()),
        _ => Err(fault),
    }
}

// The next line has the settings.
pub(crate) fn expect_settings(reader: &mut Reader<'_>, number: usize) -> Result<Settings, LineFault>
    ensures { MatchResult result
        (λ t. (settings_in (lines (left reader.old)) ≡ Some t)
        × (lines (left reader.new) ≡ tail (lines (left reader.old)))
        × (given reader.new ≡ given reader.old + 1))
        (λ e. (settings_in (lines (left reader.old)) ≡ None) × (e ≡ at_line number Values)) }
{
    let read = reader.next_line().and_then(settings);
    read.ok_or(Refusal::Values.at(number))
}
