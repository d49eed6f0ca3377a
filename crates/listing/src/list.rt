// The listing of a file, in a place that is lent for it.
ghost use Rattle.std.specs.Prelude.{◌≡◌, ◌≤◌, true, false, length, take, drop, MatchResult};
ghost use Rattle.text.specs.Left.{left, given};
ghost use Rattle.text.specs.Lines.{lines};
ghost use Rattle.text.specs.Written.{Wrote};
ghost use Rattle.pack.specs.Shown.{state, memory};
ghost use Rattle.listing.specs.declared.fault.Refusal.TheVariants.{Size};
ghost use Rattle.listing.specs.Listing.{Listed, from_line_1, listing, pack_after, too_large};
ghost use Rattle.listing.specs.Printed.{Words};

use crate::fault::Refusal;
use crate::print::{answer_line, figures_line};
use crate::script::script;
use pack::pack::Pack;
use tally::Tally;
use text::reader::Reader;
use text::writer::Writer;
use wire::Wire;

// The most bytes of a file, and the least of a listing's place.
pub const MOST_INPUT: usize = 60_000;

pub const LEAST_PLACE: usize = 65_536;

// The answers of every line.
fn answers<W: Wire, T: Tally>(
    pack: &mut Pack<'_, W, T>,
    reader: &mut Reader<'_>,
    writer: &mut Writer<'_>,
)
    requires { given reader.old ≡ 0 }
    ensures text { Wrote writer.old writer.new (from_line_1 (memory pack.old) (lines (left reader.old)) (state W.means pack.old)).0 }
    ensures pack { state W.means pack.new ≡ (from_line_1 (memory pack.old) (lines (left reader.old)) (state W.means pack.old)).1 }
{
    if let Err(fault) = script(pack, reader, writer) {
        answer_line(writer, fault.line, Err(fault.refusal));
    }
}

// The whole listing.
fn write_listing<W: Wire, T: Tally>(
    pack: &mut Pack<'_, W, T>,
    input: &[u8],
    writer: &mut Writer<'_>,
)
    ensures text { Wrote writer.old writer.new (listing (memory pack.old) input.now (state W.means pack.old)) }
    ensures pack { state W.means pack.new ≡ pack_after (memory pack.old) input.now (state W.means pack.old) }
    ensures words { Words (state W.means pack.new).result }
{
    let mut reader = Reader::over(input);
    writer.text(b"line answer\n");
    answers(pack, &mut reader, writer);
    writer.text(b"kept messages freed\n");
    figures_line(writer, pack.result());
}

// As much of the listing as the place has room for.
fn fill<W: Wire, T: Tally>(pack: &mut Pack<'_, W, T>, input: &[u8], place: &mut [u8]) -> usize
    ensures front { take result place.new ≡ take (length place.old) (listing (memory pack.old) input.now (state W.means pack.old)) }
    ensures behind { drop result place.new ≡ drop result place.old }
    ensures within { result ≤ length place.new }
    ensures pack { state W.means pack.new ≡ pack_after (memory pack.old) input.now (state W.means pack.old) }
    ensures words { Words (state W.means pack.new).result }
{
    let mut writer = Writer::over(place);
    write_listing(pack, input, &mut writer);
    writer.len()
}

// Writes the listing of a file to the front of a place and says how long it is; the rest of the place
// stays as it was. It always fits. A file that is too long, or a place that is too short, is refused,
// and then neither the place nor the pack is touched.
pub fn list<W: Wire, T: Tally>(
    pack: &mut Pack<'_, W, T>,
    input: &[u8],
    place: &mut [u8],
) -> Result<usize, Refusal>
    ensures { MatchResult result
        (λ n. (too_large (length input.now) (length place.old) ≡ false)
        × Listed (listing (memory pack.old) input.now (state W.means pack.old)) place.old place.new n
        × (state W.means pack.new ≡ pack_after (memory pack.old) input.now (state W.means pack.old)))
        (λ e. (too_large (length input.now) (length place.old) ≡ true) × (e ≡ Size) × (place.new ≡ place.old) × (pack.new ≡ pack.old)) }
{
    if input.len() > MOST_INPUT {
        return Err(Refusal::Size);
    }
    if place.len() < LEAST_PLACE {
        return Err(Refusal::Size);
    }
    Ok(fill(pack, input, place))
}
