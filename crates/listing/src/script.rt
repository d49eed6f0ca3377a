// The lines of a file, performed on a pack one by one, with their answers. Pack, reader and writer are three parameters:
// of a struct of the three, each contract would have to say that it hands the three references back.
ghost use Rattle.std.specs.Prelude.{◌≡◌, ◌+◌};
ghost use Rattle.text.specs.Left.{left, given};
ghost use Rattle.text.specs.Lines.{lines};
ghost use Rattle.pack.specs.Shown.{state, memory};
ghost use Rattle.listing.specs.Lines.{call_of};
ghost use Rattle.listing.specs.Listing.{performed, call_lines, from_line_1};
ghost use Rattle.listing.specs.Toward.{Toward, ending};

use crate::expect::{expect_names, expect_settings};
use crate::fault::{LineFault, Refusal, on_line};
use crate::print::answer_line;
use crate::row::Row;
use pack::pack::Pack;
use tally::Tally;
use text::reader::Reader;
use text::writer::Writer;
use wire::Wire;

// The call of a line, where its code names one.
fn perform<W: Wire, T: Tally>(pack: &mut Pack<'_, W, T>, row: Row) -> Result<u32, Refusal>
    ensures { (state W.means pack.new, result) ≡ performed (call_of row) (state W.means pack.old) }
{
    let call = row.call().ok_or(Refusal::Code)?;
    Ok(pack.perform(call)?)
}

// Every call line, until one is malformed.
fn calls<W: Wire, T: Tally>(
    pack: &mut Pack<'_, W, T>,
    reader: &mut Reader<'_>,
    writer: &mut Writer<'_>,
) -> Result<(), LineFault>
    ensures text { Toward writer.old writer.new (ending result) (call_lines (given reader.old + 1) (lines (left reader.old)) (state W.means pack.old)).0 }
    ensures pack { state W.means pack.new ≡ (call_lines (given reader.old + 1) (lines (left reader.old)) (state W.means pack.old)).1 }
{
    while let Some(line) = reader.next_line() {
        let Some(row) = Row::of(line) else {
            return Err(Refusal::Values.at(line.number));
        };
        let answer = perform(pack, row);
        answer_line(writer, line.number, answer);
    }
    Ok(())
}

// The settings, and then every call line, until reading stops.
pub(crate) fn script<W: Wire, T: Tally>(
    pack: &mut Pack<'_, W, T>,
    reader: &mut Reader<'_>,
    writer: &mut Writer<'_>,
) -> Result<(), LineFault>
    requires { given reader.old ≡ 0 }
    ensures text { Toward writer.old writer.new (ending result) (from_line_1 (memory pack.old) (lines (left reader.old)) (state W.means pack.old)).0 }
    ensures pack { state W.means pack.new ≡ (from_line_1 (memory pack.old) (lines (left reader.old)) (state W.means pack.old)).1 }
{
    expect_names(reader, 1, b"boards cells entries credit\n")?;
    let settings = expect_settings(reader, 2)?;
    on_line(2, pack.set_up(settings))?;
    answer_line(writer, 2, Ok(0));
    expect_names(reader, 3, b"call board a b c\n")?;
    calls(pack, reader, writer)
}
