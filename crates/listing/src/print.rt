// The lines of a listing. Not by `write!`, whose contract says nothing where it answers `Err`: these cannot fail.
ghost use Rattle.std.specs.Prelude.{◌≡◌};
ghost use Rattle.text.specs.Written.{Wrote};
ghost use Rattle.listing.specs.Numbers.{printed};
ghost use Rattle.listing.specs.Printed.{Words, answer_line, figures_line};

use crate::fault::Refusal;
use text::writer::Writer;
use theory::state::Figures;

// What is printed as the answer: the deliveries of an accepted call, or the number of its refusal.
fn number_of(answer: Result<u32, Refusal>) -> u64
    ensures { result ≡ printed answer }
{
    match answer {
        Ok(count) => u64::from(count),
        Err(refusal) => u64::from(u8::from(refusal)),
    }
}

// The number of a line, and its answer.
pub(crate) fn answer_line(writer: &mut Writer<'_>, line: usize, answer: Result<u32, Refusal>)
    ensures { Wrote writer.old writer.new (answer_line line answer) }
{
    writer.number(line as u64);
    writer.byte(b' ');
    writer.number(number_of(answer));
    writer.byte(b'\n');
}

// The three figures of a collection, each of which has 64 bits.
pub(crate) fn figures_line(writer: &mut Writer<'_>, figures: Figures)
    ensures text { Wrote writer.old writer.new (figures_line figures) }
    ensures words { Words figures }
{
    writer.number(figures.kept);
    writer.byte(b' ');
    writer.number(figures.messages);
    writer.byte(b' ');
    writer.number(figures.freed);
    writer.byte(b'\n');
}
