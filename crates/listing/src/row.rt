// The numbers of a value line.
ghost use Rattle.std.specs.Prelude.{◌≡◌};
ghost use Rattle.listing.specs.Lines.{settings_of, row_of, call_of};

use text::fields::Fields;
use text::reader::Line;
use theory::call::Call;
use theory::state::Settings;

// The five numbers of a call line.
#[derive(Clone, Copy)]
pub(crate) struct Row {
    pub code: u32,
    pub board: u32,
    pub a: u32,
    pub b: u32,
    pub c: u32,
}

impl Row {
    // No `TryFrom`: a line gives no reason, so each `?` would first have to make one.
    pub(crate) fn of(line: Line<'_>) -> Option<Row>
        ensures { result ≡ row_of line.entry.text.now }
    {
        let mut fields = Fields::of(line);
        let code = fields.value(b' ')?;
        let board = fields.value(b' ')?;
        let a = fields.value(b' ')?;
        let b = fields.value(b' ')?;
        let c = fields.value(b'\n')?;
        Some(Row {
            code,
            board,
            a,
            b,
            c,
        })
    }

    // The call that the code names, with its arguments in order. The codes are the file's. No `TryFrom`, as above.
    pub(crate) fn call(self) -> Option<Call>
        ensures { result ≡ call_of self }
    {
        let Row {
            code,
            board,
            a,
            b,
            ..
        } = self;
        match code {
            1 => Some(Call::Make {
                board,
                slot: a,
                size: b,
            }),
            5 => Some(Call::Set {
                board,
                slot: a,
                number: b,
            }),
            _ => None,
        }
    }
}

// The four numbers of the settings line. No `TryFrom`, as above. One function for any count of numbers would need a
// loop that picks the last byte.
pub(crate) fn settings(line: Line<'_>) -> Option<Settings>
    ensures { result ≡ settings_of line.entry.text.now }
{
    let mut fields = Fields::of(line);
    let boards = fields.value(b' ')?;
    let cells = fields.value(b' ')?;
    let entries = fields.value(b' ')?;
    let credit = fields.value(b'\n')?;
    Some(Settings {
        boards,
        cells,
        entries,
        credit,
    })
}
