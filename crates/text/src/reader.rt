ghost use Rattle.std.specs.Prelude.{◌≡◌, ◌+◌, ◌^◌, ◌<◌, length, MatchOption};

// A line of the input, with its newline where it has one. Lines count from 1.
#[derive(Clone, Copy, PartialEq, Eq, Debug)]
pub struct Line<'a> {
    pub text: &'a [u8],
    pub number: usize,
}

// Goes through the lines of a text. Each line takes a byte at least, so their count fits. No `Iterator`, whose
// members could not say what `next_line` says of the bytes and the number.
#[derive(Drop)]
pub struct Reader<'a> {
    rest: &'a [u8],
    line: usize,
    ghost fits: { line + length rest.now < 2 ^ 64 },
}

impl<'a> Reader<'a> {
    // In here, since the ghost field imports every `ghost use` of the file, and these name the struct.
    ghost use Rattle.text.specs.Left.{Ended, Gives, given, left};

    // A reader that stands before the first line.
    pub fn over(input: &'a [u8]) -> Reader<'a>
        ensures left { left result ≡ input.now }
        ensures given { given result ≡ 0 }
    {
        Reader {
            rest: input,
            line: 0,
        }
    }

    // The next line, or none where nothing is left. All lines together take one walk over the input.
    pub fn next_line(&mut self) -> Option<Line<'a>>
        ensures { MatchOption result (Ended self.old self.new) (Gives self.old self.new) }
    {
        let text = self.rest.split_inclusive(|&b| b == b'\n').next()?;
        self.rest = &self.rest[text.len()..];
        self.line += 1;
        Some(Line {
            text,
            number: self.line,
        })
    }
}
