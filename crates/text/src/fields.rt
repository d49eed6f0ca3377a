ghost use Rattle.std.specs.Prelude.{◌≡◌, ℕ, ◌+◌, ◌<◌, ◌≤◌, true, false, length, Some, None, MatchOption, slice_index};
ghost use Rattle.text.specs.Values.{ends, field, value, numeral};
ghost use Rattle.text.specs.Rest.{rest, at_line};

use crate::reader::Line;

// The most digits that a number is written with.
const MOST_DIGITS: usize = 10;

// A part of a line, before the space or the newline that ends it.
#[derive(Clone, Copy, PartialEq, Eq, Debug)]
pub struct Field<'a> {
    pub text: &'a [u8],
    pub line: usize,
}

// Goes through the fields of a line.
#[derive(Clone, Copy)]
pub struct Fields<'a> {
    tail: &'a [u8],
    line: usize,
}

// Where the first field ends: at the first space or newline, or else at the end of the text.
fn field_len(bytes: &[u8]) -> usize
    ensures within { result ≤ length bytes.now }
    ensures inside { (k : ℕ) → k < result → ends (slice_index bytes.now k) ≡ false }
    ensures ended { result < length bytes.now → ends (slice_index bytes.now result) ≡ true }
{
    bytes
        .iter()
        .position(|&b| b == b' ' || b == b'\n')
        .unwrap_or(bytes.len())
}

// The number that the digits write, if they are few enough and it fits.
fn parse(digits: &[u8]) -> Option<u32>
    ensures { result ≡ numeral digits.now }
{
    if digits.is_empty() || digits.len() > MOST_DIGITS {
        return None;
    }
    // in one walk: the library's `parse` wants a `str`, whose test and the one for a sign would be a walk each
    let mut n: u64 = 0;
    for b in digits {
        if !b.is_ascii_digit() {
            return None;
        }
        n = n * 10 + u64::from(*b - b'0');
    }
    u32::try_from(n).ok()
}

impl Field<'_> {
    // The number that the field writes in decimal.
    pub fn number(self) -> Option<u32>
        ensures { result ≡ numeral self.entry.text.now }
    {
        parse(self.text)
    }
}

impl<'a> Fields<'a> {
    // The fields of this line, from its start.
    pub fn of(line: Line<'a>) -> Fields<'a>
        ensures rest { rest result ≡ line.entry.text.now }
        ensures line { at_line result ≡ line.entry.number }
    {
        Fields {
            tail: line.text,
            line: line.number,
        }
    }

    // The next field, if it ends with this byte. Otherwise nothing is passed over.
    pub fn next(&mut self, end: u8) -> Option<Field<'a>>
        ensures line { at_line self.new ≡ at_line self.old }
        ensures cases { MatchOption result
            ((field end (rest self.old) ≡ None) × (self.new ≡ self.old))
            (λ f. (field end (rest self.old) ≡ Some (f.text.now, rest self.new)) × (f.line ≡ at_line self.old)) }
    {
        let (text, after) = self.tail.split_at(field_len(self.tail));
        let rest = after.strip_prefix(&[end])?;
        self.tail = rest;
        Some(Field {
            text,
            line: self.line,
        })
    }

    // The number in the next field, if it ends with this byte. Otherwise nothing is passed over.
    pub fn value(&mut self, end: u8) -> Option<u32>
        ensures line { at_line self.new ≡ at_line self.old }
        ensures cases { MatchOption result
            ((value end (rest self.old) ≡ None) × (self.new ≡ self.old))
            (λ n. value end (rest self.old) ≡ Some (n, rest self.new)) }
    {
        let mut after = *self;
        let number = after.next(end)?.number()?;
        *self = after;
        Some(number)
    }
}
