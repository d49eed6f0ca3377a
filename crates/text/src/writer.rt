ghost use Rattle.std.specs.Prelude.{◌≡◌, ◌≤◌, [], ◌∷◌, length, decimal};

use itoa::Buffer;

// A text that grows in a lent place, since the libraries use no heap. What finds no room is dropped.
#[derive(Drop)]
pub struct Writer<'a> {
    place: &'a mut [u8],
    len: usize,
    ghost ok: { len ≤ length place.now },
}

impl<'a> Writer<'a> {
    // In here, since the ghost field imports every `ghost use` of the file, and these name the struct.
    ghost use Rattle.text.specs.Written.{Wrote, written, room, behind, lender};

    // A writer that has written nothing yet.
    pub fn over(place: &'a mut [u8]) -> Writer<'a>
        ensures empty { written result ≡ [] }
        ensures room { room result ≡ length place.old }
        ensures behind { behind 0 result ≡ place.old }
        ensures lent { lender result ≡ place.entry.ghost_name }
    {
        Writer { place, len: 0 }
    }

    // How many bytes are written.
    pub fn len(&self) -> usize
        ensures { result ≡ length (written self.now) }
    {
        self.len
    }

    // Adds one byte, if there is room.
    pub fn byte(&mut self, b: u8)
        ensures { Wrote self.old self.new (b ∷ []) }
    {
        // no call of `text`, whose copy costs more than the one byte
        if self.len < self.place.len() {
            self.place[self.len] = b;
            self.len += 1;
        }
    }

    // Adds a text, as far as there is room.
    pub fn text(&mut self, bytes: &[u8])
        ensures { Wrote self.old self.new bytes.now }
    {
        let n = (self.place.len() - self.len).min(bytes.len());
        self.place[self.len..self.len + n].copy_from_slice(&bytes[..n]);
        self.len += n;
    }

    // The number in decimal.
    pub fn number(&mut self, n: u64)
        ensures { Wrote self.old self.new (decimal n) }
    {
        self.text(Buffer::new().format(n).as_bytes());
    }
}
