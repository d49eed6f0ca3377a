// Reading the letters pair by pair.
ghost use Rattle.std.specs.Prelude.{◌≡◌, length};
ghost use Rattle.std.specs.List.{position};
ghost use Rattle.line.specs.Letters.{for_pair, pick};
ghost use Rattle.line.specs.Kept.{kept, room};

use super::Letters;
use theory::message::Pair;

impl Letters<'_> {
    // Where a pair's first letter is.
    pub(crate) fn find(&self, pair: Pair) -> Option<usize>
        ensures { result ≡ position (for_pair pair.from pair.to) (kept self.now) }
    {
        self.places[..self.used]
            .iter()
            .position(|letter| letter.pair == pair)
    }

    // How many letters a pair has; that no sum wraps is proved. `filter` and `count` are a loop in a loop, and half as slow again.
    pub(crate) fn count(&self, pair: Pair) -> usize
        ensures { result ≡ length (pick pair.from pair.to (kept self.now)) }
    {
        self.places[..self.used].iter().fold(0, |n: usize, letter| {
            if letter.pair == pair {
                n.wrapping_add(1)
            } else {
                n
            }
        })
    }

    // How many letters there are.
    pub(crate) fn len(&self) -> usize
        ensures { result ≡ length (kept self.now) }
    {
        self.used
    }

    // How many letters there is room for.
    pub(crate) fn room(&self) -> usize
        ensures { result ≡ room self.now }
    {
        self.places.len()
    }
}
