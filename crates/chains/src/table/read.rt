// How many places a table and its chains have.
ghost use Rattle.std.specs.Prelude.{◌≡◌};
ghost use Rattle.chains.specs.Linkages.{len_of, places};
ghost use Rattle.chains.specs.Tables.{linkage};

use super::{FREE, Table};

impl Table<'_> {
    // How many places there are.
    pub(crate) fn room(&self) -> usize
        ensures { result ≡ places (linkage self.now) }
    {
        self.links.len()
    }

    // How many places the chain of a pair has.
    pub(crate) fn len(&self, chain: u8) -> usize
        ensures { result ≡ len_of (linkage self.now) chain }
    {
        self.chains[chain as usize].len
    }

    // How many places are free.
    pub(crate) fn free(&self) -> usize
        ensures { result ≡ len_of (linkage self.now) 256 }
    {
        self.chains[FREE].len
    }
}
