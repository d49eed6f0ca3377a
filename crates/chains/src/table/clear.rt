// A table whose places are all free.
ghost use Rattle.std.specs.Prelude.{◌≡◌, ℕ, ◌+◌, ◌<◌, length};
ghost use Rattle.chains.specs.Changes.{Cleared};
ghost use Rattle.chains.specs.Linkages.{Linked, linkage_of, next_in, places};
ghost use Rattle.chains.specs.Tables.{linkage};

use super::{CHAINS, Chain, FREE, Table};
use crate::Link;

// Lets each place be followed by the next.
fn link_in_order(links: &mut [Link])
    ensures places { length links.new ≡ length links.old }
    ensures in_order { (k : ℕ) → k < length links.new → next_in links.new k ≡ k + 1 }
{
    for (i, link) in links.iter_mut().enumerate() {
        link.next = i + 1;
    }
}

// Takes every place out of its chain, and puts them all into that of the free places.
fn all_free(links: &mut [Link]) -> [Chain; CHAINS]
    ensures linked { Linked (linkage_of links.new result) }
    ensures cleared { Cleared (length links.old) (linkage_of links.new result) }
{
    let count = links.len();
    link_in_order(links);
    let mut chains = [Chain::default(); CHAINS];
    chains[FREE] = Chain {
        first: 0,
        last: count.saturating_sub(1),
        len: count,
    };
    chains
}

impl<'a> Table<'a> {
    pub(crate) fn over(links: &'a mut [Link]) -> Table<'a>
        ensures { Cleared (length links.old) (linkage result) }
    {
        let chains = all_free(links);
        Table { links, chains }
    }
}

impl Table<'_> {
    pub(crate) fn clear(&mut self)
        ensures { Cleared (places (linkage self.old)) (linkage self.new) }
    {
        self.chains = all_free(self.links);
    }
}
