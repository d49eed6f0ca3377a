// The table's places in chains, by number.
ghost use Rattle.chains.specs.Linkages.{Linked, linkage_of};

use crate::Link;

mod change;
mod clear;
mod read;

// The first and the last place of a chain, and how many it has. The memory is one lent table, so places are
// numbers; those of an empty chain are never followed, so they need no Option.
#[derive(Clone, Copy, Default)]
pub(crate) struct Chain {
    first: usize,
    last: usize,
    len: usize,
}

// The chain of the free places, behind those of the pairs of 16 boards: a number as theirs, so that the same
// functions move places to it and from it.
const FREE: usize = 16 * 16;

const CHAINS: usize = FREE + 1;

// Chain 16 * from + to is that of a pair of boards. No place is twice in a chain or in two, each is one of the
// table's, and each chain knows its last. The memory is lent and nothing is allocated, so places are linked by number.
#[derive(Drop)]
pub(crate) struct Table<'a> {
    links: &'a mut [Link],
    chains: [Chain; CHAINS],
    ghost linked: { Linked (linkage_of links.now chains) },
}
