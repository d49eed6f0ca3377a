// Messages that join a chain or leave it, with a place from the free ones or to them.
ghost use Rattle.std.specs.Prelude.{◌≡◌, ◌<◌};
ghost use Rattle.chains.specs.Changes.{Loose, Detached, Attached, Pushed, Popped};
ghost use Rattle.chains.specs.Linkages.{len_of, places};
ghost use Rattle.chains.specs.Tables.{linkage};

use super::{Chain, FREE, Table};
use theory::message::Message;

impl Table<'_> {
    // Takes the first place out of a chain, and says which it was.
    fn detach(&mut self, i: usize) -> usize
        requires chain { i < 257 }
        requires some { 0 < len_of (linkage self.old) i }
        ensures { Detached (linkage self.old) (linkage self.new) i result }
    {
        let chain = self.chains[i];
        let place = chain.first;
        let first = self.links[place].next;
        // each field by name, here and below, so that what stays can be read beside what changes
        self.chains[i] = Chain {
            first,
            last: chain.last,
            len: chain.len - 1,
        };
        place
    }

    // Puts a message at a place that is in no chain, and that place at the end of a chain.
    fn attach(&mut self, i: usize, place: usize, message: Message)
        requires chain { i < 257 }
        requires loose { Loose (linkage self.old) place }
        requires room { len_of (linkage self.old) i < places (linkage self.old) }
        ensures { Attached (linkage self.old) (linkage self.new) i message }
    {
        let chain = self.chains[i];
        self.links[place].message = message;
        if chain.len == 0 {
            self.chains[i] = Chain {
                first: place,
                last: place,
                len: 1,
            };
            return;
        }
        self.links[chain.last].next = place;
        self.chains[i] = Chain {
            first: chain.first,
            last: place,
            len: chain.len + 1,
        };
    }

    // Puts a message at the end of a pair's chain, at a free place.
    pub(crate) fn push(&mut self, chain: u8, message: Message)
        requires free { 0 < len_of (linkage self.old) 256 }
        requires room { len_of (linkage self.old) chain < places (linkage self.old) }
        ensures { Pushed (linkage self.old) (linkage self.new) chain message }
    {
        let place = self.detach(FREE);
        self.attach(chain as usize, place, message);
    }

    // Takes the first message off a pair's chain, and frees its place, which keeps a copy that nothing reads.
    pub(crate) fn pop(&mut self, chain: u8) -> Message
        requires some { 0 < len_of (linkage self.old) chain }
        requires room { len_of (linkage self.old) 256 < places (linkage self.old) }
        ensures { Popped (linkage self.old) (linkage self.new) chain result }
    {
        let place = self.detach(chain as usize);
        let message = self.links[place].message;
        self.attach(FREE, place, message);
        message
    }
}
