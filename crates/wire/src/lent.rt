// A wire that is lent is a wire, so that a pack, or another wire, can be built on it without owning it.
use crate::Wire;
use crate::opening::Open;
use theory::fault::{PackFault, WireFault};
use theory::message::{Message, Pair};

impl<W: Wire> Wire for &mut W {
    ghost means = { λ w. W.Wire.means w.now };

    fn boards(&self) -> u32 {
        W::boards(*self)
    }

    fn capacity(&self) -> usize {
        W::capacity(*self)
    }

    fn len(&self, pair: Pair) -> usize {
        W::len(*self, pair)
    }

    fn total(&self) -> usize {
        W::total(*self)
    }

    fn send(&mut self, pair: Pair, message: Message) -> Result<(), WireFault> {
        W::send(*self, pair, message)
    }

    fn take(&mut self, pair: Pair) -> Result<Message, WireFault> {
        W::take(*self, pair)
    }

    ghost proper = { λ w. W.Wire.proper w.now };
}

impl<W: Open> Open for &mut W {
    fn open(&mut self, boards: u32) -> Result<(), PackFault> {
        W::open(*self, boards)
    }
}
