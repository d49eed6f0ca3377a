// The chains as a wire.
ghost use Rattle.std.specs.Prelude.{◌≡◌, ◌+◌, ◌*◌, ◌<◌};
ghost use Rattle.chains.specs.Propers.{proper_chains};
ghost use Rattle.chains.specs.WireStates.{wire_state};

use crate::Chains;
use theory::fault::WireFault;
use theory::message::{Message, Pair};
use wire::Wire;

// The number of a pair's chain.
fn chain_of(pair: Pair) -> u8
    requires { (pair.from < 16) × (pair.to < 16) }
    ensures { result ≡ pair.from * 16 + pair.to }
{
    pair.from as u8 * 16 + pair.to as u8
}

impl Wire for Chains<'_> {
    ghost means = { wire_state };

    fn boards(&self) -> u32 {
        self.boards
    }

    fn capacity(&self) -> usize {
        self.table.room()
    }

    fn len(&self, pair: Pair) -> usize {
        if !pair.is_below(self.boards) {
            return 0;
        }
        self.table.len(chain_of(pair))
    }

    fn total(&self) -> usize {
        self.total
    }

    fn send(&mut self, pair: Pair, message: Message) -> Result<(), WireFault> {
        if !pair.is_below(self.boards) {
            return Err(WireFault::NoPair);
        }
        if self.table.free() == 0 {
            return Err(WireFault::Full);
        }
        self.table.push(chain_of(pair), message);
        self.total += 1;
        Ok(())
    }

    fn take(&mut self, pair: Pair) -> Result<Message, WireFault> {
        if !pair.is_below(self.boards) {
            return Err(WireFault::NoPair);
        }
        let chain = chain_of(pair);
        if self.table.len(chain) == 0 {
            return Err(WireFault::Empty);
        }
        let message = self.table.pop(chain);
        self.total -= 1;
        Ok(message)
    }

    ghost proper = { proper_chains };
}
