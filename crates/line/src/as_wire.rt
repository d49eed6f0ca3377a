// A line is a wire: what waits on a pair are its letters, in the order of sending.
ghost use Rattle.line.specs.WireStates.{wire_state};
ghost use Rattle.line.specs.Propers.{proper_line};

use crate::Line;
use theory::fault::WireFault;
use theory::message::{Message, Pair};
use wire::Wire;

impl Wire for Line<'_> {
    ghost means = { wire_state };

    fn boards(&self) -> u32 {
        self.boards
    }

    fn capacity(&self) -> usize {
        self.letters.room()
    }

    fn len(&self, pair: Pair) -> usize {
        self.letters.count(pair)
    }

    fn total(&self) -> usize {
        self.letters.len()
    }

    fn send(&mut self, pair: Pair, message: Message) -> Result<(), WireFault> {
        if !pair.is_below(self.boards) {
            return Err(WireFault::NoPair);
        }
        if self.letters.len() == self.letters.room() {
            return Err(WireFault::Full);
        }
        self.letters.push(pair, message);
        Ok(())
    }

    fn take(&mut self, pair: Pair) -> Result<Message, WireFault> {
        if !pair.is_below(self.boards) {
            return Err(WireFault::NoPair);
        }
        let Some(at) = self.letters.find(pair) else {
            return Err(WireFault::Empty);
        };
        Ok(self.letters.remove(at))
    }

    ghost proper = { proper_line };
}
