// Up to 16 boards over lent slices, and the wire between them: board b has the cells from
// b * settings.cells on, and the entries from b * settings.entries on. The slices are lent, each with a length of its
// own, and sixteen registers are there whatever the boards, since nothing is allocated.
ghost use Rattle.boards.specs.Shapes.{Ranged, Sized, Laid};

use crate::registers::Registers;
use queue::queues::Queues;
use theory::memory::{Cell, Entry};
use theory::message::Held;
use theory::state::{Figures, Lead, Settings};

mod change;
mod read;
mod start;

#[derive(Drop)]
pub struct Core<'a, W> {
    cells: &'a mut [Cell],
    entries: &'a mut [Entry],
    free: Queues<'a, u16>,
    held: Queues<'a, Held>,
    registers: [Registers; 16],
    pub settings: Settings,
    pub lead: Lead,
    pub result: Figures,
    pub wire: W,
    ghost ranged: { Ranged settings },
    ghost sized: { Sized settings registers cells.now entries.now },
    ghost laid: { Laid settings free held },
}
