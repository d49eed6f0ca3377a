// The memory and the wire that were brought, and every board's set-up.
ghost use Rattle.std.specs.Prelude.{◌≡◌, length, OnOk};
ghost use Rattle.theory.specs.SetUp.{blank, started, memory_enough, wire_enough};
ghost use Rattle.boards.specs.Models.{model, brought, cells_lent, entries_lent, Enough};

use super::Core;
use crate::memory::Memory;
use crate::numbering::number_all;
use crate::ranged::RangedSettings;
use crate::registers::fresh_registers;
use queue::queues::Queues;
use theory::fault::PackFault;
use theory::memory::{Cell, Entry};
use theory::state::{Figures, Lead, Settings};
use wire::Wire;

impl<'a, W: Wire> Core<'a, W> {
    // No board yet.
    pub fn over(memory: Memory<'a>, wire: W) -> Core<'a, W>
        ensures state { model W.means result ≡ blank (W.means wire) }
        ensures cells { cells_lent result ≡ memory.entry.cells.now }
        ensures entries { entries_lent result ≡ memory.entry.entries.now }
        ensures wire { result.wire ≡ wire }
        ensures brought { brought result ≡ record { cells = length memory.entry.cells.now; entries = length memory.entry.entries.now; free = length memory.entry.free.now; held = length memory.entry.held.now } }
    {
        Core {
            cells: memory.cells,
            entries: memory.entries,
            free: Queues::over(memory.free),
            held: Queues::over(memory.held),
            registers: fresh_registers(0, 0),
            settings: Settings::default(),
            lead: Lead::default(),
            result: Figures::default(),
            wire,
        }
    }

    // Whether the memory that was brought is enough.
    pub fn check_memory(&self, t: Settings) -> Result<(), PackFault>
        ensures answer { result ≡ memory_enough (brought self.now) t }
        ensures enough { OnOk result (Enough (brought self.now) t) }
    {
        let boards = u64::from(t.boards);
        if (self.cells.len() as u64) < boards * u64::from(t.cells) {
            return Err(PackFault::Memory);
        }
        let entries = boards * u64::from(t.entries);
        if (self.entries.len() as u64) < entries {
            return Err(PackFault::Memory);
        }
        if (self.free.places() as u64) < entries {
            return Err(PackFault::Memory);
        }
        if (self.held.places() as u64) < boards * boards {
            return Err(PackFault::Memory);
        }
        Ok(())
    }

    // Whether the wire is enough, and carries nothing yet.
    pub fn check_wire(&self, ranged: RangedSettings) -> Result<(), PackFault>
        ensures { result ≡ wire_enough (W.means self.now.wire) ranged.settings }
    {
        let t = ranged.settings;
        if self.wire.boards() < t.boards {
            return Err(PackFault::SmallWire);
        }
        let needed = t.boards * (t.credit + 1) + (t.boards - 1) * (t.boards + 3);
        if self.wire.capacity() < needed as usize {
            return Err(PackFault::SmallWire);
        }
        if self.wire.total() > 0 {
            return Err(PackFault::BusyWire);
        }
        Ok(())
    }

    // Sets every board up with nothing on it.
    pub fn start(&mut self, ranged: RangedSettings)
        requires { Enough (brought self.old) ranged.settings }
        ensures after { model W.means self.new ≡ started ranged.settings (model W.means self.old) }
        ensures brought { brought self.new ≡ brought self.old }
    {
        let t = ranged.settings;
        self.cells.fill(Cell::Value(0));
        self.entries.fill(Entry::FREE);
        number_all(&mut self.free, t.boards as usize, t.entries as u16);
        let _ = self.held.lay_out(t.boards as usize, t.boards as usize);
        self.registers = fresh_registers(t.credit, t.credit * t.boards);
        self.settings = t;
        self.lead = Lead::default();
        self.result = Figures::default();
    }
}
