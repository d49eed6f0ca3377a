// A pack with no board yet, and its set-up.
ghost use Rattle.std.specs.Prelude.{◌≡◌, length, OnErr};
ghost use Rattle.theory.specs.SetUp.{blank, set_up};
ghost use Rattle.boards.specs.Models.{cells_lent, entries_lent};
ghost use Rattle.pack.specs.Shown.{state, memory};

use super::Pack;
use boards::inner::Core;
use boards::memory::Memory;
use boards::ranged::RangedSettings;
use tally::Tally;
use theory::fault::PackFault;
use theory::state::Settings;
use wire::Wire;

impl<'a, W: Wire, T: Tally> Pack<'a, W, T> {
    // No board yet: every call is refused until set_up.
    pub fn over(brought: Memory<'a>, wire: W, tally: T) -> Pack<'a, W, T>
        ensures state { state W.means result ≡ blank (W.means wire) }
        ensures holds_what_it_was_given { (cells_lent result.core ≡ brought.entry.cells.now) × (entries_lent result.core ≡ brought.entry.entries.now) × (result.core.wire ≡ wire) × (result.tally ≡ tally) }
        ensures memory { memory result ≡ record { cells = length brought.entry.cells.now; entries = length brought.entry.entries.now; free = length brought.entry.free.now; held = length brought.entry.held.now } }
    {
        Pack {
            core: Core::over(brought, wire),
            tally,
        }
    }

    // Sets the pack up with nothing in it, or refuses and leaves memory and wire as they were.
    pub fn set_up(&mut self, settings: Settings) -> Result<(), PackFault>
        ensures does_its_step { (state W.means self.new, result) ≡ set_up (memory self.old) settings (state W.means self.old) }
        ensures keeps_its_memory { memory self.new ≡ memory self.old }
        ensures refused_leaves_all_as_it_was { OnErr result (self.new ≡ self.old) }
    {
        let ranged = RangedSettings::try_from(settings)?;
        self.core.check_memory(settings)?;
        self.core.check_wire(ranged)?;
        self.core.start(ranged);
        Ok(())
    }

    // What the pack was set up with, or zeros.
    pub fn settings(&self) -> Settings
        ensures { result ≡ (state W.means self.now).settings }
    {
        self.core.settings
    }
}
