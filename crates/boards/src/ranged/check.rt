ghost use Rattle.boards.specs.Checks.{Checks};

use super::RangedSettings;
use theory::fault::PackFault;
use theory::state::Settings;

impl TryFrom<Settings> for RangedSettings {
    type Error = PackFault;

    ghost try_from_gives = { Checks };

    fn try_from(t: Settings) -> Result<RangedSettings, PackFault> {
        if !(1..=16).contains(&t.boards)
            || !(2..=4096).contains(&t.cells)
            || !(1..=512).contains(&t.entries)
            || !(1..=64).contains(&t.credit)
        {
            return Err(PackFault::Setting);
        }
        Ok(RangedSettings { settings: t })
    }
}
