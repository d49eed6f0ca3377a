// Settings that were found in their ranges. What the type keeps of that is what set-up's sums and casts need.
ghost use Rattle.boards.specs.Shapes.{InRange};

use theory::state::Settings;

mod check;

#[derive(Clone, Copy, PartialEq, Eq, Debug)]
pub struct RangedSettings {
    pub settings: Settings,
    ghost in_range: { InRange settings },
}
