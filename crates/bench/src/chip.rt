ghost use Rattle.bench.specs.Keeps.{Whole};

use crate::held::Held;

// A chip in a place that the caller holds: its record, with the facts that every chip keeps. Its tick number is at most 2^48, its
// prescaler below 2,048, its buzzer's count below 64, it owes at most 16 ticks, and stretches of each chart are counted exactly
// when its tick number is above 0.
#[derive(Clone, Copy)]
pub struct Chip {
    pub held: Held,
    ghost whole: { Whole held },
}
