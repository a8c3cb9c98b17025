ghost use Rattle.std.specs.Prelude.{◌≡◌, ◌<◌};
ghost use Rattle.counters.specs.Buzzers.{buzzer_shift, buzzer_ticked, buzzer_moved, buzzer_still, buzzer_set};
ghost use Rattle.counters.specs.Quiet.{Longest, BuzzerQuiet};

use crate::count::counted;
use crate::divider::Divider;
use crate::mode::is_awake;
use recorder::mode::Mode;

// BUR, the buzzer's count and its level.
#[derive(Clone, Copy, PartialEq, Eq, Debug)]
pub struct Buzzer {
    pub bur: u8,
    pub count: u8,
    pub level: bool,
}

impl Buzzer {
    // The buzzer after a write of BUR, which clears its count and level; a reset writes FF.
    pub fn new(bur: u8) -> Buzzer
        ensures { result ≡ buzzer_set bur }
    {
        Buzzer {
            bur,
            count: 0,
            level: false,
        }
    }

    // The divider, 8 × 2^BUCK.
    fn divider(&self) -> Divider
        ensures { result ≡ buzzer_shift self.now }
    {
        Divider::new(3 + (self.bur >> 6))
    }

    // One tick, at the prescaler that it has reached.
    pub fn tick(&mut self, mode: Mode, prescaler: u16)
        ensures { self.new ≡ buzzer_ticked mode prescaler self.old }
    {
        if !is_awake(mode) || !self.divider().is_pulse(prescaler) {
            return;
        }
        let limit = self.bur % 64;
        if self.count == limit {
            self.level = !self.level;
        }
        self.count = counted::<64>(limit, self.count);
    }

    // `ticks` ticks without a match, from the prescaler before them.
    pub fn run_on(&mut self, mode: Mode, prescaler: u16, ticks: u64)
        ensures { self.new ≡ buzzer_moved mode prescaler ticks self.old }
    {
        if is_awake(mode) {
            self.count = self.divider().run_on::<64>(prescaler, ticks, self.count);
        }
    }

    // The ticks before the level turns, from the prescaler before them. None where nothing bounds them.
    pub fn still(&self, mode: Mode, prescaler: u16) -> Option<u64>
        ensures value { result ≡ buzzer_still mode prescaler self.now }
        ensures longest { self.now.count < 64 → Longest result (BuzzerQuiet mode prescaler self.now) }
        ensures starts { self.now.count < 64 → buzzer_moved mode prescaler 0 self.now ≡ self.now }
    {
        if !is_awake(mode) {
            return None;
        }
        let limit = self.bur % 64;
        Some(self.divider().still_for::<64>(prescaler, limit, self.count))
    }
}
