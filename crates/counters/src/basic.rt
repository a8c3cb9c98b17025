ghost use Rattle.std.specs.Prelude.{◌≡◌};
ghost use Rattle.counters.specs.Basic.{basic, basic_shift, basic_ticked, basic_moved, basic_still, basic_set, watchdog_set};
ghost use Rattle.counters.specs.Quiet.{Longest, BasicQuiet};

use crate::count::counted;
use crate::divider::Divider;
use crate::mode::is_awake;
use recorder::mode::Mode;

// CKCTLR without BTCL, BITR, WDTR without WDTCL, and the watchdog's count.
#[derive(Clone, Copy, PartialEq, Eq, Debug)]
pub struct BasicTimer {
    pub control: u8,
    pub bitr: u8,
    pub wdtr: u8,
    pub watchdog: u8,
}

// What a tick did: whether BITR passed FF, and whether the watchdog, which that steps, was at its limit.
#[derive(Clone, Copy, PartialEq, Eq, Debug)]
pub struct Passing {
    pub passed: bool,
    pub watchdog: bool,
}

// The bits of CKCTLR that are kept, and the one that clears BITR.
const KEPT: u8 = 0x77;

const BTCL: u8 = 0x08;

// The bit of WDTR that clears the watchdog's count.
const WDTCL: u8 = 0x80;

impl BasicTimer {
    // As after a reset: CKCTLR 17, WDTR 7F, and counts of 0.
    pub fn new() -> BasicTimer
        ensures { result ≡ basic 0x17 0 0x7f 0 }
    {
        BasicTimer {
            control: 0x17,
            bitr: 0,
            wdtr: 0x7f,
            watchdog: 0,
        }
    }

    // Writes CKCTLR. BTCL clears BITR.
    pub fn set_control(&mut self, v: u8)
        ensures { self.new ≡ basic_set v self.old }
    {
        self.control = v & KEPT;
        if v & BTCL == BTCL {
            self.bitr = 0;
        }
    }

    // Writes WDTR. WDTCL clears the watchdog's count.
    pub fn set_watchdog(&mut self, v: u8)
        ensures { self.new ≡ watchdog_set v self.old }
    {
        self.wdtr = v % 128;
        if v & WDTCL == WDTCL {
            self.watchdog = 0;
        }
    }

    // The divider, 8 × 2^BTS.
    fn divider(&self) -> Divider
        ensures { result ≡ basic_shift self.now }
    {
        Divider::new(3 + self.control % 8)
    }

    // One tick, at the prescaler that it has reached.
    pub fn tick(&mut self, mode: Mode, prescaler: u16) -> Passing
        ensures { (self.new, result) ≡ basic_ticked mode prescaler self.old }
    {
        let on = is_awake(mode) && self.divider().is_pulse(prescaler);
        let passed = on && self.bitr == 0xff;
        let watchdog = passed && self.watchdog == self.wdtr % 128;
        if on {
            self.bitr = self.bitr.wrapping_add(1);
        }
        if passed {
            self.watchdog = counted::<128>(self.wdtr % 128, self.watchdog);
        }
        Passing { passed, watchdog }
    }

    // `ticks` ticks in which BITR does not pass FF, from the prescaler before them.
    pub fn run_on(&mut self, mode: Mode, prescaler: u16, ticks: u64)
        ensures { self.new ≡ basic_moved mode prescaler ticks self.old }
    {
        if is_awake(mode) {
            self.bitr = self.divider().run_on::<256>(prescaler, ticks, self.bitr);
        }
    }

    // The ticks before BITR passes FF, from the prescaler before them. None where nothing bounds them.
    pub fn still(&self, mode: Mode, prescaler: u16) -> Option<u64>
        ensures value { result ≡ basic_still mode prescaler self.now }
        ensures longest { Longest result (BasicQuiet mode prescaler self.now) }
        ensures starts { basic_moved mode prescaler 0 self.now ≡ self.now }
    {
        if !is_awake(mode) {
            return None;
        }
        Some(self.divider().still_for::<256>(prescaler, 0xff, self.bitr))
    }
}
