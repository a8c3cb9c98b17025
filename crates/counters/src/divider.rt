ghost use Rattle.std.specs.Prelude.{◌≡◌, ◌<◌, ◌≤◌, ◌%◌, ◌^◌, ◌==◌};
ghost use Rattle.counters.specs.Counting.{pulse, pulses_in, before_pulse, run_on, still_for};

use crate::count::gap;
use std::marker::Model;

// A divider of the prescaler, 1 to 2048: 2^shift. Contracts see the shift.
#[derive(Clone, Copy, PartialEq, Eq, Debug)]
pub struct Divider {
    shift: u8,
}

impl Model for Divider {
    ghost use Rattle.std.specs.Prelude.{ℕ, ◌≤◌};

    ghost Value = { ℕ };

    ghost view = { λ d. d.shift };

    ghost invariant = { λ d. d.shift ≤ 11 };

    ghost inverse = { λ s. record { shift = s } };
}

impl Divider {
    // The divider 2^shift.
    pub(crate) fn new(shift: u8) -> Divider
        requires { shift ≤ 11 }
        ensures { result ≡ shift }
    {
        Divider { shift }
    }

    // Whether it is 2048.
    pub(crate) fn is_longest(self) -> bool
        ensures { result ≡ (self == 11) }
    {
        self.shift == 11
    }

    // What is left of a number after whole dividers.
    fn rest(self, n: u64) -> u64
        ensures value { result ≡ n % 2 ^ self }
        ensures small { self ≤ 11 }
    {
        n & ((1 << self.shift) - 1)
    }

    // Whether it pulses at a prescaler.
    pub(crate) fn is_pulse(self, prescaler: u16) -> bool
        ensures { result ≡ pulse self prescaler }
    {
        self.rest(prescaler as u64) == 0
    }

    // Its pulses in the `ticks` ticks after a prescaler.
    fn pulses_in(self, prescaler: u16, ticks: u64) -> u64
        ensures { result ≡ pulses_in self prescaler ticks }
    {
        let rests = self.rest(prescaler as u64) + self.rest(ticks);
        (ticks >> self.shift) + (rests >> self.shift)
    }

    // The ticks before its pulse that follows `gap` others.
    fn ticks_before(self, prescaler: u16, gap: u8) -> u64
        ensures value { result ≡ before_pulse self prescaler gap }
        ensures small { self ≤ 11 }
    {
        let begun = prescaler as u64 >> self.shift;
        ((begun + gap as u64 + 1) << self.shift) - prescaler as u64 - 1
    }

    // A count modulo M after `ticks` ticks without a match.
    pub(crate) fn run_on<const M: u16>(self, prescaler: u16, ticks: u64, count: u8) -> u8
        requires some { 0 < M }
        requires byte { M ≤ 256 }
        ensures { result ≡ run_on M self prescaler ticks count }
    {
        let pulses = (self.pulses_in(prescaler, ticks) % M as u64) as u16;
        ((count as u16 + pulses) % M) as u8
    }

    // The ticks before a count modulo M matches its limit.
    pub(crate) fn still_for<const M: u16>(self, prescaler: u16, limit: u8, count: u8) -> u64
        requires some { 0 < M }
        requires byte { M ≤ 256 }
        ensures value { result ≡ still_for M self prescaler limit count }
        ensures small { self ≤ 11 }
    {
        self.ticks_before(prescaler, gap::<M>(limit, count))
    }
}
