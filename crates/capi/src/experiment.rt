ghost use Rattle.std.specs.Prelude.{◌≡◌, ◌+◌, ◌≤◌, length, IfErr};
ghost use Rattle.std.specs.Result.{result_ok};
ghost use Rattle.capi.specs.Describing.{wiring_of, wave_at, sizes_of, fits, numbers_of, described, asked_at};

use crate::bytes::{double_at, quad_at, word_at};
use crate::refusal::Refusal;
use bench::calls::RAM;
use bench::held::{Call, Way};
use bench::run::IMAGE;

// The most places of a chart, and the most pulses.
pub(crate) const PLACES: usize = 2048;

pub(crate) const PULSES: usize = 4096;

// Where the numbers stand, behind image and RAM.
const WIRING: usize = IMAGE + RAM;

const STEADY: usize = WIRING + 2;

const PULSE_WORD: usize = STEADY + 2;

const FIRST_WAVE: usize = PULSE_WORD + 2;

const SECOND_WAVE: usize = FIRST_WAVE + 10;

const SIZES: usize = SECOND_WAVE + 10;

// Where the pulses stand, behind the numbers.
pub(crate) const BODY: usize = SIZES + 8;

// The bytes of a pulse and of a call.
pub(crate) const PULSE: usize = 16;

pub(crate) const CALL: usize = 10;

// Which hosts are wired to the pins.
#[derive(Clone, Copy, PartialEq, Eq, Debug)]
pub enum Wiring {
    Steady,
    Pulses,
    Wave,
    PulsesAndWave,
    All,
}

impl TryFrom<u16> for Wiring {
    type Error = Refusal;

    ghost use Rattle.capi.specs.declared.refusal.Refusal.TheVariants.{BadDescription};

    ghost try_from_gives = { λ n r. (wiring_of n ≡ result_ok r) × IfErr r (λ e. e ≡ BadDescription) };

    fn try_from(number: u16) -> Result<Wiring, Refusal> {
        match number {
            0 => Ok(Wiring::Steady),
            1 => Ok(Wiring::Pulses),
            2 => Ok(Wiring::Wave),
            3 => Ok(Wiring::PulsesAndWave),
            4 => Ok(Wiring::All),
            _ => Err(Refusal::BadDescription),
        }
    }
}

// A run call, and whether its image lacks the last byte.
#[derive(Clone, Copy, PartialEq, Eq, Debug)]
pub struct Asked {
    pub call: Call,
    pub short: bool,
}

impl Asked {
    pub(crate) fn at(bytes: &[u8], at: usize) -> Asked
        requires { at + 10 ≤ length bytes.now }
        ensures { result ≡ asked_at bytes.now at }
    {
        let way = if bytes[at] != 0 {
            Way::Leaps
        } else {
            Way::Ticks
        };
        Asked {
            call: Call {
                way,
                grant: quad_at(bytes, at + 2),
            },
            short: bytes[at + 1] != 0,
        }
    }
}

// The numbers of a square wave, in four bytes each where a text has any below 2^64.
#[derive(Clone, Copy, PartialEq, Eq, Debug)]
pub struct Wave {
    pub word: u16,
    pub low: u32,
    pub high: u32,
}

impl Wave {
    fn at(bytes: &[u8], at: usize) -> Wave
        requires { at + 10 ≤ length bytes.now }
        ensures { result ≡ wave_at bytes.now at }
    {
        Wave {
            word: word_at(bytes, at),
            low: double_at(bytes, at + 2),
            high: double_at(bytes, at + 6),
        }
    }
}

// How many places the charts have, and how many pulses and calls follow.
#[derive(Clone, Copy, PartialEq, Eq, Debug)]
pub struct Sizes {
    pub pins: u16,
    pub modes: u16,
    pub pulses: u16,
    pub calls: u16,
}

impl Sizes {
    fn of(bytes: &[u8]) -> Sizes
        requires { 2210 ≤ length bytes.now }
        ensures { result ≡ sizes_of bytes.now }
    {
        Sizes {
            pins: word_at(bytes, SIZES),
            modes: word_at(bytes, SIZES + 2),
            pulses: word_at(bytes, SIZES + 4),
            calls: word_at(bytes, SIZES + 6),
        }
    }

    // Whether the charts and the pulses are not too many, and there are just the bytes that are needed.
    fn fit(self, bytes: usize) -> bool
        ensures { result ≡ fits self bytes }
    {
        self.pins as usize <= PLACES
            && self.modes as usize <= PLACES
            && self.pulses as usize <= PULSES
            && bytes == BODY + PULSE * self.pulses as usize + CALL * self.calls as usize
    }
}

// What a description says before its pulses and calls.
#[derive(Clone, Copy, PartialEq, Eq, Debug)]
pub struct Experiment {
    pub wiring: Wiring,
    pub steady: u16,
    pub pulses: u16,
    pub first: Wave,
    pub second: Wave,
    pub sizes: Sizes,
}

impl Experiment {
    // The experiment of this wiring and the other numbers of a description.
    fn of(bytes: &[u8], wiring: Wiring) -> Experiment
        requires { 2210 ≤ length bytes.now }
        ensures { result ≡ numbers_of bytes.now wiring }
    {
        Experiment {
            wiring,
            steady: word_at(bytes, STEADY),
            pulses: word_at(bytes, PULSE_WORD),
            first: Wave::at(bytes, FIRST_WAVE),
            second: Wave::at(bytes, SECOND_WAVE),
            sizes: Sizes::of(bytes),
        }
    }

    // What a description says, if it is a good one.
    pub(crate) fn read(bytes: &[u8]) -> Result<Experiment, Refusal>
        ensures value { described bytes.now ≡ result_ok result }
        ensures refusal { IfErr result (λ e. e ≡ Refusal.BadDescription) }
    {
        if bytes.len() < BODY || !Sizes::of(bytes).fit(bytes.len()) {
            return Err(Refusal::BadDescription);
        }
        let wiring = Wiring::try_from(word_at(bytes, WIRING))?;
        Ok(Experiment::of(bytes, wiring))
    }
}
