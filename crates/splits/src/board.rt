ghost use Rattle.std.specs.Prelude.{◌≡◌, vec_len};

use bench::chip::Chip;
use bench::held::{Call, Way};
use bench::run::Run;
use hosts::host::PinHost;
use recorder::lines::fault_number;
use recorder::mode::Mode;
use recorder::pin_sample::PinSample;
use recorder::stretch::Stretch;
use std::alloc::{AllocError, Global};
use std::fmt;

// How many places the two charts have.
#[derive(Clone, Copy)]
pub struct Places {
    pub pins: usize,
    pub modes: usize,
}

// One run call, made so many times.
#[derive(Clone, Copy)]
pub struct Plan {
    pub call: Call,
    pub times: u64,
}

// A chip with its charts, and what its runs answered: their ticks in all, and the fault of the last.
#[derive(Drop)]
pub struct Board {
    pub chip: Chip,
    pub pins: Vec<Stretch<PinSample>>,
    pub modes: Vec<Stretch<Mode>>,
    run: Run,
}

// What is in RAM at power-on, and in the places that no run has filled: what no run writes, and so no blank stretches.
const RAM: [u8; 128] = [0xa5; 128];

const NO_PINS: Stretch<PinSample> = Stretch {
    offset: 11,
    length: 12,
    sample: PinSample {
        levels: 0x1234,
        drive: 0x5678,
    },
};

const NO_MODE: Stretch<Mode> = Stretch {
    offset: 13,
    length: 14,
    sample: Mode::Stopped,
};

impl Board {
    // A chip that is just powered on. Where the image is refused, that is its fault.
    pub fn new(heap: Global, image: &[u8], places: Places) -> Result<Board, AllocError> {
        let mut chip = Chip::new();
        let fault = chip.power_on(image, RAM).err();
        Ok(Board {
            chip,
            pins: vec![in heap; NO_PINS; places.pins]?,
            modes: vec![in heap; NO_MODE; places.modes]?,
            run: Run { ticks: 0, fault },
        })
    }

    // The ticks that its runs answered in all.
    pub fn ran(&self) -> u64
        ensures { result ≡ self.now.run.ticks }
    {
        self.run.ticks
    }

    // All places of its charts.
    pub fn places(&self) -> Places
        ensures pins { result.pins ≡ vec_len self.now.pins }
        ensures modes { result.modes ≡ vec_len self.now.modes }
    {
        Places {
            pins: self.pins.len(),
            modes: self.modes.len(),
        }
    }

    // One run call, with no more than the first `places` of the charts.
    pub fn call<P: PinHost>(&mut self, call: Call, image: &[u8], host: &P, places: Places) -> Run {
        let pins = places.pins.min(self.pins.len());
        let modes = places.modes.min(self.modes.len());
        let pins = &mut self.pins.as_mut_slice()[..pins];
        let modes = &mut self.modes.as_mut_slice()[..modes];
        self.chip.run(image, host, call, pins, modes)
    }

    // One run call with the whole charts, whose answer is kept.
    pub fn run<P: PinHost>(&mut self, call: Call, image: &[u8], host: &P) {
        let places = self.places();
        let Run { ticks, fault } = self.call(call, image, host, places);
        self.run = Run {
            ticks: self.run.ticks.saturating_add(ticks),
            fault,
        };
    }

    // All runs of a plan.
    pub fn play<P: PinHost>(&mut self, plan: Plan, image: &[u8], host: &P) {
        for _ in 0..plan.times {
            self.run(plan.call, image, host);
        }
    }

    // Whether another board has the same answers, record and places, also those that are not counted. A chip derives no equality
    // beside its ghost field, so its record is compared.
    pub fn is_same(&self, other: &Board) -> bool {
        self.run == other.run
            && self.chip.held == other.chip.held
            && self.pins == other.pins
            && self.modes == other.modes
    }
}

impl fmt::Display for Plan {
    fn fmt<W: fmt::Write>(&self, f: &mut fmt::Formatter<W>) -> fmt::Result {
        let times = self.times;
        let grant = self.call.grant;
        // A way is printed by its name.
        let way = match self.call.way {
            Way::Ticks => "ticks",
            Way::Leaps => "leaps",
        };
        write!(f, "{way}, {times} x {grant}")
    }
}

impl fmt::Display for Board {
    fn fmt<W: fmt::Write>(&self, f: &mut fmt::Formatter<W>) -> fmt::Result {
        let ran = self.run.ticks;
        let fault = fault_number(self.run.fault);
        let pins = self.chip.held.stretches.pins;
        let modes = self.chip.held.stretches.modes;
        write!(
            f,
            "{ran} ticks, fault {fault}, {pins} pin stretches, {modes} mode stretches"
        )
    }
}
