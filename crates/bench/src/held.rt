ghost use Rattle.std.specs.Prelude.{◌≡◌};

use machine::state::Machine;
use recorder::mode::Mode;
use recorder::pin_sample::PinSample;

// What the two charts take at a tick.
#[derive(Clone, Copy, PartialEq, Eq, Debug)]
pub struct Samples {
    pub pins: PinSample,
    pub mode: Mode,
}

// A machine at a tick number: how many ticks it has played since power-on. A tick is one period of the oscillator.
#[derive(Clone, Copy, PartialEq, Eq, Debug)]
pub struct Moment {
    pub machine: Machine,
    pub tick: u64,
}

// How many stretches of each chart are counted.
#[derive(Clone, Copy, PartialEq, Eq, Debug)]
pub struct Stretches {
    pub pins: usize,
    pub modes: usize,
}

// A chip's record: all that it holds.
#[derive(Clone, Copy, PartialEq, Eq, Debug)]
pub struct Held {
    pub moment: Moment,
    pub stretches: Stretches,
}

// How a run call goes: tick by tick, or in leaps.
#[derive(Clone, Copy, PartialEq, Eq, Debug)]
pub enum Way {
    Ticks,
    Leaps,
}

// A run call with its grant.
#[derive(Clone, Copy, PartialEq, Eq, Debug)]
pub struct Call {
    pub way: Way,
    pub grant: u64,
}

impl Call {
    pub(crate) fn ticks(grant: u64) -> Call
        ensures { result ≡ record { way = Way.Ticks; grant = grant } }
    {
        Call {
            way: Way::Ticks,
            grant,
        }
    }

    pub(crate) fn leaps(grant: u64) -> Call
        ensures { result ≡ record { way = Way.Leaps; grant = grant } }
    {
        Call {
            way: Way::Leaps,
            grant,
        }
    }
}
