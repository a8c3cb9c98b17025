// Charts as a VCD file (Value Change Dump, IEEE 1364), which wave viewers read.
#![tactic(auto)]

mod header;
mod signal;
mod values;
mod walk;

ghost use Rattle.std.specs.Prelude.{◌≡◌, IfOk, Some};
ghost use Rattle.vcd.specs.Changes.{vcd_of};

use header::Header;
use recorder::mode::Mode;
use recorder::pin_sample::PinSample;
use recorder::stretch::Stretch;
use std::alloc::{AllocError, Global};
use std::fmt;
use values::{ModeValue, PinValues};
use walk::Walk;

// A sample in which all pins are set.
const ALL_PINS: PinSample = PinSample {
    levels: 0x7fff,
    drive: 0x7fff,
};

// Two charts of some ticks, which begin at tick 0.
#[derive(Clone, Copy)]
struct Charts<'a> {
    pins: &'a [Stretch<PinSample>],
    modes: &'a [Stretch<Mode>],
    ticks: u64,
}

impl fmt::Display for Charts<'_> {
    ghost output = { λ c. Some (vcd_of c.pins.now c.modes.now c.ticks) };

    fn fmt<W: fmt::Write>(&self, f: &mut fmt::Formatter<W>) -> fmt::Result {
        write!(f, "{Header}")?;
        let Some((first_pins, more_pins)) = self.pins.split_first() else {
            return Ok(());
        };
        let Some((first_mode, more_modes)) = self.modes.split_first() else {
            return Ok(());
        };
        let pins = PinValues {
            sample: first_pins.sample,
            which: ALL_PINS,
        };
        let mode = ModeValue(first_mode.sample);
        let walk = Walk {
            end: self.ticks,
            shown: first_pins.sample,
            pins: more_pins,
            modes: more_modes,
        };
        write!(f, "#0\n$dumpvars\n{pins}{mode}$end\n{walk}")
    }
}

// The VCD file of two charts of some ticks, which begin at tick 0. Where a chart has no stretch, the file has no values.
pub fn write_vcd(
    heap: Global,
    pins: &[Stretch<PinSample>],
    modes: &[Stretch<Mode>],
    ticks: u64,
) -> Result<Vec<u8>, AllocError>
    ensures { IfOk result (λ out. out.items ≡ vcd_of pins.now modes.now ticks) }
{
    let file = Charts { pins, modes, ticks }.to_string(heap)?;
    Ok(file.into_bytes())
}
