ghost use Rattle.std.specs.Prelude.{◌≡◌, ◌≢◌, ◌≤◌, length, IfSome, IfOk, MatchOption};
ghost use Rattle.bench.specs.Charting.{both};
ghost use Rattle.bench.specs.Runs.{answer};
ghost use Rattle.runchart.specs.Printing.{IsInput, charting, run_of, input_run, printed};

use bench::calls::RAM;
use bench::chip::Chip;
use bench::held::Held;
use bench::run::{IMAGE, Run};
use faults::Fault;
use hosts::steady::Steady;
use recorder::mode::Mode;
use recorder::pin_sample::PinSample;
use recorder::stretch::Stretch;
use report::{add_lines, add_outcome};
use std::alloc::{AllocError, Global};

// The bytes of an input: an image, and a grant of four bytes.
pub const INPUT: usize = IMAGE + 4;

// The image of an input, and the grant behind it, low byte first. None where it is not just these.
fn read_input(input: &[u8]) -> Option<(&[u8], u64)>
    ensures { MatchOption result (length input.now ≢ 2052) (λ x. IsInput input.now x.0.now x.1) }
{
    if input.len() != INPUT {
        return None;
    }
    let (image, grant) = input.split_last_chunk()?;
    Some((image, u32::from_le_bytes(*grant) as u64))
}

// What a leap run from power-on answered, and the chip's record after it.
#[derive(Clone, Copy)]
pub struct Charted {
    pub run: Run,
    pub held: Held,
}

// Charts an image from power-on with RAM of 0, before a host that shows 0.
fn chart_image(
    image: &[u8],
    grant: u64,
    pins: &mut [Stretch<PinSample>],
    modes: &mut [Stretch<Mode>],
) -> Charted
    requires { length image.now ≡ 2048 }
    ensures value { answer result.run.ticks result.run.fault result.held (both pins.new modes.new) ≡ charting image.now grant (both pins.old modes.old) }
    ensures pins { result.held.stretches.pins ≤ length pins.new }
    ensures modes { result.held.stretches.modes ≤ length modes.new }
{
    let mut chip = Chip::new();
    let _ = chip.power_on(image, [0; RAM]);
    let run = chip.leap_run(image, &Steady::new(0), grant, pins, modes);
    Charted {
        run,
        held: chip.held,
    }
}

// Charts an input. None where it is not just an image and a grant, and then nothing changes.
pub fn chart_input(
    input: &[u8],
    pins: &mut [Stretch<PinSample>],
    modes: &mut [Stretch<Mode>],
) -> Option<Charted>
    ensures value { (run_of result (both pins.new modes.new), both pins.new modes.new) ≡ input_run input.now (both pins.old modes.old) }
    ensures places { IfSome result (λ x. (x.held.stretches.pins ≤ length pins.new) × (x.held.stretches.modes ≤ length modes.new)) }
{
    let (image, grant) = read_input(input)?;
    Some(chart_image(image, grant, pins, modes))
}

// The chart of an input as text: the lines of both charts, and the outcome. Another size than an image and a grant is refused.
pub fn print_chart(
    heap: Global,
    input: &[u8],
    pins: &mut [Stretch<PinSample>],
    modes: &mut [Stretch<Mode>],
) -> Result<Vec<u8>, AllocError>
    ensures { IfOk result (λ out. out.items ≡ printed input.now (both pins.old modes.old)) }
{
    let mut out = Vec::new(heap);
    let Some(charted) = chart_input(input, pins, modes) else {
        add_outcome(&mut out, 0, Some(Fault::ImageSize))?;
        return Ok(out);
    };
    let counted_pins = charted.held.stretches.pins;
    let counted_modes = charted.held.stretches.modes;
    add_lines(&mut out, &pins[0..counted_pins])?;
    add_lines(&mut out, &modes[0..counted_modes])?;
    add_outcome(&mut out, charted.run.ticks, charted.run.fault)?;
    Ok(out)
}
