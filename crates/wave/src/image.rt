ghost use Rattle.std.specs.Prelude.{◌≡◌, ◌==◌, length, is_some, IfOk, IfSome};
ghost use Rattle.bench.specs.Charting.{both};
ghost use Rattle.wave.specs.Waves.{ran_of, wave_of};

use bench::run::Run;
use recorder::mode::Mode;
use recorder::pin_sample::PinSample;
use recorder::stretch::Stretch;
use runchart::print::chart_input;
use std::alloc::{AllocError, Global};
use vcd::write_vcd;

// What a run answered, and the VCD file of its charts.
#[derive(Drop)]
pub(crate) struct Wave {
    pub(crate) run: Run,
    pub(crate) file: Vec<u8>,
}

// Plays the image of an input for the grant behind it. None where the input is not just an image and a grant.
pub(crate) fn wave_of(
    heap: Global,
    input: &[u8],
    pins: &mut [Stretch<PinSample>],
    modes: &mut [Stretch<Mode>],
) -> Result<Option<Wave>, AllocError>
    ensures size { IfOk result (λ o. is_some o ≡ (length input.now == 2052)) }
    ensures ticks { IfOk result (λ o. IfSome o (λ w. w.run.ticks ≡ (ran_of input.now (both pins.old modes.old)).ticks)) }
    ensures fault { IfOk result (λ o. IfSome o (λ w. w.run.fault ≡ (ran_of input.now (both pins.old modes.old)).fault)) }
    ensures file { IfOk result (λ o. IfSome o (λ w. w.file.items ≡ wave_of (ran_of input.now (both pins.old modes.old)))) }
{
    let Some(charted) = chart_input(input, pins, modes) else {
        return Ok(None);
    };
    let run = charted.run;
    let counted_pins = charted.held.stretches.pins;
    let counted_modes = charted.held.stretches.modes;
    let file = write_vcd(
        heap,
        &pins[0..counted_pins],
        &modes[0..counted_modes],
        run.ticks,
    )?;
    Ok(Some(Wave { run, file }))
}
