ghost use Rattle.std.specs.Prelude.{◌≡◌, IfOk};
ghost use Rattle.recorder.specs.Histories.{Shows};
ghost use Rattle.recorder.specs.Samples.{pin_kind};
ghost use Rattle.recording.specs.Read.{described};
ghost use Rattle.pinchart.specs.Walks.{pins_at};
ghost use Rattle.pinchart.specs.Recordings.{with_wave, shown_at, settled, waving, charting, printed};

use crate::charted::Charted;
use crate::walk::chart_pins;
use faults::Fault;
use hosts::host::PinHost;
use hosts::join::Join;
use hosts::pulses::PulseList;
use hosts::wave::SquareWave;
use recorder::pin_sample::PinSample;
use recorder::stretch::Stretch;
use recording::{Recording, Wave};
use report::{add_lines, add_outcome};
use std::alloc::{AllocError, Global};

// Charts a host, joined with a wave if there is one, unless the wave is refused.
fn chart_with<P: PinHost>(
    host: &P,
    wave: Option<Wave>,
    ticks: u64,
    chart: &mut [Stretch<PinSample>],
) -> Result<Charted, Fault>
    ensures value { (settled result, chart.new) ≡ waving (P.PinHost.meaning host.now) wave ticks chart.old }
    ensures shown { Shows pin_kind (pins_at (with_wave wave (P.PinHost.meaning host.now))) chart.new (settled result).count (settled result).ticks }
{
    let Some(w) = wave else {
        return Ok(chart_pins(host, ticks, chart));
    };
    let right = SquareWave::new(w.word, w.low, w.high)?;
    Ok(chart_pins(&Join { left: host, right }, ticks, chart))
}

// Charts what a recording shows, unless its pulses or its wave are refused.
fn chart_described(
    recording: &Recording,
    chart: &mut [Stretch<PinSample>],
) -> Result<Charted, Fault>
    ensures value { (settled result, chart.new) ≡ charting (described recording.now) chart.old }
    ensures shown { Shows pin_kind (pins_at (shown_at (described recording.now))) chart.new (settled result).count (settled result).ticks }
{
    let mut list = PulseList::new();
    list.set(recording.word, recording.pulses.as_slice())?;
    chart_with(&list, recording.wave, recording.ticks, chart)
}

// Charts what a recording shows, or says why its pulses or its wave are refused.
pub fn chart_recording(recording: &Recording, chart: &mut [Stretch<PinSample>]) -> Charted
    ensures value { (result, chart.new) ≡ charting (described recording.now) chart.old }
    ensures shown { Shows pin_kind (pins_at (shown_at (described recording.now))) chart.new result.count result.ticks }
{
    chart_described(recording, chart).unwrap_or_else(Charted::refused)
}

// The chart of a recording as text: a line for each stretch, and the outcome.
pub fn print_recording(
    heap: Global,
    recording: &Recording,
    chart: &mut [Stretch<PinSample>],
) -> Result<Vec<u8>, AllocError>
    ensures { IfOk result (λ out. out.items ≡ printed (charting (described recording.now) chart.old)) }
{
    let charted = chart_recording(recording, chart);
    let mut out = Vec::new(heap);
    add_lines(&mut out, &chart[..charted.count])?;
    add_outcome(&mut out, charted.ticks, charted.fault)?;
    Ok(out)
}
