ghost use Rattle.std.specs.Prelude.{◌≡◌, ◌+◌, length, is_some, if◌then◌else◌, Some, None};
ghost use Rattle.recorder.specs.Charts.{end_of, goes_on, roomy, fitting, appended};
ghost use Rattle.recorder.specs.Histories.{Adds};

use crate::stretch::{Sample, Stretch};

// A chart is a slice of the caller's, with a count that the caller keeps: the library allocates nothing, so it owns neither.

// Whether the chart has the counted places and the last counted stretch ends at `tick`.
pub fn fits<S: Sample>(chart: &[Stretch<S>], count: usize, tick: u64) -> bool
    ensures { result ≡ fitting S.kind chart.now count tick }
{
    let Some(counted) = chart.get(..count) else {
        return false;
    };
    counted.last().is_none_or(|last| last.end() == Some(tick))
}

// Whether the last counted stretch has this sample.
fn goes_on<S: Sample>(counted: &[Stretch<S>], sample: &S) -> bool
    ensures { result ≡ goes_on S.kind counted.now (length counted.now) sample.now }
{
    counted
        .last()
        .is_some_and(|last| last.sample.is_like(sample))
}

// The tick after the last counted stretch, unless `ticks` more would pass 64 bits.
fn next_tick<S: Sample>(counted: &[Stretch<S>], ticks: u64) -> Option<u64>
    ensures { result ≡ (if roomy S.kind counted.now (length counted.now) ticks then Some (end_of S.kind counted.now (length counted.now)) else None) }
{
    let end = counted.last().map_or(Some(0), |last| last.end())?;
    end.checked_add(ticks).map(|_| end)
}

// Whether there is a place for `ticks` more ticks of one sample.
pub fn has_place<S: Sample>(chart: &[Stretch<S>], count: usize, ticks: u64, sample: &S) -> bool
    ensures { result ≡ is_some (appended S.kind chart.now count ticks sample.now).0 }
{
    if ticks == 0 {
        return true;
    }
    let Some(counted) = chart.get(..count) else {
        return false;
    };
    next_tick(counted, ticks).is_some() && (goes_on(counted, sample) || count < chart.len())
}

// Adds `ticks` more ticks of one sample, and answers the new count. None where there is no place for them, and then nothing changes.
pub fn append<S: Sample>(
    chart: &mut [Stretch<S>],
    count: usize,
    ticks: u64,
    sample: S,
) -> Option<usize>
    ensures value { (result, chart.new) ≡ appended S.kind chart.old count ticks sample }
    ensures facts { Adds S.kind chart.old count ticks sample result chart.new }
{
    if ticks == 0 {
        return Some(count);
    }
    let counted = chart.get(..count)?;
    let offset = next_tick(counted, ticks)?;
    // Written by index: what `get_mut` lends, the proof does not find again in the chart.
    if goes_on(counted, &sample) {
        chart[count - 1].length += ticks;
        return Some(count);
    }
    if count == chart.len() {
        return None;
    }
    chart[count] = Stretch {
        offset,
        length: ticks,
        sample,
    };
    Some(count + 1)
}
