ghost use Rattle.std.specs.Prelude.{◌≡◌, ◌^◌, ◌<◌, ◌≤◌, min};
ghost use Rattle.hosts.specs.Marks.{Quiet};
ghost use Rattle.recorder.specs.Histories.{Shows};
ghost use Rattle.recorder.specs.Samples.{pin_kind};
ghost use Rattle.pinchart.specs.Walks.{pins_at, walked, until_mark};

use crate::charted::Charted;
use faults::Fault;
use hosts::host::{HORIZON, PinHost};
use recorder::append::append;
use recorder::pin_sample::PinSample;
use recorder::stretch::Stretch;

// The host's mark after tick t, or `end` if that comes first.
fn quiet_until<P: PinHost>(host: &P, t: u64, end: u64) -> u64
    requires { (t < end) × (end ≤ 2 ^ 48) }
    ensures value { result ≡ until_mark (P.PinHost.mark host.now t) end }
    ensures above { t < result }
    ensures within { result ≤ end }
    ensures quiet { Quiet (P.PinHost.meaning host.now) t result }
{
    host.quiet_mark(t).unwrap_or(end).min(end)
}

// Charts the words that a host shows from tick 0 on, from quiet mark to quiet mark, for `ticks` ticks or up to the horizon.
pub fn chart_pins<P: PinHost>(host: &P, ticks: u64, chart: &mut [Stretch<PinSample>]) -> Charted
    ensures value { (result, chart.new) ≡ walked (P.PinHost.meaning host.now) (min ticks (2 ^ 48)) chart.old }
    ensures shown { Shows pin_kind (pins_at (P.PinHost.meaning host.now)) chart.new result.count result.ticks }
{
    let end = ticks.min(HORIZON);
    let mut charted = Charted::default();
    while charted.ticks < end {
        let next = quiet_until(host, charted.ticks, end);
        let sample = PinSample {
            levels: host.levels(charted.ticks),
            drive: 0,
        };
        let Some(count) = append(chart, charted.count, next - charted.ticks, sample) else {
            return Charted {
                fault: Some(Fault::NoPinPlace),
                ..charted
            };
        };
        charted.ticks = next;
        charted.count = count;
    }
    charted
}
