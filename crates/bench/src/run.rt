ghost use Rattle.std.specs.Prelude.{◌≡◌, ◌^◌, ◌≤◌, Ok, cond};
ghost use Rattle.std.specs.Result.{result_err};
ghost use Rattle.bench.specs.Charting.{both};
ghost use Rattle.bench.specs.Benches.{Accepted, Plays};
ghost use Rattle.bench.specs.Runs.{refused};

use crate::bench::Bench;
use crate::held::{Call, Held, Way};
use faults::Fault;
use hosts::host::{HORIZON, PinHost};
use recorder::append::fits;
use recorder::mode::Mode;
use recorder::pin_sample::PinSample;
use recorder::stretch::Stretch;

// The bytes of an image.
pub const IMAGE: usize = 2048;

// The most ticks of one grant, 2^32.
pub const GRANT: u64 = 1 << 32;

// What a run call answers: the ticks that it ran, and why it was refused or stopped. It is no `Result`, since a stop has ticks too.
#[derive(Clone, Copy, PartialEq, Eq, Debug)]
pub struct Run {
    pub ticks: u64,
    pub fault: Option<Fault>,
}

impl Run {
    // A whole grant.
    pub(crate) fn whole(grant: u64) -> Run
        ensures { result ≡ record { ticks = grant; fault = None } }
    {
        Run {
            ticks: grant,
            fault: None,
        }
    }

    // The ticks before a stop, or none before a refusal.
    pub(crate) fn stopped(ticks: u64, fault: Fault) -> Run
        ensures { result ≡ record { ticks = ticks; fault = Some fault } }
    {
        Run {
            ticks,
            fault: Some(fault),
        }
    }
}

// A test of a run call, with the fault where it fails.
fn test(passed: bool, fault: Fault) -> Result<(), Fault>
    ensures { result ≡ cond passed (Ok tt) (Err fault) }
{
    if passed { Ok(()) } else { Err(fault) }
}

impl Held {
    // Accepts a run call, or refuses it for the first test that it fails.
    pub(crate) fn accept(
        &self,
        image: &[u8],
        grant: u64,
        pins: &[Stretch<PinSample>],
        modes: &[Stretch<Mode>],
    ) -> Result<(), Fault>
        requires { self.now.moment.tick ≤ 2 ^ 48 }
        ensures { result_err result ≡ refused image.now grant self.now (both pins.now modes.now) }
    {
        let tick = self.moment.tick;
        let counted = self.stretches;
        test(image.len() == IMAGE, Fault::ImageSize)?;
        test(grant <= GRANT, Fault::GrantTooLarge)?;
        test(tick + grant <= HORIZON, Fault::ChipSpent)?;
        test(fits(pins, counted.pins, tick), Fault::PinChartUnfit)?;
        test(fits(modes, counted.modes, tick), Fault::ModeChartUnfit)
    }
}

impl Bench<'_> {
    // Runs an accepted call: the one place where ticks and leaps part.
    pub(crate) fn run<P: PinHost>(&mut self, image: &[u8], host: &P, call: Call) -> Run
        requires { Accepted self.old call.grant }
        ensures { Plays image.now (P.meaning host.now) call.grant self.old result self.new }
    {
        match call.way {
            Way::Ticks => self.run_ticks(image, host, call.grant),
            Way::Leaps => self.run_leaps(image, host, call.grant),
        }
    }

    // Plays each tick of an accepted grant by itself.
    fn run_ticks<P: PinHost>(&mut self, image: &[u8], host: &P, grant: u64) -> Run
        requires { Accepted self.old grant }
        ensures { Plays image.now (P.meaning host.now) grant self.old result self.new }
    {
        let mut before = host.levels(self.held.moment.tick.saturating_sub(1));
        for done in 0..grant {
            let word = host.levels(self.held.moment.tick);
            if let Err(fault) = self.step(image, before, word) {
                return Run::stopped(done, fault);
            }
            before = word;
        }
        Run::whole(grant)
    }
}
