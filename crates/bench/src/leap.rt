ghost use Rattle.std.specs.Prelude.{◌≡◌, ◌+◌, ◌-◌, ◌^◌, ◌<◌, ◌≤◌, IfOk};
ghost use Rattle.bus.specs.Outcomes.{after};
ghost use Rattle.machine.specs.Tick.{begun};
ghost use Rattle.machine.specs.Quiet.{Sound};
ghost use Rattle.bench.specs.Ticks.{moment};
ghost use Rattle.bench.specs.Charting.{left};
ghost use Rattle.bench.specs.Benches.{charts_of, state, IsReady, Accepted, Lent, Plays};
ghost use Rattle.bench.specs.Keeps.{Bounded};
ghost use Rattle.bench.specs.Leaps.{seen, Sees, renewed, stride, Stride, takes, onward, advanced, reach, Reaches};

use crate::bench::Bench;
use crate::held::Moment;
use crate::run::Run;
use faults::Fault;
use hosts::host::{HORIZON, PinHost};

// What a leap run knows of its host at a tick: the word of the tick before, and that of this tick and all before `until`.
#[derive(Clone, Copy)]
pub(crate) struct Seen {
    before: u16,
    word: u16,
    until: u64,
}

impl Seen {
    // Only the word of the tick before is known.
    fn new<P: PinHost>(host: &P, tick: u64) -> Seen
        requires { tick ≤ 2 ^ 48 }
        ensures { result ≡ seen (P.meaning host.now (tick - 1)) (P.meaning host.now (tick - 1)) tick }
    {
        let before = host.levels(tick.saturating_sub(1));
        Seen {
            before,
            word: before,
            until: tick,
        }
    }

    // Asks the host again where its mark is reached.
    fn renew<P: PinHost>(&mut self, host: &P, tick: u64)
        requires tick { tick < 2 ^ 48 }
        requires sees { Sees (P.meaning host.now) tick self.old }
        ensures value { self.new ≡ renewed (P.meaning host.now) (P.mark host.now) tick self.old }
        ensures sees { Sees (P.meaning host.now) tick self.new }
        ensures ahead { tick < self.new.until }
    {
        if tick >= self.until {
            self.word = host.levels(tick);
            self.until = host.quiet_mark(tick).unwrap_or(HORIZON);
        }
    }
}

impl Moment {
    // How many of the next ticks, at most `most`, one move takes: the quiet span, up to the host's mark.
    // 0 where the next tick has to be played by itself.
    fn stride(&self, seen: &Seen, most: u64) -> u64
        requires { Sound self.now.machine }
        ensures value { result ≡ stride self.now seen.now most }
        ensures longest { Stride self.now seen.now most result }
    {
        if seen.before != seen.word {
            return 0;
        }
        let cut = most.min(seen.until.saturating_sub(self.tick));
        self.machine.still().map_or(cut, |ticks| ticks.min(cut))
    }

    // Takes quiet ticks at once, or, where there are none, ends the tick that has begun. An enum of the two kinds of move would be
    // no plainer: that a stride is the longest is said of the number of its quiet ticks, which may be 0.
    fn go_on(&mut self, image: &[u8], seen: &Seen, quiet: u64)
        requires { self.old.tick + takes quiet ≤ 2 ^ 48 }
        ensures value { self.new ≡ moment (onward image.now seen.now quiet self.old.machine) (self.old.tick + takes quiet) }
        ensures bounded { Bounded self.old.machine → Bounded self.new.machine }
    {
        if quiet == 0 {
            self.machine.finish(image, seen.before, seen.word);
            self.tick += 1;
        } else {
            self.machine.run_on(quiet);
            self.tick += quiet;
        }
    }
}

impl Bench<'_> {
    // One move of a leap run, or a stop, and then nothing changes: the chip acts if it has to, and then all quiet ticks up to
    // `most` and the host's mark are taken at once, or else the one tick. It is played on a copy. Answers how many ticks it took.
    fn advance(&mut self, image: &[u8], seen: &Seen, most: u64) -> Result<u64, Fault>
        requires some { 0 < most }
        requires accepted { Accepted self.old most }
        ensures value { (after result tt, state self.new) ≡ left (advanced image.now seen.now most self.old.held (charts_of self.old)) (state self.old) }
        ensures takes { IfOk result (λ n. n ≡ reach seen.now most self.old.held.moment.tick (begun self.old.held.moment.machine image.now seen.now.word)) }
        ensures longest { Reaches seen.now most self.old.held.moment.tick (begun self.old.held.moment.machine image.now seen.now.word) }
        ensures bounded { IfOk (begun self.old.held.moment.machine image.now seen.now.word) Bounded }
        ensures ready { IsReady self.new }
        ensures lent { Lent self.old self.new }
    {
        let mut next = self.held.moment;
        next.machine.begin(image, seen.word)?;
        let samples = next.samples(seen.word);
        let quiet = next.stride(seen, most);
        let ticks = quiet.max(1);
        self.add(ticks, samples)?;
        next.go_on(image, seen, quiet);
        self.held.moment = next;
        Ok(ticks)
    }

    // Runs an accepted grant, each move as far as the chip and its host allow.
    pub(crate) fn run_leaps<P: PinHost>(&mut self, image: &[u8], host: &P, grant: u64) -> Run
        requires { Accepted self.old grant }
        ensures { Plays image.now (P.meaning host.now) grant self.old result self.new }
    {
        let mut seen = Seen::new(host, self.held.moment.tick);
        let mut done = 0;
        while done < grant {
            seen.renew(host, self.held.moment.tick);
            match self.advance(image, &seen, grant - done) {
                Ok(ticks) => done += ticks,
                Err(fault) => return Run::stopped(done, fault),
            }
            seen.before = seen.word;
        }
        Run::whole(grant)
    }
}
