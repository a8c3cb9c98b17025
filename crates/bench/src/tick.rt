ghost use Rattle.std.specs.Prelude.{◌≡◌, ◌^◌, ◌<◌, ◌≤◌, OnOk};
ghost use Rattle.bus.specs.Outcomes.{outcome};
ghost use Rattle.bench.specs.Ticks.{samples_of, tick_between};
ghost use Rattle.bench.specs.Charting.{charted, left};
ghost use Rattle.bench.specs.Benches.{charts_of, state, IsReady, Lent};
ghost use Rattle.bench.specs.Runs.{step_between};
ghost use Rattle.bench.specs.Keeps.{Bounded};

use crate::bench::Bench;
use crate::held::{Moment, Samples};
use faults::Fault;
use recorder::append::{append, has_place};

impl Moment {
    // The samples of a tick before the host's word.
    pub(crate) fn samples(&self, word: u16) -> Samples
        ensures { result ≡ samples_of self.now.machine word }
    {
        Samples {
            pins: self.machine.pins(word),
            mode: self.machine.parts.mode,
        }
    }

    // Plays a tick between the host's words of the tick before and of this one. After a fault nothing is said of the machine.
    pub(crate) fn tick(&mut self, image: &[u8], before: u16, word: u16) -> Result<Samples, Fault>
        requires { self.old.tick < 2 ^ 48 }
        ensures value { outcome result self.new ≡ tick_between image.now before word self.old }
        ensures bounded { OnOk result (Bounded self.old.machine → Bounded self.new.machine) }
    {
        self.machine.begin(image, word)?;
        let samples = self.samples(word);
        self.machine.finish(image, before, word);
        self.tick += 1;
        Ok(samples)
    }
}

impl Bench<'_> {
    // Adds `ticks` ticks of the samples to both charts. A stop where one has no place, the pin chart's first, and then nothing changes.
    // So the pin chart is asked for its place before the mode chart is added to, and added to after it.
    pub(crate) fn add(&mut self, ticks: u64, samples: Samples) -> Result<(), Fault>
        ensures value { (result, (self.new.held.stretches, charts_of self.new)) ≡ left (charted ticks samples self.old.held.stretches (charts_of self.old)) (self.old.held.stretches, charts_of self.old) }
        ensures moment { self.new.held.moment ≡ self.old.held.moment }
        ensures lent { Lent self.old self.new }
    {
        let pins = &mut *self.pins;
        let modes = &mut *self.modes;
        let counts = &mut self.held.stretches;
        if !has_place(pins, counts.pins, ticks, &samples.pins) {
            return Err(Fault::NoPinPlace);
        }
        counts.modes = append(modes, counts.modes, ticks, samples.mode).ok_or(Fault::NoModePlace)?;
        counts.pins = append(pins, counts.pins, ticks, samples.pins).unwrap();
        Ok(())
    }

    // Plays a tick and charts it, or stops, and then nothing changes.
    pub(crate) fn step(&mut self, image: &[u8], before: u16, word: u16) -> Result<(), Fault>
        requires { self.old.held.moment.tick < 2 ^ 48 }
        ensures value { (result, state self.new) ≡ left (step_between image.now before word self.old.held (charts_of self.old)) (state self.old) }
        ensures ready { IsReady self.old → IsReady self.new }
        ensures lent { Lent self.old self.new }
    {
        let mut next = self.held.moment;
        let samples = next.tick(image, before, word)?;
        self.add(1, samples)?;
        self.held.moment = next;
        Ok(())
    }
}
