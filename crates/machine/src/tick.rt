ghost use Rattle.std.specs.Prelude.{◌≡◌, ◌≤◌, OnOk};
ghost use Rattle.bus.specs.Outcomes.{after};
ghost use Rattle.machine.specs.Tick.{interrupt_of, action_of, begun, pins_of, finished};
ghost use Rattle.machine.specs.Quiet.{Sound};

use crate::prescaler::run_prescaler;
use crate::state::{Action, Machine};
use faults::Fault;
use instructions::call::interrupt;
use instructions::execute::instruct;
use ports::edges::Edges;
use ports::request::{Events, Interrupt};
use recorder::mode::Mode;
use recorder::pin_sample::PinSample;

// The ticks that an accepted request owes.
const ACCEPTED: u8 = 16;

// WDTON of CKCTLR.
const WDTON: u8 = 0x10;

impl Machine {
    // The request that is accepted: the first enabled one that is pending, if I is set.
    fn interrupt(&self) -> Option<Interrupt>
        ensures { result ≡ interrupt_of self.now.parts }
    {
        if self.parts.registers.flags.i {
            self.parts.requests.first_pending()
        } else {
            None
        }
    }

    // What the first step of a tick does.
    pub fn action(&self) -> Action
        ensures { result ≡ action_of self.now }
    {
        if self.owed > 0 {
            return Action::Rest;
        }
        match (self.parts.mode, self.interrupt()) {
            (Mode::WakeUpTimer | Mode::Stopped, _) if !self.parts.requests.is_waking() => {
                Action::Rest
            }
            (_, Some(interrupt)) => Action::Accept(interrupt),
            (_, None) => Action::Execute,
        }
    }

    // The first step: rests, accepts a request or executes. After a fault nothing is said of the machine.
    pub fn begin(&mut self, image: &[u8], host: u16) -> Result<(), Fault>
        ensures value { after result self.new ≡ begun self.old image.now host }
        ensures sound { OnOk result (Sound self.old → Sound self.new) }
        ensures owed { OnOk result (self.old.owed ≤ 16 → self.new.owed ≤ 16) }
    {
        match self.action() {
            Action::Rest => {}
            Action::Accept(cause) => {
                let pc = self.parts.registers.pc;
                self.parts.mode = Mode::Running;
                self.parts.requests.accept(cause);
                interrupt(&mut self.parts, image, pc, cause.vector())?;
                self.owed = ACCEPTED;
            }
            Action::Execute => {
                self.parts.mode = Mode::Running;
                let ticks = instruct(&mut self.parts, image, host)?;
                self.owed = ticks;
            }
        }
        Ok(())
    }

    // The second step: the pin sample. The mode sample is the mode.
    pub fn pins(&self, host: u16) -> PinSample
        ensures { result ≡ pins_of self.now host }
    {
        self.parts
            .ports
            .sample(host, self.parts.buzzer.level, self.parts.timers.comp)
    }

    // The third step: counters run, and edges between the host's words of the tick before and of this one set requests.
    pub fn finish(&mut self, image: &[u8], before: u16, at: u16)
        ensures value { self.new ≡ finished self.old image.now before at }
        ensures sound { Sound self.old → Sound self.new }
    {
        let mode = self.parts.mode;
        let prescaler = run_prescaler(mode, self.prescaler, 1);
        let edges = Edges::between(&self.parts.ports, self.parts.requests.ieds, before, at);
        let matches = self.parts.timers.tick(mode, prescaler, edges.ec0);
        let resets = self.parts.basic.control / WDTON % 2 == 1;
        self.parts.buzzer.tick(mode, prescaler);
        let passing = self.parts.basic.tick(mode, prescaler);
        self.parts.requests.note(Events {
            int0: edges.int0,
            int1: edges.int1,
            timer0: matches.timer0,
            timer1: matches.timer1,
            watchdog: passing.watchdog && !resets,
            basic: passing.passed,
        });
        self.prescaler = prescaler;
        self.owed = self.owed.saturating_sub(1);
        if passing.watchdog && resets {
            self.reset(image);
        }
    }
}
