ghost use Rattle.std.specs.Prelude.{◌≡◌, ◌||◌};
ghost use Rattle.counters.specs.Counting.{awake};
ghost use Rattle.ports.specs.Requests.{wakes};
ghost use Rattle.machine.specs.Quiet.{rest_for, still_for, moved, Sound, Span};

use crate::prescaler::run_prescaler;
use crate::state::Machine;
use recorder::mode::Mode;
use ticks::sooner;

impl Machine {
    // Whether the chip is awake, or a request wakes it.
    fn is_up(&self) -> bool
        ensures { result ≡ (awake self.now.parts.mode || wakes self.now.parts.requests) }
    {
        self.parts.mode == Mode::Running || self.parts.requests.is_waking()
    }

    // The ticks in which the first step rests. None where nothing wakes the chip.
    fn rest(&self) -> Option<u64>
        ensures { result ≡ rest_for self.now }
    {
        self.is_up().then_some(self.owed as u64)
    }

    // The quiet span: how many of the next ticks, before a host that shows one word, change nothing but running counts. None where nothing bounds it.
    pub fn still(&self) -> Option<u64>
        ensures value { result ≡ still_for self.now }
        ensures span { Sound self.now → Span self.now result }
    {
        let mode = self.parts.mode;
        let timers = self.parts.timers.still(mode, self.prescaler);
        let buzzer = self.parts.buzzer.still(mode, self.prescaler);
        let basic = self.parts.basic.still(mode, self.prescaler);
        // Three calls: a fold over the four bounds says no more, and first puts them into an array.
        sooner(self.rest(), sooner(timers, sooner(buzzer, basic)))
    }

    // Takes `ticks` quiet ticks at once.
    pub fn run_on(&mut self, ticks: u64)
        ensures value { self.new ≡ moved ticks self.old }
        ensures sound { Sound self.old → Sound self.new }
    {
        let mode = self.parts.mode;
        self.parts.timers.run_on(mode, self.prescaler, ticks);
        self.parts.buzzer.run_on(mode, self.prescaler, ticks);
        self.parts.basic.run_on(mode, self.prescaler, ticks);
        self.owed = (self.owed as u64).saturating_sub(ticks) as u8;
        self.prescaler = run_prescaler(mode, self.prescaler, ticks);
    }
}
