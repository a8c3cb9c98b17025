ghost use Rattle.std.specs.Prelude.{◌≡◌, ◌+◌, ◌%◌, ◌≤◌, Bool};
ghost use Rattle.counters.specs.Timers.{timer, counts, source0, source1, drive0, drive1, pulses, timer_ticked, timer_moved, timer_still, timer_set, of0, of1, timers_reset, timers_ticked, timers_moved, timers_still};
ghost use Rattle.counters.specs.Quiet.{Longest, TimerQuiet, TimersQuiet};

use crate::count::counted;
use crate::divider::Divider;
use crate::mode::is_awake;
use recorder::mode::Mode;
use ticks::sooner;

// What a timer counts: pulses of a divider, rises of EC0, or nothing.
#[derive(Clone, Copy, PartialEq, Eq, Debug)]
pub enum Source {
    Divider(Divider),
    Event,
    Held,
}

// TM, TDR and the count of one timer.
#[derive(Clone, Copy, PartialEq, Eq, Debug)]
pub struct Timer {
    pub control: u8,
    pub limit: u8,
    pub count: u8,
}

// Both timers, and the level that Timer 0's match turns over.
#[derive(Clone, Copy, PartialEq, Eq, Debug)]
pub struct Timers {
    pub pair: [Timer; 2],
    pub comp: bool,
}

// Which timers matched at a tick.
#[derive(Clone, Copy, PartialEq, Eq, Debug)]
pub struct Matches {
    pub timer0: bool,
    pub timer1: bool,
}

impl Source {
    // Whether it pulses at a prescaler; `rises` tells whether EC0 does.
    fn is_on(self, prescaler: u16, rises: bool) -> bool
        ensures { result ≡ pulses self prescaler rises }
    {
        match self {
            Source::Divider(divider) => divider.is_pulse(prescaler),
            Source::Event => rises,
            Source::Held => false,
        }
    }
}

impl Timer {
    // TM 0, TDR FF and count 0, as after a reset.
    const RESET: Timer = Timer {
        control: 0,
        limit: 0xff,
        count: 0,
    };

    // Writes TM. A write with ST set clears the count.
    pub fn set_control(&mut self, control: u8)
        ensures { self.new ≡ timer_set control self.old }
    {
        self.control = control;
        if control % 2 == 1 {
            self.count = 0;
        }
    }

    // Whether CN and ST are set.
    fn is_counting(&self) -> bool
        ensures { result ≡ counts self.now }
    {
        self.control % 4 == 3
    }

    // Counts a pulse if there is one, and tells whether it matched.
    fn count_pulse(&mut self, on: bool) -> bool
        ensures { (self.new, result) ≡ timer_ticked on self.old }
    {
        let matched = on && self.count == self.limit;
        if on {
            self.count = counted::<256>(self.limit, self.count);
        }
        matched
    }

    // Runs the count on over ticks without a match.
    fn run_on(&mut self, source: Source, prescaler: u16, ticks: u64)
        ensures { self.new ≡ timer_moved source prescaler ticks self.old }
    {
        if let Source::Divider(divider) = source {
            self.count = divider.run_on::<256>(prescaler, ticks, self.count);
        }
    }

    // The ticks before it matches, while EC0 does not rise.
    fn still(&self, source: Source, prescaler: u16) -> Option<u64>
        ensures value { result ≡ timer_still source prescaler self.now }
        ensures longest { Longest result (TimerQuiet source prescaler self.now) }
        ensures starts { timer_moved source prescaler 0 self.now ≡ self.now }
    {
        match source {
            Source::Divider(divider) => {
                Some(divider.still_for::<256>(prescaler, self.limit, self.count))
            }
            Source::Event | Source::Held => None,
        }
    }
}

// T0CK: dividers 2, 4, 8, 32, 128, 512 and 2048, and EC0.
fn source_of_tm0(control: u8) -> Source
    ensures { result ≡ source0 control }
{
    let shift = match control / 4 % 8 {
        0 => 1,
        1 => 2,
        2 => 3,
        3 => 5,
        4 => 7,
        5 => 9,
        6 => 11,
        _ => return Source::Event,
    };
    Source::Divider(Divider::new(shift))
}

// T1CK: dividers 1, 2 and 8, and Timer 0's source.
fn source_of_tm1(zero: Source, control: u8) -> Source
    ensures { result ≡ source1 zero control }
{
    let shift = match control / 4 % 4 {
        0 => 0,
        1 => 1,
        2 => 3,
        _ => return zero,
    };
    Source::Divider(Divider::new(shift))
}

// What drives Timer 0 in a mode: with the wake-up timer only the divider 2048.
fn drive_timer0(mode: Mode, source: Source) -> Source
    ensures { result ≡ drive0 mode source }
{
    match (mode, source) {
        (Mode::Running, _) => source,
        (Mode::WakeUpTimer, Source::Divider(divider)) if divider.is_longest() => source,
        (Mode::WakeUpTimer | Mode::Stopped, _) => Source::Held,
    }
}

// Timer 1 counts awake only.
fn drive_timer1(mode: Mode, source: Source) -> Source
    ensures { result ≡ drive1 mode source }
{
    if is_awake(mode) { source } else { Source::Held }
}

impl Timers {
    // Both timers as after a reset.
    pub fn new() -> Timers
        ensures { result ≡ timers_reset }
    {
        Timers {
            pair: [Timer::RESET; 2],
            comp: false,
        }
    }

    // What Timer 0 counts in a mode. It stands beside `source1`: one function that tells both makes a tick slower, since
    // both sources are then worked out before either is asked.
    fn source0(&self, mode: Mode) -> Source
        ensures { result ≡ of0 mode self.now }
    {
        let [timer, _] = self.pair;
        if timer.is_counting() {
            drive_timer0(mode, source_of_tm0(timer.control))
        } else {
            Source::Held
        }
    }

    // What Timer 1 counts in a mode. It may take Timer 0's source.
    fn source1(&self, mode: Mode) -> Source
        ensures { result ≡ of1 mode self.now }
    {
        let [zero, timer] = self.pair;
        if timer.is_counting() {
            drive_timer1(
                mode,
                source_of_tm1(source_of_tm0(zero.control), timer.control),
            )
        } else {
            Source::Held
        }
    }

    // One tick, at the prescaler that it has reached; `rises` tells whether EC0 rises in it.
    pub fn tick(&mut self, mode: Mode, prescaler: u16, rises: bool) -> Matches
        ensures { (self.new, result) ≡ timers_ticked mode prescaler rises self.old }
    {
        let on0 = self.source0(mode).is_on(prescaler, rises);
        let on1 = self.source1(mode).is_on(prescaler, rises);
        let timer0 = self.pair[0].count_pulse(on0);
        let timer1 = self.pair[1].count_pulse(on1);
        self.comp = self.comp != timer0;
        Matches { timer0, timer1 }
    }

    // `ticks` ticks without a match or a rise of EC0, from the prescaler before them.
    pub fn run_on(&mut self, mode: Mode, prescaler: u16, ticks: u64)
        ensures { self.new ≡ timers_moved mode prescaler ticks self.old }
    {
        let source0 = self.source0(mode);
        let source1 = self.source1(mode);
        self.pair[0].run_on(source0, prescaler, ticks);
        self.pair[1].run_on(source1, prescaler, ticks);
    }

    // The ticks before the next match, from the prescaler before them, while EC0 does not rise. None where nothing bounds them.
    pub fn still(&self, mode: Mode, prescaler: u16) -> Option<u64>
        ensures value { result ≡ timers_still mode prescaler self.now }
        ensures longest { Longest result (TimersQuiet mode prescaler self.now) }
        ensures starts { timers_moved mode prescaler 0 self.now ≡ self.now }
    {
        let source0 = self.source0(mode);
        let source1 = self.source1(mode);
        let [timer0, timer1] = self.pair;
        sooner(
            timer0.still(source0, prescaler),
            timer1.still(source1, prescaler),
        )
    }
}
