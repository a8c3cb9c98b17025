ghost use Rattle.std.specs.Prelude.{◌≡◌, Ok};
ghost use Rattle.bench.specs.Charting.{both, left};
ghost use Rattle.bench.specs.Runs.{answer, played, played_all};
ghost use Rattle.bench.specs.Power.{start, powered_machine, powered, powered_on, fresh};
ghost use Rattle.bench.specs.Board.{BoardAfter, StandsAfter, Begun};

use crate::bench::Bench;
use crate::chip::Chip;
use crate::held::{Call, Held, Moment, Stretches};
use crate::run::{IMAGE, Run};
use bus::parts::{Memory, Parts};
use counters::basic::BasicTimer;
use counters::buzzer::Buzzer;
use counters::timer::Timers;
use cpu::registers::Registers;
use faults::Fault;
use hosts::host::PinHost;
use machine::state::Machine;
use ports::port::Ports;
use ports::request::Requests;
use recorder::mode::Mode;
use recorder::pin_sample::PinSample;
use recorder::stretch::Stretch;

// The bytes of RAM.
pub const RAM: usize = 128;

// What is in every place before anything was powered on there.
const ERASED: [u8; IMAGE] = [0xff; IMAGE];

// A machine that was just powered on. A, X, Y, SP and the latches are 0, and the rest is as after a reset.
fn power_up(image: &[u8], ram: [u8; RAM]) -> Machine
    ensures { result ≡ powered_machine (start image.now ram) }
{
    let mut machine = Machine {
        parts: Parts {
            registers: Registers::new(),
            memory: Memory { ram },
            ports: Ports::default(),
            timers: Timers::new(),
            buzzer: Buzzer::new(0),
            basic: BasicTimer::new(),
            requests: Requests::new(),
            pfdr: 0,
            mode: Mode::Running,
        },
        owed: 0,
        prescaler: 0,
    };
    machine.reset(image);
    machine
}

// The record of a chip at tick 0, with no stretch counted.
fn powered_on(image: &[u8], ram: [u8; RAM]) -> Held
    ensures { result ≡ powered (start image.now ram) }
{
    Held {
        moment: Moment {
            machine: power_up(image, ram),
            tick: 0,
        },
        stretches: Stretches { pins: 0, modes: 0 },
    }
}

impl Chip {
    // A new place: the chip of an image of FF and RAM of 0.
    pub fn new() -> Chip
        ensures { result.held ≡ powered fresh }
    {
        Chip {
            held: powered_on(&ERASED, [0; RAM]),
        }
    }

    // Puts a chip at tick 0 into this place. A refusal leaves the one that is there.
    pub fn power_on(&mut self, image: &[u8], ram: [u8; RAM]) -> Result<(), Fault>
        ensures value { (result, self.new.held) ≡ left (powered_on (start image.now ram)) self.old.held }
        ensures begins { result ≡ Ok tt → Begun (start image.now ram) self.new.held }
    {
        if image.len() != IMAGE {
            return Err(Fault::ImageSize);
        }
        self.held = powered_on(image, ram);
        Ok(())
    }

    // A run call, up to its grant: each tick by itself, or all quiet ticks up to the next that is not in one move. The charts
    // are the caller's, so the public calls take two slices.
    pub fn run<P: PinHost>(
        &mut self,
        image: &[u8],
        host: &P,
        call: Call,
        pins: &mut [Stretch<PinSample>],
        modes: &mut [Stretch<Mode>],
    ) -> Run
        ensures plays { answer result.ticks result.fault self.new.held (both pins.new modes.new) ≡ played image.now (P.meaning host.now) call.grant self.old.held (both pins.old modes.old) }
        ensures board { BoardAfter image.now (P.meaning host.now) self.old.held (both pins.old modes.old) call.grant result.ticks result.fault self.new.held (both pins.new modes.new) }
    {
        if let Err(fault) = self.held.accept(image, call.grant, pins, modes) {
            return Run::stopped(0, fault);
        }
        let mut bench = Bench {
            held: self.held,
            pins,
            modes,
        };
        let run = bench.run(image, host, call);
        self.held = bench.held;
        run
    }

    // Runs up to `grant` ticks, each by itself.
    pub fn tick_run<P: PinHost>(
        &mut self,
        image: &[u8],
        host: &P,
        grant: u64,
        pins: &mut [Stretch<PinSample>],
        modes: &mut [Stretch<Mode>],
    ) -> Run
        ensures plays { answer result.ticks result.fault self.new.held (both pins.new modes.new) ≡ played image.now (P.meaning host.now) grant self.old.held (both pins.old modes.old) }
        ensures board { BoardAfter image.now (P.meaning host.now) self.old.held (both pins.old modes.old) grant result.ticks result.fault self.new.held (both pins.new modes.new) }
    {
        self.run(image, host, Call::ticks(grant), pins, modes)
    }

    // Runs up to `grant` ticks, all quiet ones up to the next that is not in one move.
    pub fn leap_run<P: PinHost>(
        &mut self,
        image: &[u8],
        host: &P,
        grant: u64,
        pins: &mut [Stretch<PinSample>],
        modes: &mut [Stretch<Mode>],
    ) -> Run
        ensures plays { answer result.ticks result.fault self.new.held (both pins.new modes.new) ≡ played image.now (P.meaning host.now) grant self.old.held (both pins.old modes.old) }
        ensures board { BoardAfter image.now (P.meaning host.now) self.old.held (both pins.old modes.old) grant result.ticks result.fault self.new.held (both pins.new modes.new) }
    {
        self.run(image, host, Call::leaps(grant), pins, modes)
    }

    // Makes run calls one after the other, each with what the one before left, and answers how many ticks they ran in all.
    // It adds up in a `for`, since the contract of `sum`, which takes an iterator by value, does not say what the closure's `&mut`s leave.
    pub fn play<P: PinHost>(
        &mut self,
        image: &[u8],
        host: &P,
        calls: &[Call],
        pins: &mut [Stretch<PinSample>],
        modes: &mut [Stretch<Mode>],
    ) -> u64
        ensures plays { (result, self.new.held, both pins.new modes.new) ≡ played_all image.now (P.meaning host.now) calls.now 0 self.old.held (both pins.old modes.old) }
        ensures stands { StandsAfter image.now (P.meaning host.now) self.old.held (both pins.old modes.old) result self.new.held (both pins.new modes.new) }
    {
        let mut total = 0;
        for call in calls {
            total += self.run(image, host, *call, pins, modes).ticks;
        }
        total
    }
}
