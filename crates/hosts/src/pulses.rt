ghost use Rattle.std.specs.Prelude.{◌≡◌, ◌≤◌, true, [], length, MatchOption, if◌then◌else◌};
ghost use Rattle.std.proofs.Common.{lit<};
ghost use Rattle.hosts.specs.Words.{shown_below};
ghost use Rattle.hosts.specs.Pulses.{covered, turn_of, sorted, set_to, bad_pulse, first_bad, Found, Current, Over};

use crate::host::{HORIZON, PinHost, capped};
use crate::pulse::Pulse;
use crate::word::PinWord;
use faults::Fault;

// The most pulses of a list.
const MOST: usize = 4096;

// A word in each pulse of a list in the caller's memory, and 0 between them.
#[derive(Drop)]
pub struct PulseList<'a> {
    word: PinWord,
    pulses: &'a [Pulse],
    ghost apart: { sorted pulses.now ≡ true },
}

// The number of the first bad pulse, if any.
fn first_bad(pulses: &[Pulse]) -> Option<u16>
    requires { length pulses.now ≤ 4096 }
    ensures { result ≡ first_bad pulses.now }
{
    let mut least = 0;
    for (i, p) in pulses.iter().enumerate() {
        if !p.is_fair(least) {
            return Some(i as u16);
        }
        least = p.end() + 1;
    }
    None
}

// The number that a list is refused for, if any: its first bad pulse, or one past the most pulses of a list.
fn bad_pulse(pulses: &[Pulse]) -> Option<u16>
    ensures { result ≡ bad_pulse pulses.now }
{
    if pulses.len() > MOST {
        return Some(MOST as u16);
    }
    first_bad(pulses)
}

impl<'a> PulseList<'a> {
    // No pulse, and word 0.
    pub fn new() -> Self
        ensures word { result.word.bits ≡ 0 }
        ensures pulses { result.pulses.now ≡ [] }
    {
        PulseList {
            word: PinWord::new(0),
            pulses: &[],
        }
    }

    // Another word and list in the place of the old, which stay where the new list is refused.
    pub fn set(&mut self, word: u16, pulses: &'a [Pulse]) -> Result<(), Fault>
        ensures { (result, self.new.word.bits, self.new.pulses.now) ≡ set_to self.old.word.bits self.old.pulses.now word pulses.now }
    {
        if let Some(pair) = bad_pulse(pulses) {
            return Err(Fault::BadPulseList { pair });
        }
        *self = PulseList {
            word: PinWord::new(word),
            pulses,
        };
        Ok(())
    }

    // How many pulses end at t or before.
    fn ended(&self, t: u64) -> usize
        ensures { Found self.now.pulses.now t result }
    {
        self.pulses.partition_point(|p| p.has_ended(t))
    }

    // The first pulse that ends after t, if any.
    fn current(&self, t: u64) -> Option<&Pulse>
        ensures { MatchOption result (Over self.now.pulses.now t) (λ p. Current self.now.pulses.now p.now t) }
    {
        self.pulses.get(self.ended(t))
    }
}

impl PinHost for PulseList<'_> {
    ghost meaning = { λ s t. (if covered s.pulses.now t then s.word.bits else 0) };

    ghost mark = { λ s t. turn_of s.pulses.now t };

    ghost words = { λ s t. shown_below (covered s.pulses.now t) s.word.bits 0 s.word.pins (lit< tt) };

    fn levels(&self, t: u64) -> u16 {
        let covered = self.current(t).is_some_and(|p| p.offset <= t);
        self.word.shown(t < HORIZON && covered)
    }

    #[tactic(auto, using(crate::proofs::Pulsing::pulses_lawful))]
    fn quiet_mark(&self, t: u64) -> Option<u64> {
        capped(self.current(t)?.turn_after(t))
    }
}
