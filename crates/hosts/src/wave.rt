ghost use Rattle.std.specs.Prelude.{◌≡◌, ℕ, ◌+◌, ◌%◌, ◌^◌, ◌<◌, true, false, MatchResult, nat_lt};
ghost use Rattle.std.proofs.Common.{lit<};
ghost use Rattle.hosts.specs.Marks.{capped};
ghost use Rattle.hosts.specs.Words.{shown_below};
ghost use Rattle.hosts.specs.Waves.{wave_at, turn_after, may_last, wave_fits};

use crate::host::{HORIZON, PinHost, capped};
use crate::word::PinWord;
use faults::Fault;

// The most ticks that a wave stays low or high, 2^20.
const LONGEST: u64 = 1 << 20;

// From tick 0, `low` ticks of 0 and `high` ticks of the word, repeated.
#[derive(Drop)]
pub struct SquareWave {
    word: PinWord,
    low: u64,
    high: u64,
    ghost fits: { wave_fits low high ≡ true },
}

// Whether a wave may be low, or high, for so many ticks.
fn may_last(ticks: u64) -> bool
    ensures { result ≡ may_last ticks }
{
    (1..=LONGEST).contains(&ticks)
}

impl SquareWave {
    // A wave, unless `low` or `high` is out of its range.
    pub fn new(word: u16, low: u64, high: u64) -> Result<Self, Fault>
        ensures { MatchResult result (λ s. (wave_fits low high ≡ true) × (s.word.bits ≡ word % 2 ^ 15) × (s.low ≡ low) × (s.high ≡ high)) (λ e. (wave_fits low high ≡ false) × (e ≡ Fault.WaveOutOfRange)) }
    {
        if !(may_last(low) && may_last(high)) {
            return Err(Fault::WaveOutOfRange);
        }
        Ok(SquareWave {
            word: PinWord::new(word),
            low,
            high,
        })
    }

    // The ticks of one low and one high.
    fn period(&self) -> u64
        ensures { result ≡ self.now.low + self.now.high }
    {
        self.low + self.high
    }

    // The next turn above t.
    fn next_turn(&self, t: u64) -> u64
        requires { t < 2 ^ 48 }
        ensures { result ≡ turn_after self.now.low self.now.high t }
    {
        let period = self.period();
        let phase = t % period;
        let begun = t - phase;
        if phase < self.low {
            begun + self.low
        } else {
            begun + period
        }
    }
}

impl PinHost for SquareWave {
    ghost meaning = { λ s. wave_at s.word.bits s.low s.high };

    ghost mark = { λ s t. capped (turn_after s.low s.high t) };

    ghost words = { λ s t. shown_below (nat_lt (t % (s.low + s.high)) s.low) 0 s.word.bits (lit< tt) s.word.pins };

    fn levels(&self, t: u64) -> u16 {
        self.word
            .shown(t < HORIZON && t % self.period() >= self.low)
    }

    #[tactic(auto, using(crate::proofs::Turns::wave_lawful))]
    fn quiet_mark(&self, t: u64) -> Option<u64> {
        if t >= HORIZON {
            return None;
        }
        capped(self.next_turn(t))
    }
}
