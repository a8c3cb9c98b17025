ghost use Rattle.std.specs.Prelude.{◌≡◌, ℕ, ◌^◌, ◌<◌, Option};
ghost use Rattle.hosts.specs.Marks.{level_at, Lawful, capped};

// The first tick past every host's meaning, 2^48. A tick is one period of the chip's oscillator.
pub const HORIZON: u64 = 1 << 48;

// The bits of a pin word that have a pin: RA0 to RA7, RB0 to RB4, RC0 and RC1, from bit 0 up.
pub const PINS: u16 = 0x7fff;

// What is wired to the pins. Asking a host neither changes it nor fails.
pub trait PinHost {
    // The meaning: the pin word at each tick.
    ghost meaning: { Self → ℕ → ℕ };

    // The quiet mark that is answered after each tick.
    ghost mark: { Self → ℕ → Option ℕ };

    // A pin word has 15 bits.
    ghost words: { (s : Self) (t : ℕ) → meaning s t < 2 ^ 15 };

    // The pin word at tick t, and 0 from the horizon on.
    fn levels(&self, t: u64) -> u16
        ensures { result ≡ level_at (meaning self.now) t };

    // The quiet mark after tick t: a later tick, below the horizon, before which the word stays as it is at t.
    // None only where it stays so up to the horizon.
    fn quiet_mark(&self, t: u64) -> Option<u64>
        ensures rule { Lawful (meaning self.now) t result }
        ensures value { result ≡ mark self.now t };
}

// A turn as a mark: none from the horizon on.
pub(crate) fn capped(turn: u64) -> Option<u64>
    ensures { result ≡ capped turn }
{
    (turn < HORIZON).then_some(turn)
}
