ghost use Rattle.std.specs.Prelude.{◌≡◌, ◌<◌, ◌≤◌};
ghost use Rattle.counters.specs.Counting.{counted, gap};

// The bounds of M stand with each function over it, since a const parameter carries no fact.

// A count modulo M after a pulse, which takes one at its limit to 0.
pub(crate) fn counted<const M: u16>(limit: u8, count: u8) -> u8
    requires some { 0 < M }
    requires byte { M ≤ 256 }
    ensures { result ≡ counted M limit count }
{
    if count == limit {
        0
    } else {
        ((count as u16 + 1) % M) as u8
    }
}

// The pulses before the one at which a count modulo M matches its limit.
pub(crate) fn gap<const M: u16>(limit: u8, count: u8) -> u8
    requires some { 0 < M }
    requires byte { M ≤ 256 }
    ensures { result ≡ gap M limit count }
{
    ((limit as u16 + M - count as u16 % M) % M) as u8
}
