// Ticks, in which the bench counts time. A tick is one period of the chip's oscillator.
#![tactic(auto)]

ghost use Rattle.std.specs.Prelude.{◌≡◌};
ghost use Rattle.ticks.specs.Ticks.{sooner};

// The sooner of two ticks, or the fewer of two numbers of ticks, where none is no bound.
pub fn sooner(a: Option<u64>, b: Option<u64>) -> Option<u64>
    ensures { result ≡ sooner a b }
{
    match (a, b) {
        (Some(u), Some(v)) => Some(u.min(v)),
        (bound, None) | (None, bound) => bound,
    }
}
