ghost use Rattle.std.specs.Prelude.{◌≡◌};
ghost use Rattle.counters.specs.Counting.{awake};

use recorder::mode::Mode;

// Whether the chip runs, so that all its counters do.
pub(crate) fn is_awake(mode: Mode) -> bool
    ensures { result ≡ awake mode }
{
    mode == Mode::Running
}
