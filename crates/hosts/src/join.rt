ghost use Rattle.std.specs.Prelude.{bit_or};
ghost use Rattle.ticks.specs.Ticks.{sooner};
ghost use Rattle.hosts.specs.Words.{or_below};

use crate::host::PinHost;
use ticks::sooner;

// Two hosts on the same pins.
#[derive(Drop)]
pub struct Join<L, R> {
    pub left: L,
    pub right: R,
}

impl<L: PinHost, R: PinHost> PinHost for Join<L, R> {
    ghost meaning = { λ s t. bit_or (L.PinHost.meaning s.left t) (R.PinHost.meaning s.right t) };

    ghost mark = { λ s t. sooner (L.PinHost.mark s.left t) (R.PinHost.mark s.right t) };

    ghost words = { λ s t. or_below (L.PinHost.meaning s.left t) (R.PinHost.meaning s.right t) (L.PinHost.words s.left t) (R.PinHost.words s.right t) };

    fn levels(&self, t: u64) -> u16 {
        self.left.levels(t) | self.right.levels(t)
    }

    fn quiet_mark(&self, t: u64) -> Option<u64> {
        sooner(self.left.quiet_mark(t), self.right.quiet_mark(t))
    }
}
