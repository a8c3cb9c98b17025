ghost use Rattle.std.specs.Prelude.{◌≡◌, ℕ, ◌%◌, ◌^◌, None};

use crate::host::{HORIZON, PinHost};
use crate::word::PinWord;

// One word at every tick.
#[derive(Drop)]
pub struct Steady {
    word: PinWord,
}

impl Steady {
    pub fn new(word: u16) -> Self
        ensures { result.word.bits ≡ word % 2 ^ 15 }
    {
        Steady {
            word: PinWord::new(word),
        }
    }
}

impl PinHost for Steady {
    ghost meaning = { λ s t. s.word.bits };

    ghost mark = { λ s t. None };

    ghost words = { λ s t. s.word.pins };

    fn levels(&self, t: u64) -> u16 {
        self.word.shown(t < HORIZON)
    }

    fn quiet_mark(&self, _t: u64) -> Option<u64> {
        None
    }
}
