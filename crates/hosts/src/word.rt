ghost use Rattle.std.specs.Prelude.{◌≡◌, ◌%◌, ◌^◌, ◌<◌, if◌then◌else◌};

use crate::host::PINS;

// The word of a host: no bit of it is above the 15 pins.
#[derive(Clone, Copy)]
pub(crate) struct PinWord {
    bits: u16,
    ghost pins: { bits < 2 ^ 15 },
}

impl PinWord {
    // The bits of a word that have a pin.
    pub(crate) fn new(word: u16) -> Self
        ensures { result.bits ≡ word % 2 ^ 15 }
    {
        PinWord { bits: word & PINS }
    }

    // The word where it shows, and 0 elsewhere.
    pub(crate) fn shown(self, shows: bool) -> u16
        ensures { result ≡ (if shows then self.bits else 0) }
    {
        if shows { self.bits } else { 0 }
    }
}
