ghost use Rattle.std.specs.Prelude.{◌≡◌, ◌^◌, ◌<◌, nat_le};
ghost use Rattle.hosts.specs.Pulses.{end_of, fair, turn_in};

use crate::host::HORIZON;

// A pulse shows from tick `offset` to tick `offset + length - 1`.
#[derive(Clone, Copy, PartialEq, Eq, Debug)]
pub struct Pulse {
    pub offset: u64,
    pub length: u64,
}

impl Pulse {
    // The tick after its last.
    pub(crate) fn end(&self) -> u64
        requires { end_of self.now < 2 ^ 64 }
        ensures { result ≡ end_of self.now }
    {
        self.offset + self.length
    }

    // Whether it has ended by tick t.
    pub(crate) fn has_ended(&self, t: u64) -> bool
        ensures { result ≡ nat_le (end_of self.now) t }
    {
        t >= self.offset && t - self.offset >= self.length
    }

    // Whether it begins at `least` or later, has a tick and ends in time.
    pub(crate) fn is_fair(&self, least: u64) -> bool
        ensures { result ≡ fair least self.now }
    {
        least <= self.offset
            && self.length >= 1
            && self.offset <= HORIZON
            && self.length <= HORIZON - self.offset
    }

    // Its start where that is above t, else its end.
    pub(crate) fn turn_after(&self, t: u64) -> u64
        requires { end_of self.now < 2 ^ 64 }
        ensures { result ≡ turn_in self.now t }
    {
        if t < self.offset {
            self.offset
        } else {
            self.end()
        }
    }
}
