ghost use Rattle.std.specs.Prelude.{◌≡◌, ◌+◌, ◌<◌, ◌≤◌, [], ◌∷◌, Some};
ghost use Rattle.vcd.specs.Signals.{first_id, suffix};

use std::fmt;

// How many pins there are.
pub(crate) const PINS: u8 = 15;

// What the file says of each pin, in a variable of one bit: its level, and whether the chip drives it.
#[derive(Clone, Copy)]
pub(crate) enum Signal {
    Level,
    Drive,
}

impl Signal {
    // The code of the first pin's identifier.
    fn first(self) -> u8
        ensures value { result ≡ first_id self }
        ensures low { result ≤ 48 }
    {
        match self {
            Signal::Level => b'!',
            Signal::Drive => b'!' + PINS,
        }
    }

    // The identifier of a pin's variable: those of the pins follow one another.
    pub(crate) fn id(self, pin: u8) -> Id
        requires { pin < 15 }
        ensures { result.code ≡ first_id self + pin }
    {
        Id {
            code: self.first() + pin,
        }
    }

    // What follows a pin's name in that of its variable.
    pub(crate) fn suffix(self) -> &'static str
        ensures { result.now ≡ suffix self }
    {
        match self {
            Signal::Level => "",
            Signal::Drive => "_drive",
        }
    }
}

// An identifier: one ASCII character.
#[derive(Clone, Copy)]
pub(crate) struct Id {
    code: u8,
    ghost ascii: { code < 128 },
}

impl Id {
    pub(crate) fn code(self) -> u8
        ensures { result ≡ self.code }
    {
        self.code
    }
}

impl fmt::Display for Id {
    ghost output = { λ id. Some (id.code ∷ []) };

    fn fmt<W: fmt::Write>(&self, f: &mut fmt::Formatter<W>) -> fmt::Result {
        let character = char::from(self.code);
        write!(f, "{character}")
    }
}
