ghost use Rattle.std.specs.Prelude.{◌≡◌};
ghost use Rattle.cpu.specs.Effects.{added};

// A byte from this on is negative.
pub(crate) const SIGN: u8 = 0x80;
// Bytes count modulo 256.
const BYTE: u16 = 256;
// Their low four bits count modulo 16.
const NIBBLE: u8 = 16;

// A sum, with the flags that tell of it.
#[derive(Clone, Copy)]
pub(crate) struct Sum {
    pub(crate) value: u8,
    pub(crate) n: bool,
    pub(crate) v: bool,
    pub(crate) h: bool,
    pub(crate) z: bool,
    pub(crate) c: bool,
}

// left + right + carry. V is set where both have one sign and the sum the other, H where the low four bits carry.
pub(crate) fn add(left: u8, right: u8, carry: bool) -> Sum
    ensures { result ≡ added left right carry }
{
    let wide = left as u16 + right as u16 + carry as u16;
    let value = (wide % BYTE) as u8;
    Sum {
        value,
        n: value >= SIGN,
        v: (left >= SIGN) == (right >= SIGN) && (left >= SIGN) != (value >= SIGN),
        h: left % NIBBLE + right % NIBBLE + carry as u8 >= NIBBLE,
        z: value == 0,
        c: wide >= BYTE,
    }
}
