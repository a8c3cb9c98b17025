ghost use Rattle.std.specs.Prelude.{◌≡◌, ◌<◌, ◌^◌};
ghost use Rattle.ports.specs.Ports.{bit_of};

// Whether a bit of a word is set, by its number.
pub(crate) fn has_bit(word: u16, bit: u32) -> bool
    requires { bit < 16 }
    ensures { result ≡ bit_of (2 ^ bit) word }
{
    word >> bit & 1 == 1
}
