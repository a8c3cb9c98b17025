ghost use Rattle.std.specs.Prelude.{◌≡◌, ◌+◌, ◌<◌, ◌≤◌, ◌++◌, length};
ghost use Rattle.arrayvec.specs.ArrayVec.{array_vec_len};
ghost use Rattle.recorder.specs.Lines.{hex_digit, hex4};

use arrayvec::ArrayVec;

// Adds bytes to a text that has room for them. They are few, and one by one they take less time than a call that copies them.
pub(crate) fn add<const N: usize>(text: &mut ArrayVec<u8, N>, bytes: &[u8])
    requires { array_vec_len text.old + length bytes.now ≤ N }
    ensures { text.new.items ≡ text.old.items ++ bytes.now }
{
    for byte in bytes {
        text.push(*byte);
    }
}

// An upper-case hexadecimal digit.
fn hex_digit(d: u8) -> u8
    requires { d < 16 }
    ensures { result ≡ hex_digit d }
{
    b"0123456789ABCDEF"[usize::from(d)]
}

// A word in four of them.
pub(crate) fn hex4(w: u16) -> [u8; 4]
    ensures { result ≡ hex4 w }
{
    let [high, low] = w.to_be_bytes();
    [
        hex_digit(high / 16),
        hex_digit(high % 16),
        hex_digit(low / 16),
        hex_digit(low % 16),
    ]
}
