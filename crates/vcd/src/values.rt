ghost use Rattle.std.specs.Prelude.{Some, ◌≡◌, ◌+◌, ◌≤◌, ◌++◌};
ghost use Rattle.arrayvec.specs.ArrayVec.{array_vec_len};
ghost use Rattle.vcd.specs.Signals.{first_id};
ghost use Rattle.vcd.specs.Values.{bit_line, bit_lines, pin_lines, mode_line};

use crate::signal::{Id, PINS, Signal};
use arrayvec::ArrayVec;
use recorder::mode::Mode;
use recorder::pin_sample::PinSample;
use std::fmt;

// The lines of pins, of three bytes each. They are put together as bytes and written at once: with a `write!` for each of them
// a file took twice the time.
type Lines = ArrayVec<u8, 90>;

// Adds the line of the lowest bit of a word, if the lowest bit of `which` is set.
fn add_bit(lines: &mut Lines, id: Id, word: u16, which: u16)
    requires { array_vec_len lines.old + 3 ≤ 90 }
    ensures added { lines.new.items ≡ lines.old.items ++ bit_line id.code word which }
    ensures short { array_vec_len lines.new ≤ array_vec_len lines.old + 3 }
{
    if which % 2 == 1 {
        lines.push(b'0' + (word % 2) as u8);
        lines.push(id.code());
        lines.push(b'\n');
    }
}

// Adds the lines of the pins' bits of a word that are set in `which`.
fn add_bits(lines: &mut Lines, signal: Signal, word: u16, which: u16)
    requires { array_vec_len lines.old + 45 ≤ 90 }
    ensures added { lines.new.items ≡ lines.old.items ++ bit_lines 15 (first_id signal) word which }
    ensures short { array_vec_len lines.new ≤ array_vec_len lines.old + 45 }
{
    for pin in 0..PINS {
        add_bit(lines, signal.id(pin), word >> pin, which >> pin);
    }
}

// The levels and drives of the pins that are set in `which`.
#[derive(Clone, Copy)]
pub(crate) struct PinValues {
    pub(crate) sample: PinSample,
    pub(crate) which: PinSample,
}

impl fmt::Display for PinValues {
    ghost output = { λ p. Some (pin_lines p.sample p.which) };

    fn fmt<W: fmt::Write>(&self, f: &mut fmt::Formatter<W>) -> fmt::Result {
        let mut lines = Lines::new();
        add_bits(
            &mut lines,
            Signal::Level,
            self.sample.levels,
            self.which.levels,
        );
        add_bits(
            &mut lines,
            Signal::Drive,
            self.sample.drive,
            self.which.drive,
        );
        let Ok(text) = str::from_utf8(lines.as_slice()) else {
            unreachable!()
        };
        f.write_str(text)
    }
}

// The value of a mode, the code of its letter in binary digits.
#[derive(Clone, Copy)]
pub(crate) struct ModeValue(pub(crate) Mode);

impl fmt::Display for ModeValue {
    ghost output = { λ m. Some (mode_line m.0) };

    fn fmt<W: fmt::Write>(&self, f: &mut fmt::Formatter<W>) -> fmt::Result {
        let letter = self.0.letter();
        writeln!(f, "b{letter:08b} m")
    }
}
