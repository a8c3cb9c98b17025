ghost use Rattle.recorder.specs.Samples.{pin_kind, pin_script};

use crate::stretch::{Sample, TEXT};
use crate::texts::hex4;

// The pins at a tick, a bit each: their levels, and which of them the chip drives.
#[derive(Clone, Copy, PartialEq, Eq, Default, Debug)]
pub struct PinSample {
    pub levels: u16,
    pub drive: u16,
}

impl Sample for PinSample {
    ghost kind = { pin_kind };

    ghost script = { pin_script };

    fn is_like(&self, other: &PinSample) -> bool {
        self == other
    }

    fn letter() -> u8 {
        b'P'
    }

    fn write_text(&self, out: &mut [u8; TEXT]) -> usize {
        let [a, b, c, d] = hex4(self.levels);
        let [e, f, g, h] = hex4(self.drive);
        let text = [a, b, c, d, b' ', e, f, g, h];
        out[..text.len()].copy_from_slice(&text);
        text.len()
    }
}
