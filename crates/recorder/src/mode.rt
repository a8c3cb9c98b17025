ghost use Rattle.std.specs.Prelude.{◌≡◌};
ghost use Rattle.recorder.specs.Samples.{mode_letter, mode_kind, mode_script};

use crate::stretch::{Sample, TEXT};

// What the chip does at a tick: it runs, or sleeps with its wake-up timer counting, or sleeps with everything stopped.
#[derive(Clone, Copy, PartialEq, Eq, Default, Debug)]
pub enum Mode {
    #[default]
    Running,
    WakeUpTimer,
    Stopped,
}

impl Mode {
    // The letter that shows the mode in a line: R, W or S. The line's own letter is `Sample::letter`, M.
    pub fn letter(self) -> u8
        ensures { result ≡ mode_letter self }
    {
        match self {
            Mode::Running => b'R',
            Mode::WakeUpTimer => b'W',
            Mode::Stopped => b'S',
        }
    }
}

impl Sample for Mode {
    ghost kind = { mode_kind };

    ghost script = { mode_script };

    fn is_like(&self, other: &Mode) -> bool {
        self == other
    }

    fn letter() -> u8 {
        b'M'
    }

    fn write_text(&self, out: &mut [u8; TEXT]) -> usize {
        out[0] = self.letter();
        1
    }
}
