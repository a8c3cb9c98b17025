ghost use Rattle.std.specs.Prelude.{◌≡◌, ◌^◌, nat_lt, if◌then◌else◌, Some, None};
ghost use Rattle.recorder.specs.Charts.{end};
ghost use Rattle.recorder.specs.Kinds.{Kind, Script};
ghost use Rattle.recorder.specs.Lines.{texted};

use crate::texts::add;
use arrayvec::ArrayVec;

// A longest row of alike samples: `length` ticks from tick `offset` on.
#[derive(Clone, Copy, PartialEq, Eq, Default, Debug)]
pub struct Stretch<S> {
    pub offset: u64,
    pub length: u64,
    pub sample: S,
}

impl<S> Stretch<S> {
    // The tick after its last, where 64 bits hold it.
    pub(crate) fn end(&self) -> Option<u64>
        ensures { result ≡ (if nat_lt (end self.now) (2 ^ 64) then Some (end self.now) else None) }
    {
        self.offset.checked_add(self.length)
    }
}

// The most bytes of a sample's text.
pub const TEXT: usize = 19;

// What is sampled once a tick: it tells likeness, and its text in a line.
pub trait Sample: Copy {
    // Likeness, with the proof that it is equality in all parts.
    ghost kind: { Kind Self };

    // The letter of its lines, and the text of each sample.
    ghost script: { Script Self };

    fn is_like(&self, other: &Self) -> bool
        ensures { result ≡ kind.like self.now other.now };

    fn letter() -> u8
        ensures { result ≡ script.letter };

    // Writes the text over the start of `out`, and answers its length.
    fn write_text(&self, out: &mut [u8; TEXT]) -> usize
        ensures { (result, out.new) ≡ texted (script.text self.now) out.old };

    // The text as a value.
    fn text(&self) -> ArrayVec<u8, TEXT>
        ensures { result.items ≡ script.text self.now }
    {
        let mut out = [0; TEXT];
        let length = self.write_text(&mut out);
        let mut text = ArrayVec::new();
        add(&mut text, &out[..length]);
        text
    }
}
