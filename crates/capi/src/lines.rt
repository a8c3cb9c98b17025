ghost use Rattle.std.specs.Prelude.{◌≡◌, ◌*◌, ◌≤◌, length};
ghost use Rattle.std.specs.List.{flat_map};
ghost use Rattle.recorder.specs.Lines.{line_of, texted};

use recorder::lines::{LINE, line};
use recorder::stretch::{Sample, Stretch};

// Writes the line of a stretch over the start of a buffer, and answers its length.
fn put_line<S: Sample>(stretch: &Stretch<S>, lines: &mut [u8]) -> usize
    requires { 64 ≤ length lines.old }
    ensures written { (result, lines.new) ≡ texted (line_of S.script stretch.now) lines.old }
    ensures fits { result ≤ 64 }
{
    line(stretch, lines).unwrap()
}

// Writes the lines of stretches, one after the other, over the start of a buffer, and answers their length.
pub(crate) fn put_lines<S: Sample>(stretches: &[Stretch<S>], lines: &mut [u8]) -> usize
    requires { 64 * length stretches.now ≤ length lines.old }
    ensures written { (result, lines.new) ≡ texted (flat_map (line_of S.script) stretches.now) lines.old }
    ensures fits { result ≤ 64 * length stretches.now }
{
    let mut end = 0;
    for stretch in stretches {
        end += put_line(stretch, &mut lines[end..]);
    }
    end
}
