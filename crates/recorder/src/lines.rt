ghost use Rattle.std.specs.Prelude.{◌≡◌, ◌+◌, ◌≤◌, ◌++◌, IfOk, decimal};
ghost use Rattle.arrayvec.specs.ArrayVec.{array_vec_len};
ghost use Rattle.recorder.specs.Lines.{start_of, line_of, fault_number, outcome_of, lined};

use crate::stretch::{Sample, Stretch};
use crate::texts::add;
use arrayvec::ArrayVec;
use faults::Fault;
use itoa::Buffer;

// The bytes that a line and its 0A fit in.
pub const LINE: usize = 64;

pub type Line = ArrayVec<u8, LINE>;

// Adds a number in base ten, without leading zeros.
fn add_number(line: &mut Line, n: u64)
    requires { array_vec_len line.old + 20 ≤ 64 }
    ensures added { line.new.items ≡ line.old.items ++ decimal n }
    ensures short { array_vec_len line.new ≤ array_vec_len line.old + 20 }
{
    let mut digits = Buffer::new();
    add(line, digits.format(n).as_bytes());
}

// A letter and two numbers, with a space between.
fn start(letter: u8, a: u64, b: u64) -> Line
    ensures bytes { result.items ≡ start_of letter a b }
    ensures short { array_vec_len result ≤ 43 }
{
    let mut line = Line::new();
    line.push(letter);
    line.push(b' ');
    add_number(&mut line, a);
    line.push(b' ');
    add_number(&mut line, b);
    line
}

// The line of a stretch and 0A.
pub fn stretch_text<S: Sample>(stretch: &Stretch<S>) -> Line
    ensures { result.items ≡ line_of S.script stretch.now }
{
    let mut line = start(S::letter(), stretch.offset, stretch.length);
    line.push(b' ');
    add(&mut line, stretch.sample.text().as_slice());
    line.push(b'\n');
    line
}

// The fault's number, 0 for none.
pub fn fault_number(fault: Option<Fault>) -> u8
    ensures { result ≡ fault_number fault }
{
    fault.map_or(0, |fault| fault.number())
}

// The line of a run's outcome and 0A: the ticks that were run, and the fault's number or 0.
pub fn outcome_text(ticks: u64, fault: Option<Fault>) -> Line
    ensures { result.items ≡ outcome_of ticks fault }
{
    let mut line = start(b'T', ticks, u64::from(fault_number(fault)));
    line.push(b'\n');
    line
}

// Writes a line at the buffer's start, keeps the rest, and answers its length.
fn write(line: &Line, buffer: &mut [u8]) -> Result<usize, Fault>
    ensures written { (result, buffer.new) ≡ lined line.now.items buffer.old }
    ensures fits { IfOk result (λ n. n ≤ 64) }
{
    if buffer.len() < LINE {
        return Err(Fault::ShortLineBuffer);
    }
    let bytes = line.as_slice();
    buffer[..bytes.len()].copy_from_slice(bytes);
    Ok(bytes.len())
}

// Writes the line of a stretch and 0A at the buffer's start, keeps the rest, and answers their length.
pub fn line<S: Sample>(stretch: &Stretch<S>, buffer: &mut [u8]) -> Result<usize, Fault>
    ensures written { (result, buffer.new) ≡ lined (line_of S.script stretch.now) buffer.old }
    ensures fits { IfOk result (λ n. n ≤ 64) }
{
    write(&stretch_text(stretch), buffer)
}

// Writes the outcome of a run and 0A in the same way: the ticks that were run, and the fault's number or 0.
pub fn outcome_line(ticks: u64, fault: Option<Fault>, buffer: &mut [u8]) -> Result<usize, Fault>
    ensures written { (result, buffer.new) ≡ lined (outcome_of ticks fault) buffer.old }
    ensures fits { IfOk result (λ n. n ≤ 64) }
{
    write(&outcome_text(ticks, fault), buffer)
}
