// Recorded pins as text. Each line ends with the byte 0A, which the last one may lack. The fields of a line are
// the longest rows of bytes other than the space. A line without a field, or whose first field begins with '#',
// says nothing; any other is one of these, with N, OFFSET, LENGTH, LOW and HIGH in base ten and WWWW a word of
// one to four hexadecimal digits:
//
//     ticks N               how many ticks are charted, at most 2^48: exactly one line
//     word WWWW             the pin word of the pulses: at most one line
//     pulse OFFSET LENGTH   one pulse of the list, in the order of the lines, below the `word` line
//     wave WWWW LOW HIGH    a square wave: at most one line
//
// OFFSET, LENGTH, LOW and HIGH are below 2^64. Whether a host takes these pulses and this wave is not tested here.
#![tactic(auto)]

ghost use Rattle.std.specs.Prelude.{◌≡◌, Some};
ghost use Rattle.std.specs.Result.{result_map_both};
ghost use Rattle.recording.specs.Messages.{error_text};
ghost use Rattle.recording.specs.Read.{unless, noted, step_of, Answers, read_all};
ghost use Rattle.recording.specs.declared.TextError.TheVariants.{Wrong, OutOfMemory};

use crate::line::{Line, read_line};
use crate::pieces::lines;
use hosts::pulse::Pulse;
use std::alloc::{AllocFailed, Global};
use std::fmt;

mod line;
mod numbers;
mod pieces;
pub mod wrong;

pub use crate::wrong::{Reason, WrongLine};

// A square wave: its pin word, and the ticks that it stays low and high.
#[derive(Clone, Copy, PartialEq, Eq, Debug)]
pub struct Wave {
    pub word: u16,
    pub low: u64,
    pub high: u64,
}

// What a text describes. Without a `word` line the word is 0, and there is no pulse.
#[derive(Drop)]
pub struct Recording {
    pub ticks: u64,
    pub word: u16,
    pub pulses: Vec<Pulse>,
    pub wave: Option<Wave>,
}

// Why a text is not read.
#[derive(Clone, Copy, Debug)]
pub enum TextError {
    Wrong(WrongLine),
    OutOfMemory,
}

impl<T: Drop> From<AllocFailed<T>> for TextError {
    ghost from_gives = { λ _ r. r ≡ OutOfMemory };

    fn from(_refused: AllocFailed<T>) -> TextError {
        TextError::OutOfMemory
    }
}

impl From<WrongLine> for TextError {
    ghost from_gives = { λ w r. r ≡ Wrong w };

    fn from(wrong: WrongLine) -> TextError {
        TextError::Wrong(wrong)
    }
}

impl fmt::Display for TextError {
    ghost output = { λ e. Some (error_text e) };

    fn fmt<W: fmt::Write>(&self, f: &mut fmt::Formatter<W>) -> fmt::Result {
        match self {
            TextError::Wrong(line) => write!(f, "{line}"),
            TextError::OutOfMemory => write!(f, "out of memory"),
        }
    }
}

// Gives a value once; a second one is wrong.
fn give_once<T: Drop>(slot: &mut Option<T>, value: T, why: Reason) -> Result<(), Reason>
    ensures { result_map_both (λ _. slot.new) (λ e. e) result ≡ unless slot.old (Some value) why }
{
    if slot.is_some() {
        return Err(why);
    }
    *slot = Some(value);
    Ok(())
}

// What the lines so far have said, but for their pulses.
#[derive(Clone, Copy, Default)]
struct Seen {
    ticks: Option<u64>,
    word: Option<u16>,
    wave: Option<Wave>,
}

impl Seen {
    // Notes one more line. Ticks, word and wave are given once, and a pulse stands below a word.
    fn note(&mut self, line: Line) -> Result<(), Reason>
        ensures { result_map_both (λ _. self.new) (λ e. e) result ≡ noted self.old line }
    {
        match line {
            Line::Skip => Ok(()),
            Line::Ticks(n) => give_once(&mut self.ticks, n, Reason::TwoTicks),
            Line::Word(w) => give_once(&mut self.word, w, Reason::TwoWords),
            Line::Pulse(_) => self.word.map(|_| ()).ok_or(Reason::NoWord),
            Line::Wave(w) => give_once(&mut self.wave, w, Reason::TwoWaves),
        }
    }

    // Reads one more line of bytes, and answers the pulse that it has.
    fn read(&mut self, bytes: &[u8]) -> Result<Option<Pulse>, Reason>
        ensures { result_map_both (λ p. (self.new, p)) (λ e. e) result ≡ step_of self.old bytes.now }
    {
        let line = read_line(bytes)?;
        self.note(line)?;
        match line {
            Line::Pulse(p) => Ok(Some(p)),
            _ => Ok(None),
        }
    }
}

// What a text describes, or its first wrong line. Without a `ticks` line that is the line after the last.
pub fn parse(heap: Global, text: &[u8]) -> Result<Recording, TextError>
    ensures { Answers result (read_all text.now) }
{
    let mut seen = Seen::default();
    let mut pulses = Vec::new(heap);
    // Counted here and not by `zip`, since a missing `ticks` line is told at the line after the last.
    let mut line = 1;
    for bytes in lines(text) {
        let pulse = seen
            .read(bytes)
            .map_err(|reason| WrongLine { line, reason })?;
        if let Some(p) = pulse {
            pulses.push(p)?;
        }
        line += 1;
    }
    let ticks = seen.ticks.ok_or(WrongLine {
        line,
        reason: Reason::NoTicks,
    })?;
    Ok(Recording {
        ticks,
        word: seen.word.unwrap_or(0),
        pulses,
        wave: seen.wave,
    })
}
