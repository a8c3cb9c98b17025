ghost use Rattle.std.specs.Prelude.{Some};
ghost use Rattle.recording.specs.Messages.{reason_text, wrong_text};

use std::fmt;

// Why a line is wrong.
#[derive(Clone, Copy, PartialEq, Eq, Debug)]
pub enum Reason {
    UnknownLine,
    BadTicks,
    TwoTicks,
    BadWord,
    TwoWords,
    BadPulse,
    NoWord,
    BadWave,
    TwoWaves,
    NoTicks,
}

// The first wrong line of a text. Lines are numbered from 1.
#[derive(Clone, Copy, PartialEq, Eq, Debug)]
pub struct WrongLine {
    pub line: u64,
    pub reason: Reason,
}

impl fmt::Display for Reason {
    ghost output = { λ r. Some (reason_text r) };

    fn fmt<W: fmt::Write>(&self, f: &mut fmt::Formatter<W>) -> fmt::Result {
        f.write_str(match *self {
            Reason::UnknownLine => "expected 'ticks', 'word', 'pulse', 'wave' or a comment",
            Reason::BadTicks => "expected 'ticks N' with a number of at most 2^48",
            Reason::TwoTicks => "a second 'ticks' line",
            Reason::BadWord => "expected 'word WWWW' with one to four hexadecimal digits",
            Reason::TwoWords => "a second 'word' line",
            Reason::BadPulse => "expected 'pulse OFFSET LENGTH' with two numbers",
            Reason::NoWord => "a 'pulse' line with no 'word' line above it",
            Reason::BadWave => "expected 'wave WWWW LOW HIGH' with a word and two numbers",
            Reason::TwoWaves => "a second 'wave' line",
            Reason::NoTicks => "the 'ticks' line is missing",
        })
    }
}

impl fmt::Display for WrongLine {
    ghost output = { λ w. Some (wrong_text w) };

    fn fmt<W: fmt::Write>(&self, f: &mut fmt::Formatter<W>) -> fmt::Result {
        let line = self.line;
        let reason = self.reason;
        write!(f, "line {line}: {reason}")
    }
}
