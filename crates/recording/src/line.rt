ghost use Rattle.std.specs.Prelude.{◌≡◌};
ghost use Rattle.std.specs.Option.{option_map};
ghost use Rattle.recording.specs.Pieces.{fields_of, fields_left};
ghost use Rattle.recording.specs.Lines.{only, ticks_of, word_of, pulse_of, wave_of, announced, line_of};

use crate::Wave;
use crate::numbers::{decimal, hex};
use crate::pieces::Fields;
use crate::wrong::Reason;
use hosts::host::HORIZON;
use hosts::pulse::Pulse;

// What a line says. `Skip` says nothing.
#[derive(Clone, Copy)]
pub(crate) enum Line {
    Skip,
    Ticks(u64),
    Word(u16),
    Pulse(Pulse),
    Wave(Wave),
}

// The only field, if there is one and no more.
fn only_field<'a>(mut fields: Fields<'a>) -> Option<&'a [u8]>
    ensures { option_map (λ x. x.now) result ≡ only (fields_left fields.entry) }
{
    let field = fields.next()?;
    match fields.next() {
        None => Some(field),
        Some(_) => None,
    }
}

// The fields of a `ticks` line after the first: N, at most 2^48.
fn read_ticks(fields: Fields<'_>) -> Option<u64>
    ensures { result ≡ ticks_of (fields_left fields.entry) }
{
    only_field(fields)
        .and_then(decimal)
        .filter(|n| *n <= HORIZON)
}

// Those of a `word` line: WWWW.
fn read_word(fields: Fields<'_>) -> Option<u16>
    ensures { result ≡ word_of (fields_left fields.entry) }
{
    only_field(fields).and_then(hex)
}

// Those of a `pulse` line: OFFSET and LENGTH.
fn read_pulse(mut fields: Fields<'_>) -> Option<Pulse>
    ensures { result ≡ pulse_of (fields_left fields.entry) }
{
    let offset = fields.next()?;
    let length = only_field(fields)?;
    Some(Pulse {
        offset: decimal(offset)?,
        length: decimal(length)?,
    })
}

// Those of a `wave` line: WWWW, LOW and HIGH.
fn read_wave(mut fields: Fields<'_>) -> Option<Wave>
    ensures { result ≡ wave_of (fields_left fields.entry) }
{
    let word = fields.next()?;
    let low = fields.next()?;
    let high = only_field(fields)?;
    Some(Wave {
        word: hex(word)?,
        low: decimal(low)?,
        high: decimal(high)?,
    })
}

// A line by its first field and the fields after it.
fn announced(first: &[u8], fields: Fields<'_>) -> Result<Line, Reason>
    ensures { result ≡ announced first.now (fields_left fields.entry) }
{
    match first {
        [b'#', ..] => Ok(Line::Skip),
        b"ticks" => read_ticks(fields).map(Line::Ticks).ok_or(Reason::BadTicks),
        b"word" => read_word(fields).map(Line::Word).ok_or(Reason::BadWord),
        b"pulse" => read_pulse(fields).map(Line::Pulse).ok_or(Reason::BadPulse),
        b"wave" => read_wave(fields).map(Line::Wave).ok_or(Reason::BadWave),
        _ => Err(Reason::UnknownLine),
    }
}

// What a line says by itself, whatever stands above it.
pub(crate) fn read_line(line: &[u8]) -> Result<Line, Reason>
    ensures { result ≡ line_of (fields_of line.now) }
{
    let mut fields = Fields::new(line);
    match fields.next() {
        None => Ok(Line::Skip),
        Some(first) => announced(first, fields),
    }
}
