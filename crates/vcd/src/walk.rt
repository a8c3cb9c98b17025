ghost use Rattle.std.specs.Prelude.{◌≡◌, Some};
ghost use Rattle.std.specs.Iterator.{YieldsFirst, item_count};
ghost use Rattle.vcd.specs.Changes.{next_or, sample_at, past, change_text, changes_left, walk_text};

use crate::values::{ModeValue, PinValues};
use recorder::mode::Mode;
use recorder::pin_sample::PinSample;
use recorder::stretch::Stretch;
use std::fmt;

// The tick at which the first stretch begins, or `end` if there is none.
fn next_or<S>(end: u64, stretches: &[Stretch<S>]) -> u64
    ensures { result ≡ next_or end stretches.now }
{
    match stretches {
        [] => end,
        [first, ..] => first.offset,
    }
}

// The sample of the first stretch, if it begins at a tick.
fn sample_at<S: Copy>(tick: u64, stretches: &[Stretch<S>]) -> Option<S>
    ensures { result ≡ sample_at tick stretches.now }
{
    match stretches {
        [first, ..] if first.offset == tick => Some(first.sample),
        _ => None,
    }
}

// The stretches without the first if it begins at a tick.
fn past_tick<S>(tick: u64, stretches: &[Stretch<S>]) -> &[Stretch<S>]
    ensures { result.now ≡ past tick stretches.now }
{
    match stretches {
        [first, rest @ ..] if first.offset == tick => rest,
        _ => stretches,
    }
}

// What changes at a tick: what the pins show before and at it, and the mode that begins.
#[derive(Clone, Copy)]
pub(crate) struct Change {
    tick: u64,
    before: PinSample,
    shown: PinSample,
    mode: Option<Mode>,
}

impl fmt::Display for Change {
    ghost output = { λ c. Some (change_text c) };

    fn fmt<W: fmt::Write>(&self, f: &mut fmt::Formatter<W>) -> fmt::Result {
        let tick = self.tick;
        let pins = PinValues {
            sample: self.shown,
            which: PinSample {
                levels: self.before.levels ^ self.shown.levels,
                drive: self.before.drive ^ self.shown.drive,
            },
        };
        write!(f, "#{tick}\n{pins}")?;
        match self.mode {
            Some(mode) => write!(f, "{}", ModeValue(mode)),
            None => Ok(()),
        }
    }
}

// The changes at each tick at which a stretch begins, up to `end`. Before the first one the pins show `shown`.
// It holds two slices and no `Peekable`: a slice shows its first stretch with no peeked one kept beside it.
#[derive(Clone, Copy)]
pub(crate) struct Walk<'a> {
    pub(crate) end: u64,
    pub(crate) shown: PinSample,
    pub(crate) pins: &'a [Stretch<PinSample>],
    pub(crate) modes: &'a [Stretch<Mode>],
}

impl<'a> Iterator for Walk<'a> {
    type Item = Change;

    ghost next_gives = { YieldsFirst changes_left };

    ghost remaining = { item_count changes_left };

    fn next(&mut self) -> Option<Change> {
        let tick = next_or(self.end, self.pins).min(next_or(self.end, self.modes));
        if tick >= self.end {
            return None;
        }
        let before = self.shown;
        let shown = sample_at(tick, self.pins).unwrap_or(before);
        let mode = sample_at(tick, self.modes);
        self.shown = shown;
        self.pins = past_tick(tick, self.pins);
        self.modes = past_tick(tick, self.modes);
        Some(Change {
            tick,
            before,
            shown,
            mode,
        })
    }
}

impl fmt::Display for Walk<'_> {
    ghost output = { λ w. Some (walk_text w) };

    fn fmt<W: fmt::Write>(&self, f: &mut fmt::Formatter<W>) -> fmt::Result {
        for change in *self {
            write!(f, "{change}")?;
        }
        let end = self.end;
        writeln!(f, "#{end}")
    }
}
