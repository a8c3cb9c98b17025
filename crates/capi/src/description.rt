ghost use Rattle.std.specs.Prelude.{◌≡◌, ◌+◌, ◌*◌, ◌<◌, ◌≤◌, length, Some, None, MatchResult};
ghost use Rattle.capi.specs.Describing.{described, image_of, ram_of, pulse_of, pulses_of, asked_of};

use crate::bytes::{bytes_at, quad_at};
use crate::experiment::{Asked, BODY, CALL, Experiment, PULSE};
use crate::refusal::Refusal;
use bench::calls::RAM;
use bench::run::IMAGE;
use hosts::pulse::Pulse;

// A good description.
#[derive(Clone, Copy)]
pub(crate) struct Description<'a> {
    bytes: &'a [u8],
    pub(crate) experiment: Experiment,
    ghost said: { described bytes.now ≡ Some experiment },
    ghost pins: { experiment.sizes.pins ≤ 2048 },
    ghost modes: { experiment.sizes.modes ≤ 2048 },
    ghost pulses: { experiment.sizes.pulses ≤ 4096 },
    ghost long: { length bytes.now ≡ 2210 + 16 * experiment.sizes.pulses + 10 * experiment.sizes.calls },
}

impl<'a> Description<'a> {
    // The description that these bytes are, if it is a good one.
    pub(crate) fn read(bytes: &'a [u8]) -> Result<Self, Refusal>
        ensures { MatchResult result (λ d. d.bytes.now ≡ bytes.now) (λ r. (described bytes.now ≡ None) × (r ≡ Refusal.BadDescription)) }
    {
        let experiment = Experiment::read(bytes)?;
        Ok(Description { bytes, experiment })
    }

    // The image, or all of it but the last byte.
    pub(crate) fn image(&self, short: bool) -> &'a [u8]
        ensures { result.now ≡ image_of short self.now.bytes.now }
    {
        let bytes = if short { IMAGE - 1 } else { IMAGE };
        &self.bytes[..bytes]
    }

    // The starting RAM.
    pub(crate) fn ram(&self) -> [u8; RAM]
        ensures { result ≡ ram_of self.now.bytes.now }
    {
        bytes_at(self.bytes, IMAGE)
    }

    fn pulse(&self, k: usize) -> Pulse
        requires { k < self.now.experiment.sizes.pulses }
        ensures { result ≡ pulse_of self.now.bytes.now k }
    {
        let at = BODY + PULSE * k;
        Pulse {
            offset: quad_at(self.bytes, at),
            length: quad_at(self.bytes, at + 8),
        }
    }

    // Writes the pulses into a slice of just as many.
    pub(crate) fn read_pulses(&self, pulses: &mut [Pulse])
        requires { length pulses.old ≡ self.now.experiment.sizes.pulses }
        ensures { pulses.new ≡ pulses_of self.now.bytes.now self.now.experiment.sizes.pulses }
    {
        for (k, pulse) in pulses.iter_mut().enumerate() {
            *pulse = self.pulse(k);
        }
    }

    // Call k.
    pub(crate) fn asked(&self, k: usize) -> Asked
        requires { k < self.now.experiment.sizes.calls }
        ensures { result ≡ asked_of self.now.bytes.now self.now.experiment.sizes k }
    {
        let pulses = self.experiment.sizes.pulses as usize;
        Asked::at(self.bytes, BODY + PULSE * pulses + CALL * k)
    }
}
