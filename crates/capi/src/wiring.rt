ghost use Rattle.std.specs.Prelude.{◌≡◌, ◌+◌, ◌*◌, ◌≤◌, ◌%◌, ◌^◌, length, true, false, IfOk, OnErr, MatchResult};
ghost use Rattle.hosts.specs.Waves.{wave_fits};
ghost use Rattle.capi.specs.Playing.{played_of, Room, Wrote};
ghost use Rattle.capi.specs.Describing.{pulses_of};
ghost use Rattle.capi.specs.Wirings.{meaning_of, has_pulses};

use crate::answer::Answer;
use crate::description::Description;
use crate::experiment::{PULSES, Wave, Wiring};
use crate::play::play_before;
use faults::Fault;
use hosts::join::Join;
use hosts::pulse::Pulse;
use hosts::pulses::PulseList;
use hosts::steady::Steady;
use hosts::wave::SquareWave;

// What stands where no pulse is read: a pulse has no default, since one without a tick is bad.
const NO_PULSE: Pulse = Pulse {
    offset: 0,
    length: 0,
};

fn wave_of(wave: Wave) -> Result<SquareWave, Fault>
    ensures { MatchResult result (λ s. (s.word.bits ≡ wave.word % 2 ^ 15) × (s.low ≡ wave.low) × (s.high ≡ wave.high)) (λ e. (wave_fits wave.low wave.high ≡ false) × (e ≡ Fault.WaveOutOfRange)) }
{
    SquareWave::new(wave.word, wave.low as u64, wave.high as u64)
}

// The list of a description's pulses, which are read into places for them.
fn list_of<'a>(
    description: &Description,
    places: &'a mut [Pulse; PULSES],
) -> Result<PulseList<'a>, Fault>
    ensures { IfOk result (λ s. (s.word.bits ≡ description.now.experiment.pulses % 2 ^ 15) × (s.pulses.now ≡ pulses_of description.now.bytes.now description.now.experiment.sizes.pulses)) }
{
    let told = description.experiment;
    let pulses = &mut places[..told.sizes.pulses as usize];
    description.read_pulses(pulses);
    let mut list = PulseList::new();
    list.set(told.pulses, pulses)?;
    Ok(list)
}

// Plays a description before its pulses and the hosts that it joins with them. Only here is there an array for pulses, of which
// the list takes its places: nothing is allocated.
fn play_pulses(
    description: &Description,
    answers: &mut [Answer],
    fields: &mut [u8],
    lines: &mut [u8],
) -> Result<usize, Fault>
    requires room { Room description.now.experiment.sizes (length answers.old) (length fields.old) (length lines.old) }
    requires pulses { has_pulses description.now.experiment.wiring ≡ true }
    ensures played { IfOk result (λ n. Wrote description.now.experiment.sizes (played_of description.now.bytes.now description.now.experiment.sizes (meaning_of description.now.bytes.now description.now.experiment)) answers.old answers.new fields.old fields.new lines.old lines.new n) }
    ensures refused { OnErr result ((answers.new ≡ answers.old) × (fields.new ≡ fields.old) × (lines.new ≡ lines.old)) }
{
    let told = description.experiment;
    let mut places = [NO_PULSE; PULSES];
    let list = list_of(description, &mut places)?;
    match told.wiring {
        Wiring::Pulses => Ok(play_before(description, &list, answers, fields, lines)),
        Wiring::PulsesAndWave => {
            let right = wave_of(told.first)?;
            let host = Join { left: list, right };
            Ok(play_before(description, &host, answers, fields, lines))
        }
        Wiring::All => {
            let first = wave_of(told.first)?;
            let second = wave_of(told.second)?;
            let left = Join {
                left: Steady::new(told.steady),
                right: list,
            };
            let right = Join {
                left: first,
                right: second,
            };
            let host = Join { left, right };
            Ok(play_before(description, &host, answers, fields, lines))
        }
        Wiring::Steady | Wiring::Wave => unreachable!(),
    }
}

// Plays a description before the hosts that it wires. A host that is refused is told before anything is written.
pub(crate) fn play_wired(
    description: &Description,
    answers: &mut [Answer],
    fields: &mut [u8],
    lines: &mut [u8],
) -> Result<usize, Fault>
    requires room { Room description.now.experiment.sizes (length answers.old) (length fields.old) (length lines.old) }
    ensures played { IfOk result (λ n. Wrote description.now.experiment.sizes (played_of description.now.bytes.now description.now.experiment.sizes (meaning_of description.now.bytes.now description.now.experiment)) answers.old answers.new fields.old fields.new lines.old lines.new n) }
    ensures refused { OnErr result ((answers.new ≡ answers.old) × (fields.new ≡ fields.old) × (lines.new ≡ lines.old)) }
{
    let told = description.experiment;
    match told.wiring {
        Wiring::Steady => {
            let steady = Steady::new(told.steady);
            Ok(play_before(description, &steady, answers, fields, lines))
        }
        Wiring::Wave => {
            let wave = wave_of(told.first)?;
            Ok(play_before(description, &wave, answers, fields, lines))
        }
        Wiring::Pulses | Wiring::PulsesAndWave | Wiring::All => {
            play_pulses(description, answers, fields, lines)
        }
    }
}
