ghost use Rattle.std.specs.Prelude.{◌≡◌, ◌≢◌, ◌↔◌, length, None, IsTrue, OnErr, IfOk, Some};
ghost use Rattle.capi.specs.declared.experiment.Experiment.{Experiment};
ghost use Rattle.capi.specs.Describing.{described};
ghost use Rattle.capi.specs.Playing.{played_of, Room, Wrote};
ghost use Rattle.capi.specs.Wirings.{meaning_of};

use crate::answer::Answer;
use crate::description::Description;
use crate::experiment::Sizes;
use crate::record::RECORD;
use crate::refusal::Refusal;
use crate::wiring::play_wired;
use recorder::lines::LINE;

// Whether buffers of these lengths take all that an experiment writes.
fn has_room(sizes: Sizes, answers: usize, fields: usize, lines: usize) -> bool
    ensures { IsTrue result ↔ Room sizes answers fields lines }
{
    let places = sizes.pins as usize + sizes.modes as usize;
    answers >= sizes.calls as usize && fields >= RECORD && lines >= LINE * places
}

// Plays a description, and answers how many bytes of lines it wrote.
fn play(
    description: &[u8],
    answers: &mut [Answer],
    fields: &mut [u8],
    lines: &mut [u8],
) -> Result<usize, Refusal>
    ensures bad { described description.now ≡ None → result ≡ Err Refusal.BadDescription }
    ensures played { IfOk result (λ n. (e : Experiment) → described description.now ≡ Some e → Wrote e.sizes (played_of description.now e.sizes (meaning_of description.now e)) answers.old answers.new fields.old fields.new lines.old lines.new n) }
    ensures refused { OnErr result ((answers.new ≡ answers.old) × (fields.new ≡ fields.old) × (lines.new ≡ lines.old)) }
{
    let description = Description::read(description)?;
    let sizes = description.experiment.sizes;
    if !has_room(sizes, answers.len(), fields.len(), lines.len()) {
        return Err(Refusal::SmallBuffer);
    }
    Ok(play_wired(&description, answers, fields, lines)?)
}

// Plays a described experiment. Answers 0, and then `answers` has one answer for each call, `fields` the record's 192 bytes,
// and `lines` the P and M lines, `written` bytes; or a refusal's number, and then nothing is written.
// The number is what C's header declares, so it stands in place of a `Result`.
#[unsafe(no_mangle)]
pub extern "C" fn gms87_play(
    description: &[u8],
    answers: &mut [Answer],
    fields: &mut [u8],
    lines: &mut [u8],
    written: &mut usize,
) -> u32
    ensures bad { described description.now ≡ None → result ≡ 100 }
    ensures played { (e : Experiment) → described description.now ≡ Some e → result ≡ 0 → Wrote e.sizes (played_of description.now e.sizes (meaning_of description.now e)) answers.old answers.new fields.old fields.new lines.old lines.new written.new }
    ensures refused { (result ≢ 0) → (answers.new ≡ answers.old) × (fields.new ≡ fields.old) × (lines.new ≡ lines.old) × (written.new ≡ written.old) }
{
    match play(description, answers, fields, lines) {
        Ok(bytes) => {
            *written = bytes;
            0
        }
        Err(refusal) => refusal.number(),
    }
}
