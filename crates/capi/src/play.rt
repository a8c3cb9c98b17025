ghost use Rattle.std.specs.Prelude.{◌≡◌, ◌+◌, ◌*◌, ◌≤◌, ◌++◌, length, drop};
ghost use Rattle.recorder.specs.Lines.{texted};
ghost use Rattle.bench.specs.Charting.{both};
ghost use Rattle.bench.specs.Runs.{answer, played};
ghost use Rattle.capi.specs.Describing.{image_of};
ghost use Rattle.capi.specs.Records.{record_of};
ghost use Rattle.capi.specs.Playing.{made, calls_made, powered_of, played_of, lines_of, Room, Wrote};

use crate::answer::Answer;
use crate::description::Description;
use crate::experiment::{Asked, PLACES};
use crate::lines::put_lines;
use crate::record::put_record;
use bench::chip::Chip;
use bench::held::Stretches;
use bench::run::Run;
use hosts::host::PinHost;
use recorder::mode::Mode;
use recorder::pin_sample::PinSample;
use recorder::stretch::Stretch;

// Places that show nothing, as constants: an array that a function fills is written twice.
const NO_PINS: Stretch<PinSample> = Stretch {
    offset: 0,
    length: 0,
    sample: PinSample {
        levels: 0,
        drive: 0,
    },
};

const NO_MODE: Stretch<Mode> = Stretch {
    offset: 0,
    length: 0,
    sample: Mode::Running,
};

// The chip that a description's calls begin with.
fn powered_on(description: &Description) -> Chip
    ensures { result.held ≡ powered_of description.now.bytes.now }
{
    let mut chip = Chip::new();
    chip.power_on(description.image(false), description.ram())
        .unwrap();
    chip
}

// Makes a call, with the whole image or without its last byte.
fn make_call<P: PinHost>(
    chip: &mut Chip,
    description: &Description,
    asked: Asked,
    host: &P,
    pins: &mut [Stretch<PinSample>],
    modes: &mut [Stretch<Mode>],
) -> Run
    ensures { answer result.ticks result.fault chip.new.held (both pins.new modes.new) ≡ played (image_of asked.short description.now.bytes.now) (P.meaning host.now) asked.call.grant chip.old.held (both pins.old modes.old) }
{
    let image = description.image(asked.short);
    chip.run(image, host, asked.call, pins, modes)
}

// Makes the calls of a description, one answer for each.
fn make_calls<P: PinHost>(
    chip: &mut Chip,
    description: &Description,
    host: &P,
    pins: &mut [Stretch<PinSample>],
    modes: &mut [Stretch<Mode>],
    answers: &mut [Answer],
)
    requires { length answers.old ≡ description.now.experiment.sizes.calls }
    ensures { made answers.new chip.new.held (both pins.new modes.new) ≡ calls_made description.now.bytes.now description.now.experiment.sizes (P.meaning host.now) chip.old.held (both pins.old modes.old) description.now.experiment.sizes.calls }
{
    for (k, answer) in answers.iter_mut().enumerate() {
        let run = make_call(chip, description, description.asked(k), host, pins, modes);
        *answer = Answer::from(run);
    }
}

// Writes the lines of the counted stretches over the start of a buffer, and answers their length.
fn put_charts(
    counted: Stretches,
    pins: &[Stretch<PinSample>],
    modes: &[Stretch<Mode>],
    lines: &mut [u8],
) -> usize
    requires { 64 * (length pins.now + length modes.now) ≤ length lines.old }
    ensures { (result, lines.new) ≡ texted (lines_of counted (both pins.now modes.now)) lines.old }
{
    let pins = &pins[..counted.pins.min(pins.len())];
    let modes = &modes[..counted.modes.min(modes.len())];
    let end = put_lines(pins, lines);
    end + put_lines(modes, &mut lines[end..])
}

// Plays a description before a host, and answers how many bytes of lines it wrote. The three buffers stand side by side:
// of a struct that lends them, a caller would learn what it holds afterwards, and not what its own buffers hold.
pub(crate) fn play_before<P: PinHost>(
    description: &Description,
    host: &P,
    answers: &mut [Answer],
    fields: &mut [u8],
    lines: &mut [u8],
) -> usize
    requires room { Room description.now.experiment.sizes (length answers.old) (length fields.old) (length lines.old) }
    ensures { Wrote description.now.experiment.sizes (played_of description.now.bytes.now description.now.experiment.sizes (P.meaning host.now)) answers.old answers.new fields.old fields.new lines.old lines.new result }
{
    // Whole arrays, of which each chart takes its places: nothing is allocated.
    let mut pins = [NO_PINS; PLACES];
    let mut modes = [NO_MODE; PLACES];
    let sizes = description.experiment.sizes;
    let calls = sizes.calls as usize;
    let pins = &mut pins[..sizes.pins as usize];
    let modes = &mut modes[..sizes.modes as usize];
    let mut chip = powered_on(description);
    make_calls(
        &mut chip,
        description,
        host,
        pins,
        modes,
        &mut answers[..calls],
    );
    put_record(&chip.held, fields);
    put_charts(chip.held.stretches, pins, modes, lines)
}
