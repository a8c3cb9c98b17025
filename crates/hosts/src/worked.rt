ghost use Rattle.std.specs.Prelude.{◌≡◌, [], ◌∷◌, Some, None, Ok};

use crate::host::PinHost;
use crate::pulse::Pulse;
use crate::pulses::PulseList;
use crate::wave::SquareWave;
use faults::Fault;

// The marks of a wave of 3 low and 2 high ticks after ticks 0 and 3, and those of the pulses (4, 2) and (7, 1) after ticks 7 and 8.
pub fn worked_marks(word: u16) -> Result<[Option<u64>; 4], Fault>
    ensures { result ≡ Ok (Some 3 ∷ Some 5 ∷ Some 8 ∷ None ∷ []) }
{
    let wave = SquareWave::new(word, 3, 2)?;
    let pulses = [
        Pulse {
            offset: 4,
            length: 2,
        },
        Pulse {
            offset: 7,
            length: 1,
        },
    ];
    let mut list = PulseList::new();
    list.set(word, &pulses)?;
    Ok([
        wave.quiet_mark(0),
        wave.quiet_mark(3),
        list.quiet_mark(7),
        list.quiet_mark(8),
    ])
}
