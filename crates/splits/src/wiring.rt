use faults::Fault;
use hosts::pulse::Pulse;
use hosts::wave::SquareWave;
use std::alloc::{AllocError, Global};

// The pins of the door switch, RB2, and of the fan's tacho, RA0.
pub const DOOR: u16 = 0x0400;

const TACHO: u16 = 0x0001;

// How often the door is opened, and for how many ticks, over and over.
const OPENINGS: u64 = 40;

const LENGTHS: [u64; 7] = [1, 2, 7, 40, 300, 1500, 4000];

// The door is opened about every 7,400 ticks.
pub fn door_pulses(heap: Global) -> Result<Vec<Pulse>, AllocError> {
    let mut pulses = Vec::new(heap);
    // By the number of the opening: a range tells its bound, which is not known behind a `zip`.
    for k in 0..OPENINGS {
        pulses.push(Pulse {
            offset: 3000 + 7400 * k + 1237 * k % 3000,
            length: LENGTHS[k as usize % LENGTHS.len()],
        })?;
    }
    Ok(pulses)
}

// The tacho's wave: 700 ticks low, 500 high.
pub fn tacho() -> Result<SquareWave, Fault> {
    SquareWave::new(TACHO, 700, 500)
}
