// Reads an image and a grant from standard input, plays the image, and writes its charts as a VCD file.
#![tactic(auto)]

mod image;

use anyhow::anyhow;
use image::wave_of;
use recorder::stretch::Stretch;
use runchart::print::INPUT;
use std::io::{Read, Write};

// How many stretches each chart has places for.
const PLACES: usize = 65536;

fn wrong_size() -> anyhow::Error {
    anyhow!("expected 2052 bytes: an image of 2048 and a grant of 4")
}

// Another size than an image and a grant is an error, and then nothing is written: an empty file would look like a run.
// It is told before the charts are made, for which memory may be too short.
fn main(rt: HostRuntime) -> anyhow::Result<()> {
    let mut input = Vec::new(rt.alloc());
    rt.stdin().read_to_end(&mut input)?;
    if input.len() != INPUT {
        return Err(wrong_size());
    }
    let mut pins = vec![in rt.alloc(); Stretch::default(); PLACES]?;
    let mut modes = vec![in rt.alloc(); Stretch::default(); PLACES]?;
    let Some(wave) = wave_of(
        rt.alloc(),
        input.as_slice(),
        pins.as_mut_slice(),
        modes.as_mut_slice(),
    )?
    else {
        return Err(wrong_size());
    };
    rt.stdout().write_all(wave.file.as_slice())?;
    if let Some(fault) = wave.run.fault {
        let ticks = wave.run.ticks;
        let number = fault.number();
        eprintln!(rt; "stopped after {ticks} ticks with fault {number}")?;
    }
    Ok(())
}
