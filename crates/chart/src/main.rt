// Reads an image and a grant from standard input, plays the image, and prints its charts.
#![tactic(auto)]

use recorder::stretch::Stretch;
use runchart::print::print_chart;
use std::io::{Read, Write};

// How many stretches each chart has places for.
const PLACES: usize = 1024;

fn main(rt: HostRuntime) -> anyhow::Result<()> {
    let mut input = Vec::new(rt.alloc());
    rt.stdin().read_to_end(&mut input)?;
    let mut pins = vec![in rt.alloc(); Stretch::default(); PLACES]?;
    let mut modes = vec![in rt.alloc(); Stretch::default(); PLACES]?;
    let out = print_chart(
        rt.alloc(),
        input.as_slice(),
        pins.as_mut_slice(),
        modes.as_mut_slice(),
    )?;
    rt.stdout().write_all(out.as_slice())?;
    Ok(())
}
