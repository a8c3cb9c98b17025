// Reads a text that describes recorded pins from standard input, and prints the chart of what they show.
#![tactic(auto)]

use pinchart::recorded::print_recording;
use recorder::stretch::Stretch;
use recording::{Recording, TextError, parse};
use std::io::{Read, Write};
use std::process::ExitCode;

// How many stretches a chart has places for.
const PLACES: usize = 65536;

// What the text on standard input describes. The text is let go here, before there is a chart.
fn read_recording(rt: &HostRuntime) -> anyhow::Result<Result<Recording, TextError>> {
    let mut text = Vec::new(rt.alloc());
    rt.stdin().read_to_end(&mut text)?;
    Ok(parse(rt.alloc(), text.as_slice()))
}

fn main(rt: HostRuntime) -> anyhow::Result<ExitCode> {
    let recording = match read_recording(&rt)? {
        Ok(recording) => recording,
        Err(refused) => {
            rt.eprintln(refused)?;
            return Ok(ExitCode::FAILURE);
        }
    };
    let mut chart = vec![in rt.alloc(); Stretch::default(); PLACES]?;
    let out = print_recording(rt.alloc(), &recording, chart.as_mut_slice())?;
    rt.stdout().write_all(out.as_slice())?;
    Ok(ExitCode::SUCCESS)
}
