// A C interface: plays one described experiment on the bench.
#![tactic(auto)]

pub mod answer;
mod bytes;
mod description;
mod experiment;
pub mod interface;
mod lines;
mod play;
mod record;
mod refusal;
mod wiring;
