// Pin hosts: what is wired to the pins of the chip.
#![tactic(auto)]

pub mod host;
pub mod join;
pub mod lent;
pub mod pulse;
pub mod pulses;
pub mod steady;
pub mod wave;
mod word;
pub mod worked;
