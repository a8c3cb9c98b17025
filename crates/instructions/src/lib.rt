// The chip's instructions: each takes effect whole.
#![tactic(auto)]

mod branch;
pub mod call;
pub mod execute;
mod memory;
