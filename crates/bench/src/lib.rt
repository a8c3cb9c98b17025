// The bench: a chip that is powered on and run, tick by tick or in leaps, with its two charts.
#![tactic(auto)]

mod bench;
pub mod calls;
pub mod chip;
pub mod held;
mod leap;
pub mod run;
mod tick;
