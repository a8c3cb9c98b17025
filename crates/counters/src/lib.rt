// The chip's counters: two timers, the buzzer and the basic interval timer with its watchdog.
// All run on one prescaler, which adds 1 modulo 2,048 at each tick.
#![tactic(auto)]

// Each counter takes the mode and the prescaler side by side: a struct of the two would be made for a call and taken apart in it.

pub mod basic;
pub mod buzzer;
mod count;
pub mod divider;
mod mode;
pub mod timer;
