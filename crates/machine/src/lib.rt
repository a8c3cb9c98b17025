// The chip below its calls: one tick, in three steps, and the quiet span.
#![tactic(auto)]

mod prescaler;
pub mod quiet;
pub mod reset;
pub mod state;
pub mod tick;
pub mod worked;
