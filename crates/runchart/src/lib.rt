// The chart of an image as text.
#![tactic(auto)]

pub mod print;
pub mod worked;
