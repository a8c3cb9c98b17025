// Charts: stretches of alike samples, how they are added to, and their lines.
#![tactic(auto)]

pub mod append;
pub mod lines;
pub mod mode;
pub mod pin_sample;
pub mod stretch;
mod texts;
