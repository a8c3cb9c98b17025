// Charts of recorded pins.
#![tactic(auto)]

pub mod charted;
pub mod recorded;
pub mod walk;
