// The registers of the chip, and what instructions do with them.
#![tactic(auto)]

pub mod address;
pub mod operate;
pub mod registers;
mod sum;
pub mod worked;
