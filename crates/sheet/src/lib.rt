// The code sheet: what each code of the GMS87C1202 does, in how many bytes and cycles.
#![tactic(auto)]

pub mod operation;
pub mod table;
