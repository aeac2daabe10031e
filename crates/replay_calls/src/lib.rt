// The records of the list: one call each, with what is due.
#![tactic(auto)]

pub mod banks;
pub mod gates;
