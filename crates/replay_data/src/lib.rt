// The list that is replayed: its numbers and hops, how far a replay is, and what is compared.
#![tactic(auto)]

pub mod compare;
pub mod hop;
pub mod marks;
pub mod state;
pub mod stores;
