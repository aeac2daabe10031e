// What the program `watch` prints of the hops of a recording. What has a clause on readings, or hands a bank on to what has one, takes the
// two slices of a bank or a gate, as the readings themselves do: a struct of the two would be made anew for each reading. The others take all of a
// watch's stores, as they are `Seen`.
#![tactic(auto)]

pub mod explanations;
pub mod lines;
mod out;
pub mod tail;
