// What the program `watch` prints before the hops of a recording, and of what is wrong with it.
#![tactic(auto)]

pub mod faults;
pub mod head;

use streams::Source;
use watch_words::Settings;

// What is watched: where its bytes come from, its name, the settings, and how many channels it has.
#[derive(Clone, Copy)]
pub struct Watched<'a> {
    pub source: &'a Source,
    pub name: &'a [u8],
    pub s: Settings,
    pub n: u16,
}
