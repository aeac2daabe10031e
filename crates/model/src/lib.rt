// The three floors, which document 01 reads as one record, and the layout in numbers. Its definitions stand in specs/, section by section.
#![tactic(auto)]

pub mod layout;

// Effective, rise and raw floor of one channel.
#[derive(Clone, Copy)]
pub struct Floors {
    pub effective: f64,
    pub rise: f64,
    pub raw: f64,
}
