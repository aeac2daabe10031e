// The next hop of a recording. Its dB and its powers go to two slices: both are written, and behind a struct of `&mut` the clause would read
// values.exit.0.now for db.new.
#![tactic(auto)]

ghost use Rattle.std.specs.Prelude.{◌≡◌, ◌≤◌, length};
ghost use Rattle.watch_read.specs.Read.{read_of};

use streams::Source;
use watch_recording::{Hop, MOST_HOP_BYTES, Stop};

// What the first `got` bytes of a hop say, with its values.
fn take_values(
    hop: &[u8],
    got: usize,
    n: u16,
    db: &mut [f64],
    power: &mut [f32],
) -> Result<Hop, Stop>
    requires { got ≤ length hop.now }
    ensures { (result, db.new, power.new) ≡ read_of hop.now got n (length db.old) (length power.old) }
{
    watch_recording::fill_db(hop, db);
    watch_recording::fill_power(hop, n, power);
    watch_recording::step_of(&hop[..got], hop.len())
}

// What could be read of a hop, with its values.
fn read_values(
    source: &Source,
    n: u16,
    hop: &mut [u8],
    db: &mut [f64],
    power: &mut [f32],
) -> Result<Hop, Stop> {
    let got = streams::read_full(source, hop);
    take_values(hop, got, n, db, power)
}

// The next hop: its values go to the lists.
pub fn read_hop(source: &Source, n: u16, db: &mut [f64], power: &mut [f32]) -> Result<Hop, Stop> {
    // No heap: room for the largest hop.
    let mut hop = [0u8; MOST_HOP_BYTES];
    let size = watch_recording::hop_bytes(n).min(MOST_HOP_BYTES);
    read_values(source, n, &mut hop[..size], db, power)
}
