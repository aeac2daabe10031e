// The record of a run of hops: one call, with what is due.
#![tactic(auto)]

ghost use Rattle.std.specs.Prelude.{MatchOption, ⊤};
ghost use Rattle.replay_data.specs.Kept.{Kept};

use replay_data::hop::fill_hop;
use replay_data::marks::passed_marks;
use replay_data::state::{MOST, Replay, after};
use replay_data::stores::Stores;

// The longest run of the list has 46 hops. Its values and marks stand in arrays: there is no heap.
const MOST_VALUES: usize = 46 * MOST;

// 11, hops, the holds, the rows of dB, the rows of power, answer, the rise bytes, the drop bytes: a run of hops. None where a list ends that has
// a longer one, or not all its holds.
pub fn replay_run<'a>(r: Replay<'a>, s: Stores) -> Option<Replay<'a>>
    ensures kept { MatchOption result ⊤ (Kept r.entry) }
{
    let Stores {
        bank,
        bank_f,
        gate,
        gate_f,
        ..
    } = s;
    let mut db = [0.0f64; MOST_VALUES];
    let mut power = [0.0f32; MOST_VALUES];
    let mut rise = [0u8; MOST_VALUES];
    let mut drop = [0u8; MOST_VALUES];
    let hops = r.index(1);
    let values = hops * r.n;
    if values > MOST_VALUES {
        return None;
    }
    let (db, power) = (&mut db[..values], &mut power[..values]);
    let (rise, drop) = (&mut rise[..values], &mut drop[..values]);
    let holds = after(r.at, 2);
    let rows = after(holds, hops);
    let hold = r.list.get(holds..rows)?;
    fill_hop(r.list, rows, db, power);
    let done = receive::receive(bank, bank_f, gate, gate_f, hold, db, power, rise, drop);
    let end = after(after(rows, values), values);
    Some(passed_marks(r, end, done, rise, drop))
}
