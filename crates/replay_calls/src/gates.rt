// The records of a gate: one call each, with what is due. Arrays take the lengths and a hop, since there is no heap. The kind of a reading is the
// number that the list has for it.
ghost use Rattle.std.specs.Prelude.{MatchOption, ⊤};
ghost use Rattle.replay_data.specs.Kept.{Kept};

use low_first::two_bytes;
use replay_data::compare::{answer_differs, passed_reading, passed_stores};
use replay_data::hop::fill_hop;
use replay_data::marks::passed_marks;
use replay_data::state::{MOST, Replay, after};
use replay_data::stores::GateStores;

// A gate takes 8 lengths; the list may ask for one with more.
const MOST_LENGTHS: usize = 9;

// A level is written with 800 added, an absent one as it is handed over.
fn level(r: Replay, i: usize) -> i32 {
    match r.number::<u16>(i) {
        65535 => 65535,
        x => i32::from(x) - 800,
    }
}

fn fill_lengths(list: &[u8], at: usize, lengths: &mut [u16]) {
    for (k, length) in lengths.iter_mut().enumerate() {
        *length = two_bytes(list, after(at, 2 * k));
    }
}

// 6, n, f64 length, on, off, early, number of lengths, lengths, answer: a fresh gate. None where a list that asks for more lengths ends.
pub fn replay_new<'a>(r: Replay<'a>, s: GateStores) -> Option<Replay<'a>>
    ensures kept { MatchOption result ⊤ (Kept r.entry) }
{
    let GateStores { gate, gate_f, .. } = s;
    let count = r.index(10);
    if count > MOST_LENGTHS {
        return None;
    }
    let mut lengths = [0u16; MOST_LENGTHS];
    let lengths = &mut lengths[..count];
    fill_lengths(r.list, after(r.at, 11), lengths);
    let done = gate_making::gate_new(
        gate,
        gate_f,
        r.index(1),
        level(r, 4),
        level(r, 6),
        level(r, 8),
        lengths,
    );
    let bytes = 11 + 2 * count;
    Some(r.passed(1 + bytes, answer_differs(r, bytes, done)))
}

// 7, answer, n rise bytes, n drop bytes: a gate update with the hop of the last single bank update.
pub fn replay_update<'a>(r: Replay<'a>, s: GateStores) -> Replay<'a>
    ensures kept { Kept r.entry result }
{
    let GateStores {
        bank,
        bank_f,
        gate,
        gate_f,
        rise,
        drop,
    } = s;
    let mut db = [0.0f64; MOST];
    let mut power = [0.0f32; MOST];
    let n = r.n.min(MOST);
    let (db, power) = (&mut db[..n], &mut power[..n]);
    fill_hop(r.list, r.hop, db, power);
    let done = gate::gate_update(bank, bank_f, gate, gate_f, db, power, rise, drop);
    passed_marks(r, after(r.at, 1), done, rise, drop)
}

// 8 and the same: a hold.
pub fn replay_hold<'a>(r: Replay<'a>, s: GateStores) -> Replay<'a>
    ensures kept { Kept r.entry result }
{
    let GateStores {
        bank,
        bank_f,
        gate,
        gate_f,
        rise,
        drop,
    } = s;
    let done = gate::gate_hold(bank, bank_f, gate, gate_f, rise, drop);
    passed_marks(r, after(r.at, 1), done, rise, drop)
}

// 9, kind, k, answer, value: a reading.
pub fn replay_reading<'a>(r: Replay<'a>, s: GateStores) -> Replay<'a>
    ensures kept { Kept r.entry result }
{
    let GateStores {
        bank,
        bank_f,
        gate,
        gate_f,
        ..
    } = s;
    let k = r.index(2);
    let got = match r.byte(1) {
        0 => gate_readings::smoothed_db(gate, gate_f, k),
        _ => gate_readings::ema_rise(bank, bank_f, gate, gate_f, k),
    };
    passed_reading(r, got)
}

// 10, the sum of the u16 store, the f64 store: what both hold. As of a bank, but that the record has as many floats as were lent.
pub fn replay_stores<'a>(r: Replay<'a>, s: GateStores) -> Replay<'a>
    ensures kept { Kept r.entry result }
{
    let GateStores { gate, gate_f, .. } = s;
    passed_stores(r, gate, gate_f)
}
