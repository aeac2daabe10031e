// The records of a bank: one call each, with what is due. A hop is made in arrays for the largest bank of the list, since there is no heap. The kind of
// a reading is the number that the list has for it: it is matched once.

ghost use Rattle.replay_data.specs.Kept.{Kept};

use replay_data::compare::{answer_differs, floors_differ, passed_reading, passed_stores};
use replay_data::hop::fill_hop;
use replay_data::state::{MOST, Replay, after};
use replay_data::stores::Stores;

// 1, n, answer: a fresh bank.
pub fn replay_new<'a>(r: Replay<'a>, s: Stores) -> Replay<'a>
    ensures kept { Kept r.entry result }
{
    let Stores { bank, bank_f, .. } = s;
    let done = bank_making::bank_new(bank, bank_f, r.index(1));
    r.passed(3, answer_differs(r, 2, done))
}

// 2, hold, the hop, answer: one hop.
pub fn replay_update<'a>(r: Replay<'a>, s: Stores) -> Replay<'a>
    ensures kept { Kept r.entry result }
{
    let Stores { bank, bank_f, .. } = s;
    let mut db = [0.0f64; MOST];
    let mut power = [0.0f32; MOST];
    let n = r.n.min(MOST);
    let (db, power) = (&mut db[..n], &mut power[..n]);
    fill_hop(r.list, r.hop, db, power);
    let done = bank::bank_update_holding_reference(bank, bank_f, db, power, r.byte(1) == 1);
    let bytes = 2 + 2 * n;
    r.passed(1 + bytes, answer_differs(r, bytes, done))
}

// 3, kind, k, answer, value: a reading.
pub fn replay_reading<'a>(r: Replay<'a>, s: Stores) -> Replay<'a>
    ensures kept { Kept r.entry result }
{
    let Stores { bank, bank_f, .. } = s;
    let k = r.index(2);
    let got = match r.byte(1) {
        0 => readings::channel_floor_db(bank, bank_f, k),
        1 => readings::effective_floor_db(bank, bank_f, k),
        2 => readings::rise_floor_db(bank, bank_f, k),
        _ => readings::spectral_reference(bank, bank_f, k),
    };
    passed_reading(r, got)
}

// 4, the sum of the u16 store, the f64 store: what both hold. The record has the floats of a bank of n, however many were lent.
pub fn replay_stores<'a>(r: Replay<'a>, s: Stores) -> Replay<'a>
    ensures kept { Kept r.entry result }
{
    let Stores { bank, bank_f, .. } = s;
    let end = after(r.at, 9 + 8 * r.store_f_len());
    let mut next = passed_stores(r, bank, bank_f);
    next.at = end;
    next
}

// 5, k, answer, effective, rise and raw floor: the three floors.
pub fn replay_floors<'a>(r: Replay<'a>, s: Stores) -> Replay<'a>
    ensures kept { Kept r.entry result }
{
    let Stores { bank, bank_f, .. } = s;
    let got = readings::floors(bank, bank_f, r.index(1));
    let differs = floors_differ(got, r.byte(2), r.list, after(r.at, 3));
    r.passed(27, differs)
}
