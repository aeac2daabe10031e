// Document 02, R-13: the dB of linear powers, by the ladder.
#![tactic(auto)]

ghost use Rattle.std.specs.Prelude.{◌≡◌, ◌<◌, ◌≤◌, length, take};
ghost use Rattle.model.specs.Layout.{rung_count};
ghost use Rattle.model.specs.Decibels.{rung_db, power_db, decibels};

use model::layout::LADDER_MIN_DB;

// Rung r in dB.
#[tactic(auto, unfolding(model::specs::Decibels::rung_db))]
fn rung_db(r: usize) -> f64
    requires { r < rung_count }
    ensures { result ≡ rung_db r }
{
    // No From leads from usize to f64; that the value is exact, being below 2^53, is proved.
    LADDER_MIN_DB + r as f64 / 8.0
}

// The dB of a hop's powers. The table of the ladder is written out once for all of them.
pub fn put_db(power: &[f32], db: &mut [f64])
    requires { length db.old ≡ length power.now }
    ensures { db.new ≡ decibels power.now }
{
    let rungs = rungs::table::rungs();
    // By the place, and not by a zip of `iter_mut` with the powers: of what such a zip writes a proof knows nothing.
    for (k, kept) in db.iter_mut().enumerate() {
        let linear = powers::power_linear(power[k]);
        let value = rung_db(rungs::highest_rung(&rungs, linear));
        *kept = value;
    }
}

// The same, in front of an array for any hop's, since there is no heap.
pub fn hop_db(power: &[f32]) -> [f64; 512]
    requires { length power.now ≤ 512 }
    ensures { take (length power.now) result ≡ decibels power.now }
{
    let mut db = [0.0; 512];
    put_db(power, &mut db[..power.len()]);
    db
}

// The dB of one power.
pub fn power_db(power: f32) -> f64
    ensures { result ≡ power_db power }
{
    let mut db = [0.0];
    put_db(&[power], &mut db);
    db[0]
}
