// R-13: the dB of a hop left aside, and worked out from its powers. Two slices and no struct: only the dB are written, and who reads a hop
// holds the two apart, so a struct would be made for each call.
#![tactic(auto)]

ghost use Rattle.std.specs.Prelude.{◌≡◌};
ghost use Rattle.watch_decibels.specs.Worked.{worked_out};

// The dB of each power in place of the one that was read.
#[tactic(auto, unfolding(crate::specs::Worked::worked_out))]
pub fn work_out(db: &mut [f64], power: &[f32])
    ensures { db.new ≡ worked_out db.old power.now }
{
    if db.len() == power.len() && power.len() <= 512 {
        let worked = decibels::hop_db(power);
        db.copy_from_slice(&worked[..power.len()]);
    }
}

// Hop after hop, of k channels each.
pub fn work_out_hops(k: usize, db: &mut [f64], power: &[f32]) {
    if k == 0 {
        return;
    }
    for (db, power) in db.chunks_exact_mut(k).zip(power.chunks_exact(k)) {
        work_out(db, power);
    }
}
