// Document 02, R-8: of two antennas' pairs the one with the larger power. What is chosen goes to two slices, as whoever calls has them: of a struct of two
// `&mut` a clause would tell by a longer way.
#![tactic(auto)]

ghost use Rattle.std.specs.Prelude.{◌≡◌, cond, ◌+◌, ◌≤◌, length};
ghost use Rattle.laws.specs.Lists.{tab};
ghost use Rattle.log_hops.specs.Put.{put};
ghost use Rattle.combine_model.specs.Choose.{is_second, chosen_at};

use log_hops::Pairs;

// The second of two powers wins.
#[tactic(auto, unfolding(combine_model::specs::Choose::is_second))]
fn is_second(p: u32, q: u32) -> bool
    ensures { result ≡ is_second p q }
{
    let a = low_first::single(p);
    let b = low_first::single(q);
    if a.is_nan() { !b.is_nan() } else { a < b }
}

fn pick<T: Copy>(second_wins: bool, x: T, y: T) -> T
    ensures { result ≡ cond second_wins y x }
{
    if second_wins { y } else { x }
}

// The selection of one hop of each log, from place `from` on. By index: six slices zipped are no plainer.
pub fn choose(first: &Pairs<'_>, second: &Pairs<'_>, from: usize, db: &mut [u64], power: &mut [u32])
    requires alike { length second.now.db.now ≡ length first.now.db.now }
    requires room { (from + length first.now.db.now ≤ length db.old) × (from + length first.now.db.now ≤ length power.old) }
    ensures db_after { db.new ≡ put from (tab (length first.now.db.now) (chosen_at first.now.power.now second.now.power.now first.now.db.now second.now.db.now)) db.old }
    ensures power_after { power.new ≡ put from (tab (length first.now.db.now) (chosen_at first.now.power.now second.now.power.now first.now.power.now second.now.power.now)) power.old }
{
    let n = first.db.len();
    let db_chosen = &mut db[from..from + n];
    let power_chosen = &mut power[from..from + n];
    for k in 0..n {
        let wins = is_second(first.power[k], second.power[k]);
        db_chosen[k] = pick(wins, first.db[k], second.db[k]);
        power_chosen[k] = pick(wins, first.power[k], second.power[k]);
    }
}
