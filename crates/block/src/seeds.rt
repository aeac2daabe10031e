// The seeds: how many block medians have been taken into each block's seed sum, and the sum.
ghost use Rattle.std.specs.Prelude.{◌≡◌, ◌+◌, ◌≤◌};
ghost use Rattle.laws.specs.Lists.{one};
ghost use Rattle.model.specs.Bank.{takes_seed, sum_after};
ghost use Rattle.block.specs.Seeds.{Seedable, Seeded};

use model::layout::HIST_MIN_DB;

pub fn takes_seed(pushes: u16, med: f64) -> bool
    ensures { result ≡ takes_seed pushes med }
{
    pushes < 25 && med >= HIST_MIN_DB
}

// A count, as the store has it: no number of a kind and no refusal.
fn pushes_after(pushes: u16, med: f64) -> u16
    requires { pushes ≤ 25 }
    ensures { result ≡ pushes + one (takes_seed pushes med) }
{
    pushes + u16::from(takes_seed(pushes, med))
}

fn sum_after(pushes: u16, sum: f64, med: f64) -> f64
    ensures { result ≡ sum_after pushes sum med }
{
    if takes_seed(pushes, med) {
        sum + med
    } else {
        sum
    }
}

// One slow hop: each block's median is counted and added, while its seed is young. By the block's number: where its dB lie is worked out from it, and
// both lists are written there.
pub fn seed_blocks(seeds: &mut [u16], sums: &mut [f64], power_db: &[f64])
    requires { Seedable seeds.old sums.old power_db.now }
    ensures { Seeded seeds.old sums.old power_db.now seeds.new sums.new }
{
    for i in 0..seeds.len() {
        let med = median::block_median(power_db, i);
        sums[i] = sum_after(seeds[i], sums[i], med);
        seeds[i] = pushes_after(seeds[i], med);
    }
}
