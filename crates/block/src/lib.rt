// Document 01, "Block and bank step": what it does with numbers and with one list.
#![tactic(auto)]

pub mod seeds;

ghost use Rattle.std.specs.Prelude.{◌≡◌, ◌&&◌, ltb};
ghost use Rattle.model.specs.Numbers.{fmin, fmax};
ghost use Rattle.model.specs.Bank.{seed_of, not_below, effective_floor, rise_floor};

use model::layout::RING_LEN_U16;

pub const SEED_PUSHES: u16 = 25;

pub const BLOCK_ALLOWANCE_DB: f64 = 3.0;

const SEED_OFFSET_DB: f64 = 3.8;

// The numbers that a channel's effective and rise floor come from: its usable floor, its block's floor, its entries since the leading
// silence, and its block's seed pushes and seed sum.
#[derive(Clone, Copy)]
pub struct Sources {
    pub usable: f64,
    pub block_floor: f64,
    pub since: u16,
    pub pushes: u16,
    pub sum: f64,
}

// A NaN is passed over: a comparison with one is false. Std's min and max leave open which of 0 and -0 they give, and these two
// say it. Two functions, since one over a comparison would be called with a closure at each place and read no plainer.
pub fn least(a: f64, b: f64) -> f64
    ensures { result ≡ fmin a b }
{
    if a.is_nan() || b < a { b } else { a }
}

pub fn greatest(a: f64, b: f64) -> f64
    ensures { result ≡ fmax a b }
{
    if a.is_nan() || a < b { b } else { a }
}

pub fn seed(pushes: u16, sum: f64) -> f64
    ensures { result ≡ seed_of pushes sum }
{
    sum / f64::from(pushes) - SEED_OFFSET_DB
}

// The seed is worked out only where there is one, so nothing is divided by 0.
fn not_below_seed(x: f64, early: bool, pushes: u16, sum: f64) -> f64
    ensures { result ≡ not_below (early && ltb 0 pushes) x (seed_of pushes sum) }
{
    if early && pushes > 0 {
        greatest(x, seed(pushes, sum))
    } else {
        x
    }
}

#[tactic(auto, unfolding(model::specs::Bank::effective_floor))]
pub fn effective_floor(x: Sources) -> f64
    ensures { result ≡ effective_floor x.usable x.block_floor x.since x.pushes x.sum }
{
    let own = least(x.usable, x.block_floor + BLOCK_ALLOWANCE_DB);
    not_below_seed(own, x.since < SEED_PUSHES, x.pushes, x.sum)
}

// The seed holds the rise floor up until the ring is full, the effective floor only for the first second.
#[tactic(auto, unfolding(model::specs::Bank::rise_floor))]
pub fn rise_floor(x: Sources) -> f64
    ensures { result ≡ rise_floor x.usable x.block_floor x.since x.pushes x.sum }
{
    let effective = effective_floor(x);
    let risen = greatest(effective, x.block_floor);
    not_below_seed(risen, x.since < RING_LEN_U16, x.pushes, x.sum)
}
