// Document 02, R-4: which rule yields a floor, from the five numbers that a channel's floors come from.
#![tactic(auto)]

ghost use Rattle.std.specs.Prelude.{◌≡◌, ◌&&◌, ltb};
ghost use Rattle.model.specs.Bank.{seed_of};
ghost use Rattle.origins.specs.Origins.{later_of_min, later_of_max, seed_named, effective_origin, rise_origin};

use block::{BLOCK_ALLOWANCE_DB, SEED_PUSHES, Sources};
use model::layout::RING_LEN_U16;
use origins::{EffectiveOrigin, RiseOrigin};

// Whether the later side b of a minimum is the one to name, and of a maximum. Of equal sides and of two NaNs the earlier is; a NaN that is
// passed over is not.
// Two functions, and not one that takes the order as a closure: it would be called with what each now says in a line.
fn later_of_min(a: f64, b: f64) -> bool
    ensures { result ≡ later_of_min a b }
{
    if a.is_nan() { !b.is_nan() } else { b < a }
}

fn later_of_max(a: f64, b: f64) -> bool
    ensures { result ≡ later_of_max a b }
{
    if a.is_nan() { !b.is_nan() } else { a < b }
}

// The seed is asked only where its test holds.
fn seed_named(x: f64, early: bool, pushes: u16, sum: f64) -> bool
    ensures { result ≡ seed_named (early && ltb 0 pushes) x (seed_of pushes sum) }
{
    early && pushes > 0 && later_of_max(x, block::seed(pushes, sum))
}

// Of the numbers that a channel's floors come from.
#[tactic(auto, unfolding(origins::specs::Origins::effective_origin))]
pub fn effective_origin(x: Sources) -> EffectiveOrigin
    ensures { result ≡ effective_origin x.usable x.block_floor x.since x.pushes x.sum }
{
    let plus_3 = x.block_floor + BLOCK_ALLOWANCE_DB;
    let lower = block::least(x.usable, plus_3);
    if seed_named(lower, x.since < SEED_PUSHES, x.pushes, x.sum) {
        EffectiveOrigin::Seed(block::seed(x.pushes, x.sum))
    } else if later_of_min(x.usable, plus_3) {
        EffectiveOrigin::BlockPlus3(plus_3)
    } else {
        EffectiveOrigin::OwnQuartile(x.usable)
    }
}

// The rise floor is worked out, never taken as it is stored.
#[tactic(auto, unfolding(origins::specs::Origins::rise_origin))]
pub fn rise_origin(x: Sources) -> RiseOrigin
    ensures { result ≡ rise_origin x.usable x.block_floor x.since x.pushes x.sum }
{
    let effective = block::effective_floor(x);
    let risen = block::greatest(effective, x.block_floor);
    if seed_named(risen, x.since < RING_LEN_U16, x.pushes, x.sum) {
        RiseOrigin::Seed(block::seed(x.pushes, x.sum))
    } else if later_of_max(effective, x.block_floor) {
        RiseOrigin::Block(x.block_floor)
    } else {
        RiseOrigin::EffectiveFloor(effective)
    }
}
