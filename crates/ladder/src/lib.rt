// Document 01, "Windows, ladder, gate": the ladder, which stands in for powf; document 02, R-5: rounded upward.
#![tactic(auto)]

ghost use Rattle.std.specs.Prelude.{◌≡◌, ◌+◌, ◌≤◌};
ghost use Rattle.model.specs.Layout.{rungs_below, rungs_above};
ghost use Rattle.model.specs.Ring.{floor_held};
ghost use Rattle.model.specs.Ladder.{held, ceil_held, rung, rung_value, ladder};

use model::layout::{LADDER_MAX_DB, LADDER_MIN_DB, PAST_RUNGS_F64, RUNGS_ABOVE_U16, RUNGS_BELOW};

mod tables;

// The floor of x, held to 0..RUNGS_ABOVE_U16; a NaN gives 0. Here and below a u16 is how many rungs: no number of a kind and no refusal.
// The same steps end `bin_index` of crate ring, with another bound: one function for both would be lent the bound twice, as a u16 and as the float one past
// it, with a clause that ties the two and a proof of it at each call. What is long in both, the floor by cases, is one set of lemmas already.
fn floor_held(x: f64) -> u16
    ensures { (result ≡ floor_held rungs_above x) × (result ≤ rungs_above) }
{
    if x >= 0.0 {
        if x < PAST_RUNGS_F64 {
            // No From leads from u64 to u16; that the value fits is proved.
            std::num::truncating_f64_to_u64(x) as u16
        } else {
            RUNGS_ABOVE_U16
        }
    } else {
        0
    }
}

// The least whole number not below x, held to 0..RUNGS_ABOVE_U16: one more than the floor where that cuts something off.
fn ceil_held(x: f64) -> u16
    ensures { (result ≡ ceil_held rungs_above x) × (result ≤ rungs_above) }
{
    let t = floor_held(x);
    if t >= RUNGS_ABOVE_U16 {
        RUNGS_ABOVE_U16
    } else if f64::from(t) < x {
        t + 1
    } else {
        t
    }
}

// The least whole number not below z, and RUNGS_BELOW. An eighth of a dB is a rung; below 0 dB the floor of -z is as far above.
fn rung(z: f64) -> usize
    ensures { (result ≡ rung z) × (result ≤ rungs_below + rungs_above) }
{
    if z >= 0.0 {
        RUNGS_BELOW + usize::from(ceil_held(z))
    } else {
        RUNGS_BELOW.saturating_sub(usize::from(floor_held(-z)))
    }
}

fn rung_value(r: usize) -> f64
    requires { r ≤ rungs_below + rungs_above }
    ensures { result ≡ rung_value r }
{
    // No From leads to f64 from so wide a number.
    tables::root(r % 80) as f64 * tables::ten(r / 80)
}

fn held(s: f64) -> f64
    ensures { result ≡ held s }
{
    s.clamp(LADDER_MIN_DB, LADDER_MAX_DB)
}

// 10^(s/10), by eighths of a dB, upward.
pub fn ladder(s: f64) -> f64
    ensures { result ≡ ladder s }
{
    if s.is_nan() {
        s
    } else {
        rung_value(rung(8.0 * held(s)))
    }
}
