// Document 02, R-13: the highest rung that is at most a value, in a table that is lent.
#![tactic(auto)]

ghost use Rattle.std.specs.Prelude.{◌≡◌, ◌<◌};
ghost use Rattle.model.specs.Layout.{rung_count};
ghost use Rattle.model.specs.Decibels.{rung_values, highest_rung};

use model::layout::RUNG_COUNT;

pub mod table;

// The highest rung whose value is at most x; the lowest if none is, so of a NaN too.
pub fn highest_rung(t: &[f64; RUNG_COUNT], x: f64) -> usize
    requires { t.now ≡ rung_values }
    ensures { (result ≡ highest_rung x) × (result < rung_count) }
{
    t[..].partition_point(|value| *value <= x).saturating_sub(1)
}
