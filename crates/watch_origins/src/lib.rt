// Where floors come from (document 02, R-4), and when that is worth a line.
#![tactic(auto)]

ghost use Rattle.std.specs.Prelude.{◌≡◌};
ghost use Rattle.refusals.specs.Numbers.{numbered};
ghost use Rattle.refusals.specs.Readings.{value_or};
ghost use Rattle.watch_origins.specs.Told.{no_explanation, is_news, jumps as told_jumps};

use origins::{EffectiveOrigin, Explanation, RiseOrigin};
use refusals::Refusal;

// What stands for an explanation that is refused: no number.
pub fn no_explanation() -> Explanation
    ensures { result ≡ no_explanation }
{
    Explanation {
        effective: EffectiveOrigin::OwnQuartile(f64::NAN),
        rise: RiseOrigin::EffectiveFloor(f64::NAN),
    }
}

pub fn explanation_of(x: Result<Explanation, Refusal>) -> Explanation
    ensures { result ≡ value_or no_explanation (numbered x) }
{
    x.unwrap_or(no_explanation())
}

// By 1 dB or more, up or down.
fn jumps(a: f64, b: f64) -> bool
    ensures { result ≡ told_jumps a b }
{
    a - b >= 1.0 || b - a >= 1.0
}

// An origin has changed, or a floor has jumped. Origins are compared by their numbers: == would compare the floors that they hold, too.
#[tactic(auto, unfolding(crate::specs::Told::is_news))]
pub fn is_news(before: Explanation, now: Explanation) -> bool
    ensures { result ≡ is_news before now }
{
    let e = before.effective;
    let f = now.effective;
    let s = before.rise;
    let t = now.rise;
    origins::effective_number(e) != origins::effective_number(f)
        || origins::rise_number(s) != origins::rise_number(t)
        || jumps(origins::effective_db(e), origins::effective_db(f))
        || jumps(origins::rise_db(s), origins::rise_db(t))
}
