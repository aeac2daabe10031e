// The median by rank: no sorting, no copy.
#![tactic(auto)]

ghost use Rattle.std.specs.Prelude.{◌≡◌, ◌*◌, ◌<◌, Bool, Float, length};
ghost use Rattle.std.specs.Float.Ieee.{lt, le};
ghost use Rattle.laws.specs.Lists.{count};
ghost use Rattle.model.specs.Layout.{block_channels};
ghost use Rattle.model.specs.Bank.{block, stands_at, ranked, median};

use model::layout::BLOCK_CHANNELS;

// How many pass a test: a loop without a way out, so that it can run several lanes wide.
fn count_of<F: Fn(f64) -> bool>(l: &[f64], passes: F) -> usize
    requires { F.IsAlwaysCallable passes }
    ensures { (p : Float → Bool) → ((x : Float) (r : Bool) → F.post passes x r → r ≡ p x) → result ≡ count p l.now }
{
    let mut n: usize = 0;
    for &x in l {
        n += usize::from(passes(x));
    }
    n
}

fn stands_at(l: &[f64], rank: usize, x: f64) -> bool
    ensures { result ≡ stands_at rank l.now x }
{
    count_of(l, |y| y < x) <= rank && rank < count_of(l, |y| y <= x)
}

// The first value that stands at the rank; only of values among which is a NaN does none.
fn ranked_value(l: &[f64], rank: usize) -> f64
    requires { 0 < length l.now }
    ensures { result ≡ ranked rank l.now }
{
    for &x in l {
        if stands_at(l, rank, x) {
            return x;
        }
    }
    l[0]
}

#[tactic(auto, unfolding(model::specs::Bank::median))]
pub fn median(l: &[f64]) -> f64
    requires { 0 < length l.now }
    ensures { result ≡ median l.now }
{
    let middle = l.len() / 2;
    if l.len() % 2 == 1 {
        return ranked_value(l, middle);
    }
    let lower = ranked_value(l, middle - 1);
    let upper = ranked_value(l, middle);
    0.5 * (lower + upper)
}

// Block i's median: of a whole block's values, or of what is left in the last block.
pub fn block_median(l: &[f64], i: usize) -> f64
    requires { block_channels * i < length l.now }
    ensures { result ≡ median (block i l.now) }
{
    let a = BLOCK_CHANNELS * i;
    let e = (a + BLOCK_CHANNELS).min(l.len());
    median(&l[a..e])
}
