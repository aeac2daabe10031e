// Document 01, "Windows, ladder, gate": the rise of one length.
#![tactic(auto)]

ghost use Rattle.std.specs.Prelude.{◌≡◌, ◌+◌, ◌%◌, ◌<◌, ◌≤◌, length, get_or};
ghost use Rattle.std.specs.Float.{binary64};
ghost use Rattle.std.specs.Float.Ieee.{mul};
ghost use Rattle.laws.specs.Lists.{tab};
ghost use Rattle.model.specs.Numbers.{f0};
ghost use Rattle.model.specs.Windows.{stronger, beside_stronger, look_rises};
ghost use Rattle.windows.specs.Looks.{LookFits, looks_in};
ghost use Rattle.window_rises.specs.Marking.{marked, sums_rise};

use cursors::Cursor;

// The mark of a channel of which nothing was found to rise. Marks are bytes, as C lends them.
const UNMARKED: u8 = 0;

// The next functions are one test taken apart, of channel k among the sums of all: the slices and k go down from each to the next, and k is within
// them in each. A struct of them, with the bounds as its invariant, would be made anew for every channel of every length, and then be taken apart
// at once: no plainer than three short clauses.

// Channel j is another than k, and its recent sum is strictly larger.
fn stronger(recent: &[f64], k: usize, j: usize) -> bool
    requires { (k < length recent.now) × (j < length recent.now) }
    ensures { result ≡ stronger recent.now k j }
{
    j != k && recent[k] < recent[j]
}

// The remainder of j by n, without a division: j is less than three turns on.
fn wrapped(j: usize, n: usize) -> usize
    requires { j < n + n + n }
    ensures { (result ≡ j % n) × (result < n) }
{
    if j < n {
        return j;
    }
    let once = j - n;
    if once < n {
        return once;
    }
    once - n
}

// A channel at distance 1 or 2 is stronger: with few channels the way round may lead back to k itself.
#[tactic(auto, unfolding(model::specs::Windows::beside_stronger))]
fn beside_stronger(recent: &[f64], k: usize) -> bool
    requires { (k < length recent.now) × (length recent.now ≤ 512) }
    ensures { result ≡ beside_stronger (length recent.now) recent.now k }
{
    let n = recent.len();
    stronger(recent, k, wrapped(k + 2 * n - 2, n))
        || stronger(recent, k, wrapped(k + 2 * n - 1, n))
        || stronger(recent, k, wrapped(k + 1, n))
        || stronger(recent, k, wrapped(k + 2, n))
}

// Both sums of k reach the level, and no channel beside k is stronger.
fn sums_rise(recent: &[f64], previous: &[f64], k: usize, level: f64) -> bool
    requires { (k < length recent.now) × (length recent.now ≤ 512) × (length previous.now ≡ length recent.now) }
    ensures { result ≡ sums_rise recent.now previous.now k level }
{
    recent[k] >= level && previous[k] >= level && !beside_stronger(recent, k)
}

// The channels whose windows are full: those that rise are marked, and a mark that is there stays.
fn mark_full(recent: &[f64], previous: &[f64], thresholds: &[f64], m: f64, rise: &mut [u8])
    requires { (length recent.now ≡ length rise.old) × (length previous.now ≡ length rise.old) × (length thresholds.now ≡ length rise.old) × (length rise.old ≤ 512) }
    ensures { rise.new ≡ tab (length rise.old) (λ k. marked (get_or rise.old k 0) (sums_rise recent.now previous.now k (mul binary64 (get_or thresholds.now k f0) m))) }
{
    for (k, mark) in rise.iter_mut().enumerate() {
        if *mark == UNMARKED && sums_rise(recent, previous, k, thresholds[k] * m) {
            *mark = 1;
        }
    }
}

// One length for all channels. Windows that are not full mark none.
pub fn mark_look(look: &[f64], c: Cursor, thresholds: &[f64], rise: &mut [u8])
    requires { LookFits look.now (length rise.old) c.m × (length thresholds.now ≡ length rise.old) }
    ensures { rise.new ≡ tab (length rise.old) (λ k. marked (get_or rise.old k 0) (look_rises (length rise.old) (get_or thresholds.now k f0) k (looks_in look.now c (length rise.old)))) }
{
    let n = rise.len();
    let m = c.m;
    if c.filled != 2 * m {
        return;
    }
    let recent = 2 * m * n;
    let previous = recent + n;
    let end = previous + n;
    mark_full(
        &look[recent..previous],
        &look[previous..end],
        thresholds,
        // No From leads to f64 from so wide a number.
        m as f64,
        rise,
    );
}
