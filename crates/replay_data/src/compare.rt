// What a store and an answer are compared by.

ghost use Rattle.std.specs.Prelude.{◌≡◌, ◌+◌, ◌*◌, ◌%◌, ◌^◌, Bool, List, ℕ, length};
ghost use Rattle.laws.specs.Lists.{one};
ghost use Rattle.laws.specs.Tests.{differ};
ghost use Rattle.low_first.specs.LowFirst.{byte_at as byte_of};
ghost use Rattle.refusals.specs.Numbers.{answer, numbered};
ghost use Rattle.replay_data.specs.Records.{after, byte_stands, double_stands, differing, next_value, next_word, reading_differs, stores_differ, sum_of};

use crate::state::{Replay, after};
use low_first::{byte_at, double_at};
use model::Floors;
use refusals::{Refusal, answer};
use std::num::wrapping_add_u64;

// What stands in the list value by value: how many bytes each takes, and whether it is the one that stands there.
pub trait Listed: Copy {
    const BYTES: usize;

    ghost BYTES: { ℕ };

    ghost stands: { Self → List ℕ → ℕ → Bool };

    fn is_at(self, list: &[u8], at: usize) -> bool
        ensures { result ≡ stands self list.now at };
}

impl Listed for u8 {
    const BYTES: usize = 1;

    ghost BYTES = { 1 };

    ghost stands = { byte_stands };

    fn is_at(self, list: &[u8], at: usize) -> bool {
        self == byte_at(list, at, 0)
    }
}

// NaNs are equal, and so are zeros of either sign.
impl Listed for f64 {
    const BYTES: usize = 8;

    ghost BYTES = { 8 };

    ghost stands = { double_stands };

    fn is_at(self, list: &[u8], at: usize) -> bool {
        let due = double_at(list, at);
        self == due || self.is_nan() && due.is_nan()
    }
}

// How many differ so far, and where the next value stands. The place steps on with the values: worked out from a value's number it would be a product
// with BYTES, of which nothing says that it fits.
#[tactic(auto, using(laws::proofs::Counts::flag))]
fn next_value<T: Listed>(list: &[u8], so_far: (u64, usize), x: T) -> (u64, usize)
    ensures { result ≡ next_value T.stands T.BYTES list.now so_far x }
{
    let (count, at) = so_far;
    (
        wrapping_add_u64(count, u64::from(!x.is_at(list, at))),
        after(at, T::BYTES),
    )
}

// How many values differ from those that stand at `at`.
pub fn differing<T: Listed>(list: &[u8], at: usize, values: &[T]) -> u64
    ensures { result ≡ differing T.stands T.BYTES list.now at values.now }
{
    let (count, _) = values
        .iter()
        .fold((0, at), |so_far, x| next_value(list, so_far, *x));
    count
}

// Three times the sum so far and the next word: each place has a weight of its own.
fn next_word(sum: u64, word: u16) -> u64
    ensures { result ≡ next_word sum word }
{
    wrapping_add_u64(
        wrapping_add_u64(sum, sum),
        wrapping_add_u64(sum, u64::from(word)),
    )
}

pub fn sum_of(words: &[u16]) -> u64
    ensures { result ≡ sum_of words.now }
{
    words.iter().fold(0, |sum, word| next_word(sum, *word))
}

// The replay after a record of a store's sum and floats, which stand behind the record's first byte.
#[tactic(auto, using(laws::proofs::Counts::flag))]
pub fn passed_stores<'a>(r: Replay<'a>, words: &[u16], floats: &[f64]) -> Replay<'a>
    ensures place { (result.list ≡ r.entry.list) × (result.at ≡ after r.entry.at (9 + 8 * length floats.now)) }
    ensures counts { (result.records ≡ (r.entry.records + 1) % 2 ^ 64) × (result.differences ≡ (r.entry.differences + stores_differ r.entry.list.now r.entry.at words.now floats.now) % 2 ^ 64) }
    ensures kept { (result.hop ≡ r.entry.hop) × ((result.n ≡ r.entry.n) × (result.floats ≡ r.entry.floats)) }
{
    let sums = u64::from(sum_of(words) != r.number::<u64>(1));
    let differ = differing(r.list, after(r.at, 9), floats);
    r.passed(9 + 8 * floats.len(), wrapping_add_u64(sums, differ))
}

// 1 if a call's answer is not the one that stands so many bytes behind the record's start.
#[tactic(auto, using(laws::proofs::Counts::flag))]
pub fn answer_differs(r: Replay, i: usize, done: Result<(), Refusal>) -> u64
    ensures { result ≡ one (differ (answer done) (byte_of r.entry.list.now (r.entry.at + i))) }
{
    u64::from(answer(done) != u16::from(r.byte(i)))
}

// 1 if a reading is not the one that is due: the number of its refusal, or 0 and the value at `at`.
#[tactic(auto, using(laws::proofs::Counts::flag))]
fn reading_differs(got: Result<f64, Refusal>, due: u8, list: &[u8], at: usize) -> u64
    ensures { result ≡ one (reading_differs (numbered got) due list.now at) }
{
    u64::from(match got {
        Ok(x) => due != 0 || !x.is_at(list, at),
        Err(refusal) => refusal.number() != u16::from(due),
    })
}

// The replay after a record of a reading: what is due stands behind the record's kind, the reading's and the channel, and then the value.
pub fn passed_reading<'a>(r: Replay<'a>, got: Result<f64, Refusal>) -> Replay<'a>
    ensures place { (result.list ≡ r.entry.list) × (result.at ≡ after r.entry.at 12) }
    ensures counts { (result.records ≡ (r.entry.records + 1) % 2 ^ 64) × (result.differences ≡ (r.entry.differences + one (reading_differs (numbered got) (byte_of r.entry.list.now (r.entry.at + 3)) r.entry.list.now (after r.entry.at 4))) % 2 ^ 64) }
    ensures kept { (result.hop ≡ r.entry.hop) × ((result.n ≡ r.entry.n) × (result.floats ≡ r.entry.floats)) }
{
    let differs = reading_differs(got, r.byte(3), r.list, after(r.at, 4));
    r.passed(12, differs)
}

// How many of the three floors are not the ones that are due; 3 where a refusal is due.
pub fn floors_differ(got: Result<Floors, Refusal>, due: u8, list: &[u8], at: usize) -> u64 {
    match got {
        Ok(_) if due != 0 => 3,
        Ok(f) => differing(list, at, &[f.effective, f.rise, f.raw]),
        Err(refusal) => u64::from(refusal.number() != u16::from(due)),
    }
}
