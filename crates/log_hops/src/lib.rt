// Document 02, R-1: the bytes of one hop, for the writer of a log. A hop is told by its first place; that all of it stands in the slices is said where a
// hop is asked for, since `is_changed` and `count_changed` are asked of other stretches, too. For the three that write, a struct of Pairs and a first
// place could say it, but the proof doesn't close: in its `map_byte` nothing says that the length of the slices fits in usize, so `from + k` would need
// a bound of its own. And the clauses would read `self.now.pairs.n`.
#![tactic(auto)]

ghost use Rattle.std.specs.Prelude.{◌≡◌, cond, ◌&&◌, ◌+◌, ◌-◌, ◌*◌, ◌%◌, ◌<◌, ◌≤◌, ltb, length, get_or};
ghost use Rattle.laws.specs.Bits.{width, byte};
ghost use Rattle.laws.specs.Tests.{tally};
ghost use Rattle.low_first.specs.LowFirst.{low_bytes};
ghost use Rattle.log_model.specs.Format.{map_of, pair_of, pairs_of, hop_of, changed};
ghost use Rattle.log_hops.specs.Put.{put};
ghost use Rattle.log_hops.specs.Hop.{marked, db_bits, power_bits};

mod lent;

pub use lent::Pairs;

// What stood at place i in the hop before; before the first hop all are zero.
fn before<T: Copy>(n: usize, items: &[T], zero: T, i: usize) -> T
    requires { i < length items.now }
    ensures { result ≡ cond (ltb i n) zero (get_or items.now (i - n) zero) }
{
    if i < n { zero } else { items[i - n] }
}

// The bytes of x, the lowest first. One by one: `to_le_bytes` gives eight, and the width would have to be at most that, which nothing requires.
pub fn put_low(log: &mut [u8], at: usize, width: usize, x: u64)
    requires { at + width ≤ length log.old }
    ensures { log.new ≡ put at (low_bytes width x) log.old }
{
    let mut rest = x;
    for byte in log[at..at + width].iter_mut() {
        // A cast, since no From leads from 64 bits to 8. What it cuts is 0, which is proved.
        *byte = (rest % 256) as u8;
        rest /= 256;
    }
}

// The two numbers come from two slices: a struct of them would be made for this call alone.
fn put_pair(log: &mut [u8], at: usize, db: u64, power: u32)
    requires { at + 12 ≤ length log.old }
    ensures { log.new ≡ put at (pair_of db power) log.old }
{
    put_low(log, at, 8, db);
    put_low(log, at + 8, 4, u64::from(power));
}

impl Pairs<'_> {
    // The pair at place i is another than in the hop before.
    pub fn is_changed(&self, i: usize) -> bool
        requires { i < length self.now.db.now }
        ensures { result ≡ changed self.now.n self.now.db.now self.now.power.now i }
    {
        self.db[i] != before(self.n, self.db, 0, i)
            || self.power[i] != before(self.n, self.power, 0, i)
    }

    // How many of the `count` pairs from place `from` on are other ones.
    pub fn count_changed(&self, from: usize, count: usize) -> usize
        requires { from + count ≤ length self.now.db.now }
        ensures { (result ≡ tally count (marked self.now from)) × (result ≤ count) }
    {
        // A copy, here and in the two that write: whoever reads behind `self` reads where the slices are again at each turn.
        let pairs = *self;
        let mut changed = 0;
        for k in 0..count {
            changed += usize::from(pairs.is_changed(from + k));
        }
        changed
    }

    // Byte b of the map of the hop that begins at place `from`: whether each of eight pairs changed, the first in the lowest bit. The last byte may
    // have fewer than eight: a bit, its channel and its place are worked out from j.
    fn map_byte(&self, from: usize, b: usize) -> u8
        requires hop { from + self.now.n ≤ length self.now.db.now }
        requires few { b < 64 }
        ensures { result ≡ byte (λ j. ltb (8 * b + j) self.now.n && marked self.now from (8 * b + j)) }
    {
        let mut byte = 0;
        for j in 0..8 {
            let k = 8 * b + j;
            if k < self.n && self.is_changed(from + k) {
                byte += 1 << j;
            }
        }
        byte
    }

    fn put_map(&self, from: usize, log: &mut [u8], at: usize)
        requires hop { (from + self.now.n ≤ length self.now.db.now) × (self.now.n ≤ 512) }
        requires room { at + width self.now.n ≤ length log.old }
        ensures { log.new ≡ put at (map_of self.now.n (marked self.now from)) log.old }
    {
        let pairs = *self;
        let width = pairs.n.div_ceil(8);
        for (b, byte) in log[at..at + width].iter_mut().enumerate() {
            *byte = pairs.map_byte(from, b);
        }
    }

    // The changed pairs; the answer is where they end. By index: a pair is compared with that n places before it, which is another place of the same
    // slices.
    fn put_pairs(&self, from: usize, log: &mut [u8], at: usize) -> usize
        requires hop { from + self.now.n ≤ length self.now.db.now }
        requires room { at + 12 * tally self.now.n (marked self.now from) ≤ length log.old }
        ensures value { result ≡ at + 12 * tally self.now.n (marked self.now from) }
        ensures log_after { log.new ≡ put at (pairs_of self.now.n (marked self.now from) (db_bits self.now from) (power_bits self.now from)) log.old }
    {
        let pairs = *self;
        let mut pair = at;
        for k in 0..pairs.n {
            let i = from + k;
            if pairs.is_changed(i) {
                put_pair(log, pair, pairs.db[i], pairs.power[i]);
                pair += 12;
            }
        }
        pair
    }

    // The hop that begins at place `from`; the answer is where it ends.
    pub fn put_hop(&self, from: usize, log: &mut [u8], at: usize) -> usize
        requires hop { (from + self.now.n ≤ length self.now.db.now) × (self.now.n ≤ 512) }
        requires room { at + (width self.now.n + 12 * tally self.now.n (marked self.now from)) ≤ length log.old }
        ensures value { result ≡ at + (width self.now.n + 12 * tally self.now.n (marked self.now from)) }
        ensures log_after { log.new ≡ put at (hop_of self.now.n (marked self.now from) (db_bits self.now from) (power_bits self.now from)) log.old }
    {
        self.put_map(from, log, at);
        self.put_pairs(from, log, at + self.n.div_ceil(8))
    }
}
