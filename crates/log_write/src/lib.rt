// Document 02, R-1: the writer of a hop log. The log is measured first; where it does not fit, nothing is written.
#![tactic(auto)]

ghost use Rattle.std.specs.Prelude.{◌≡◌, ◌+◌, ◌*◌, ◌/◌, ◌%◌, ◌≤◌, length};
ghost use Rattle.laws.specs.Bits.{width};
ghost use Rattle.laws.specs.Tests.{tally};
ghost use Rattle.refusals.specs.Numbers.{answer, numbered};
ghost use Rattle.log_model.specs.Format.{changed, log_of, write_refusal, written};
ghost use Rattle.log_hops.specs.Put.{put};

use log_hops::Pairs;
use refusals::Refusal;

// The length of the log.
fn log_len(pairs: &Pairs<'_>) -> usize
    requires { (1 ≤ pairs.now.n) × (pairs.now.n ≤ 512) }
    ensures { result ≡ 2 + width pairs.now.n * (length pairs.now.db.now / pairs.now.n) + 12 * tally (length pairs.now.db.now) (changed pairs.now.n pairs.now.db.now pairs.now.power.now) }
{
    let maps = pairs.n.div_ceil(8) * (pairs.db.len() / pairs.n);
    2 + maps + 12 * pairs.count_changed(0, pairs.db.len())
}

// The whole log, which fits; the answer is its length. By numbers of hops: hop j begins at place n * j and is compared with the hop before it, of which
// a chunk would not tell.
fn put_log(pairs: &Pairs<'_>, log: &mut [u8]) -> usize
    requires le_n { (1 ≤ pairs.now.n) × ((pairs.now.n ≤ 512) × (length pairs.now.db.now % pairs.now.n ≡ 0)) }
    requires room { length (log_of pairs.now.n pairs.now.db.now pairs.now.power.now) ≤ length log.old }
    ensures value { result ≡ length (log_of pairs.now.n pairs.now.db.now pairs.now.power.now) }
    ensures log_after { log.new ≡ put 0 (log_of pairs.now.n pairs.now.db.now pairs.now.power.now) log.old }
{
    // No From leads from usize to u64.
    log_hops::put_low(log, 0, 2, pairs.n as u64);
    let mut at = 2;
    for j in 0..pairs.db.len() / pairs.n {
        at = pairs.put_hop(pairs.n * j, log, at);
    }
    at
}

// The checks in their order. Two slices still: only once they are known to be as long as one another are they Pairs. The bound of n is no part of Pairs
// either, since what else they are asked needs none.
#[tactic(auto, unfolding(log_model::specs::Format::write_refusal))]
fn write_refusal(n: usize, db: &[u64], power: &[u32], room: usize) -> Result<(), Refusal>
    ensures { answer result ≡ write_refusal n db.now power.now room }
{
    if n < 1 || n > 512 {
        return Err(Refusal::Band);
    }
    if db.len() != power.len() || db.len() % n != 0 {
        return Err(Refusal::HopSize);
    }
    if room < log_len(&Pairs { n, db, power }) {
        return Err(Refusal::StoreSize);
    }
    Ok(())
}

// The hops of n channels that stand one after another in the two slices, as a log. Bytes after it stay; with a refusal all do.
pub fn log_write(
    n: usize,
    db_bits: &[u64],
    power_bits: &[u32],
    log: &mut [u8],
) -> Result<usize, Refusal>
    ensures { (numbered result, log.new) ≡ written n db_bits.now power_bits.now log.old }
{
    write_refusal(n, db_bits, power_bits, log.len())?;
    let pairs = Pairs {
        n,
        db: db_bits,
        power: power_bits,
    };
    Ok(put_log(&pairs, log))
}
