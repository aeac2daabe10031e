// Document 02, R-1: the reader of a hop log, one hop on. Everything is checked before anything is written. The dB bits and the power bits are two slices,
// as C lends them: `take_pairs` writes both, and a clause would name what is behind a struct of two `&mut` by two steps more. So each function behind
// `start_refusal` requires again what that one found, that they are equally long and at most 512. The log and a place in it come apart, too, as C lends
// them: `log_reader` has the record of both.
#![tactic(auto)]

ghost use Rattle.std.specs.Prelude.{◌≡◌, ◌&&◌, ◌+◌, ◌-◌, ◌*◌, ◌/◌, ◌<◌, ◌≤◌, eqb, length};
ghost use Rattle.laws.specs.Lists.{tab};
ghost use Rattle.laws.specs.Bits.{width};
ghost use Rattle.laws.specs.Tests.{any_below, tally};
ghost use Rattle.low_first.specs.LowFirst.{low_four, low_eight};
ghost use Rattle.refusals.specs.Numbers.{answer, numbered};
ghost use Rattle.log_model.specs.Read.{is_set, pair_at, unchanged, channels, start_refusal, hop_refusal, db_after, power_after, read_hop};

use refusals::Refusal;

// Bit k of the map at `at`.
fn is_set(log: &[u8], at: usize, k: usize) -> bool
    requires { at + k / 8 < length log.now }
    ensures { result ≡ is_set log.now at k }
{
    (log[at + k / 8] >> (k % 8)) % 2 == 1
}

// Some bit past the n channels is set.
fn is_set_past(log: &[u8], at: usize, n: usize) -> bool
    requires { (n ≤ 512) × (at + width n ≤ length log.now) }
    ensures { result ≡ any_below (8 * width n - n) (λ i. is_set log.now at (n + i)) }
{
    (n..8 * n.div_ceil(8)).any(|k| is_set(log, at, k))
}

// How many channels have a pair.
pub fn count_set(log: &[u8], at: usize, n: usize) -> usize
    requires { at + width n ≤ length log.now }
    ensures { (result ≡ tally n (is_set log.now at)) × (result ≤ n) }
{
    let mut count = 0;
    for k in 0..n {
        count += usize::from(is_set(log, at, k));
    }
    count
}

// The pair at `pair` is this one: two numbers, each from its own slice.
fn is_pair(log: &[u8], pair: usize, db: u64, power: u32) -> bool
    requires { pair + 12 ≤ length log.now }
    ensures { result ≡ eqb (low_eight log.now pair) db && eqb (low_four log.now (pair + 8)) power }
{
    low_first::eight_within(log, pair) == db && low_first::four_within(log, pair + 8) == power
}

// Some pair of the hop is the one that the slices hold already. By index and with a return: the place of the pair goes from turn to turn, and a test
// in `any` that moves it would hide that.
fn is_unchanged(log: &[u8], at: usize, db: &[u64], power: &[u32]) -> bool
    requires { (length db.now ≤ 512) × ((length power.now ≡ length db.now) × (pair_at log.now at (length db.now) (length db.now) ≤ length log.now)) }
    ensures { result ≡ any_below (length db.now) (unchanged log.now at (length db.now) db.now power.now) }
{
    let mut pair = at + db.len().div_ceil(8);
    for k in 0..db.len() {
        if is_set(log, at, k) {
            if is_pair(log, pair, db[k], power[k]) {
                return true;
            }
            pair += 12;
        }
    }
    false
}

// The n of a log's header.
#[tactic(auto, unfolding(log_model::specs::Read::header_refusal, log_model::specs::Read::channels))]
pub fn log_channels(log: &[u8]) -> Result<usize, Refusal>
    ensures { numbered result ≡ channels log.now }
{
    if log.len() < 2 {
        return Err(Refusal::Cut);
    }
    let n = usize::from(low_first::two_bytes(log, 0));
    if n < 1 || n > 512 {
        return Err(Refusal::Band);
    }
    Ok(n)
}

// The refusals before a hop.
#[tactic(auto, unfolding(log_model::specs::Read::channels, log_model::specs::Read::start_refusal))]
pub fn start_refusal(log: &[u8], at: usize, dbs: usize, powers: usize) -> Result<(), Refusal>
    ensures { answer result ≡ start_refusal log.now at dbs powers }
{
    let n = log_channels(log)?;
    if dbs != n || powers != n {
        return Err(Refusal::HopSize);
    }
    if at < 2 || at > log.len() {
        return Err(Refusal::Cut);
    }
    Ok(())
}

// The refusals within a hop.
#[tactic(auto, unfolding(log_model::specs::Read::hop_refusal, log_model::specs::Read::pair_at))]
fn hop_refusal(log: &[u8], at: usize, db: &[u64], power: &[u32]) -> Result<(), Refusal>
    requires { (length db.now ≤ 512) × ((length power.now ≡ length db.now) × (at ≤ length log.now)) }
    ensures { answer result ≡ hop_refusal log.now at (length db.now) db.now power.now }
{
    let n = db.len();
    let pairs = at + n.div_ceil(8);
    if log.len() < pairs {
        return Err(Refusal::Cut);
    }
    if is_set_past(log, at, n) {
        return Err(Refusal::Damaged);
    }
    if log.len() < pairs + 12 * count_set(log, at, n) {
        return Err(Refusal::Cut);
    }
    if is_unchanged(log, at, db, power) {
        return Err(Refusal::Damaged);
    }
    Ok(())
}

// The pairs of a hop into the slices; the answer is where the hop ends. By index, since a turn asks for bit k and writes the same place of two slices.
fn take_pairs(log: &[u8], at: usize, db: &mut [u64], power: &mut [u32]) -> usize
    requires { (length db.old ≤ 512) × ((length power.old ≡ length db.old) × (pair_at log.now at (length db.old) (length db.old) ≤ length log.now)) }
    ensures value { result ≡ pair_at log.now at (length db.old) (length db.old) }
    ensures db_after { db.new ≡ tab (length db.old) (db_after log.now at (length db.old) db.old) }
    ensures power_after { power.new ≡ tab (length db.old) (power_after log.now at (length db.old) power.old) }
{
    let n = db.len();
    let mut pair = at + n.div_ceil(8);
    for k in 0..n {
        if is_set(log, at, k) {
            db[k] = low_first::eight_within(log, pair);
            power[k] = low_first::four_within(log, pair + 8);
            pair += 12;
        }
    }
    pair
}

// One hop on: the slices become the next hop, and the answer is where the one after it begins. At the end there is none; then, and with
// a refusal, the slices stay as they are.
pub fn log_read(
    log: &[u8],
    at: usize,
    db_bits: &mut [u64],
    power_bits: &mut [u32],
) -> Result<Option<usize>, Refusal>
    ensures { (numbered result, db_bits.new, power_bits.new) ≡ read_hop log.now at db_bits.old power_bits.old }
{
    start_refusal(log, at, db_bits.len(), power_bits.len())?;
    if at == log.len() {
        return Ok(None);
    }
    hop_refusal(log, at, db_bits, power_bits)?;
    Ok(Some(take_pairs(log, at, db_bits, power_bits)))
}
