// Document 02, R-8: two logs of equal n and equal number of hops, combined by selection. One pass over both in step judges them and
// measures the result, another writes it; what stands at each hop is kept in arrays of 512 channels or twice as many, since there is no heap. Where the
// first pass says no, the number of the refusal is worked out from each log by itself.
#![tactic(auto)]

ghost use Rattle.std.specs.Prelude.{◌≡◌, cond, ◌&&◌, ◌++◌, ◌+◌, ◌*◌, ◌≤◌, eqb, ltb, leb, length, drop, Some, None};
ghost use Rattle.laws.specs.Lists.{tab};
ghost use Rattle.laws.specs.Bits.{width};
ghost use Rattle.laws.specs.Tests.{tally, differ};
ghost use Rattle.low_first.specs.LowFirst.{low_two};
ghost use Rattle.refusals.specs.Numbers.{number_of, numbered};
ghost use Rattle.refusals.specs.Readings.{some_or};
ghost use Rattle.log_model.specs.Format.{changed};
ghost use Rattle.log_model.specs.Read.{read_hop};
ghost use Rattle.log_hops.specs.Put.{put};
ghost use Rattle.combine_model.specs.Choose.{chosen_at};
ghost use Rattle.combine_model.specs.Combined.{hop_count, combined_log, Paired, combined};
ghost use Rattle.log_combine.specs.Passes.{second_half, Lent, Begun, Ready, Judged, alike_no, no_of};

use log_hops::Pairs;
use refusals::Refusal;

// A place in the first log and one in the second: where the next hop of each begins, or where each ends.
#[derive(Clone, Copy)]
pub struct Places {
    pub first: usize,
    pub second: usize,
}

impl Places {
    // Both logs stand before a hop, or where one should be.
    fn is_before(self, ends: Places) -> bool
        ensures { result ≡ (ltb self.first ends.first && ltb self.second ends.second) }
    {
        self.first < ends.first && self.second < ends.second
    }

    // Whether both logs moved and the next hop of the result fits in what is left.
    fn goes_on(self, next: Places, more: usize, left: usize) -> bool
        ensures { result ≡ (ltb self.first next.first && (ltb self.second next.second && leb more left)) }
    {
        self.first < next.first && (self.second < next.second && more <= left)
    }

    // After the last turn: it fits if both logs ended.
    fn fit_at(self, ends: Places, hops: usize) -> Option<usize>
        ensures { result ≡ cond (eqb self.first ends.first && eqb self.second ends.second) (Some hops) None }
    {
        (self.first == ends.first && self.second == ends.second).then_some(hops)
    }
}

// ---- both in step

// What stands in the second half goes to the first.
fn step_back<T: Copy>(n: usize, items: &mut [T])
    requires { length items.old ≡ n + n }
    ensures { items.new ≡ drop n items.old ++ drop n items.old }
{
    let (front, back) = items.split_at_mut(n);
    // By entries: as one copy the archive would need another function from outside.
    for (k, kept) in front.iter_mut().enumerate() {
        *kept = back[k];
    }
}

// One hop on in both logs. The selection that stood in the second halves of `db` and `power` stands in the first then, and behind it
// the selection after this hop. Slices of dB and of power here and in the passes, and no struct of them: a turn writes them all, and behind a struct of
// `&mut` a clause would read lent.exit.db.now. Places and no readers: whoever turns compares the places before with those after.
fn turn(
    first: &[u8],
    second: &[u8],
    at: Places,
    d: &mut [u64],
    p: &mut [u32],
    e: &mut [u64],
    q: &mut [u32],
    db: &mut [u64],
    power: &mut [u32],
) -> Places
    requires lent { Lent (length d.old) p.old e.old q.old }
    requires db_len { (length db.old ≡ length d.old + length d.old) × (length power.old ≡ length d.old + length d.old) }
    ensures first_value { (result.first ≡ some_or at.first (read_hop first.now at.first d.old p.old).0) × (result.second ≡ some_or at.second (read_hop second.now at.second e.old q.old).0) }
    ensures d_after { (d.new ≡ (read_hop first.now at.first d.old p.old).1) × (p.new ≡ (read_hop first.now at.first d.old p.old).2) }
    ensures e_after { (e.new ≡ (read_hop second.now at.second e.old q.old).1) × (q.new ≡ (read_hop second.now at.second e.old q.old).2) }
    ensures db_after { db.new ≡ second_half (length d.old) db.old ++ tab (length d.old) (chosen_at p.new q.new d.new e.new) }
    ensures power_after { power.new ≡ second_half (length d.old) power.old ++ tab (length d.old) (chosen_at p.new q.new p.new q.new) }
{
    let n = d.len();
    step_back(n, db);
    step_back(n, power);
    let one = log_read::log_read(first, at.first, d, p);
    let two = log_read::log_read(second, at.second, e, q);
    let hop = Pairs { n, db: d, power: p };
    let other = Pairs { n, db: e, power: q };
    combine_choose::choose(&hop, &other, n, db, power);
    Places {
        first: log_reader::place_after(one, at.first),
        second: log_reader::place_after(two, at.second),
    }
}

// The length of the hop that stands in the second half, after the hop in the first. That n is at most 512 is asked here and by the writer, and not of all
// Pairs: to choose between them, or to ask whether one changed, takes no bound, and the type would ask for one.
fn hop_len(pairs: &Pairs<'_>) -> usize
    requires { (pairs.now.n ≤ 512) × (length pairs.now.db.now ≡ pairs.now.n + pairs.now.n) }
    ensures { result ≡ width pairs.now.n + 12 * tally pairs.now.n (λ k. changed pairs.now.n pairs.now.db.now pairs.now.power.now (pairs.now.n + k)) }
{
    pairs.n.div_ceil(8) + 12 * pairs.count_changed(pairs.n, pairs.n)
}

// The first pass: with how many hops both logs pass and the result has room, or none. Only a hop that was read moves a log's place; the
// length is never worked out further than there is room. A while: how many turns there are is known only once they are made.
fn judge_on(
    first: &[u8],
    second: &[u8],
    room: usize,
    d: &mut [u64],
    p: &mut [u32],
    e: &mut [u64],
    q: &mut [u32],
    db: &mut [u64],
    power: &mut [u32],
) -> Option<usize>
    requires { Begun first.now second.now room d.old p.old e.old q.old db.old power.old }
    ensures { Judged first.now second.now room result }
{
    let n = d.len();
    let ends = Places {
        first: first.len(),
        second: second.len(),
    };
    let mut at = Places {
        first: 2,
        second: 2,
    };
    let mut len = 2;
    let mut hops = 0;
    while at.is_before(ends) {
        let next = turn(first, second, at, d, p, e, q, db, power);
        let more = hop_len(&Pairs { n, db, power });
        if !at.goes_on(next, more, room - len) {
            return None;
        }
        at = next;
        len += more;
        hops += 1;
    }
    at.fit_at(ends, hops)
}

// The second pass: the result, which has room. The answer is its length.
fn write_on(
    first: &[u8],
    second: &[u8],
    hops: usize,
    log: &mut [u8],
    d: &mut [u64],
    p: &mut [u32],
    e: &mut [u64],
    q: &mut [u32],
    db: &mut [u64],
    power: &mut [u32],
) -> usize
    requires ready { Ready first.now second.now hops d.old p.old e.old q.old db.old power.old }
    requires second_in_bounds { length (combined_log first.now second.now) ≤ length log.old }
    ensures value { result ≡ length (combined_log first.now second.now) }
    ensures log_after { log.new ≡ put 0 (combined_log first.now second.now) log.old }
{
    let n = d.len();
    // No From leads from usize to u64.
    log_hops::put_low(log, 0, 2, n as u64);
    let mut at = Places {
        first: 2,
        second: 2,
    };
    let mut len = 2;
    for _ in 0..hops {
        at = turn(first, second, at, d, p, e, q, db, power);
        let chosen = Pairs { n, db, power };
        len = chosen.put_hop(n, log, len);
    }
    len
}

// Headers that are refused, or tell unequal n, stop it before the first hop. The arrays are made here and once more in `write`: a function cannot hand
// out slices of its own, and one that lends them to a closure would say each pass's contract once more, of the closure.
fn judge(first: &[u8], second: &[u8], room: usize) -> Option<usize>
    ensures { Judged first.now second.now room result }
{
    if room < 2 {
        return None;
    }
    let n = usize::from(low_first::two_bytes(first, 0));
    log_read::start_refusal(first, 2, n, n).ok()?;
    log_read::start_refusal(second, 2, n, n).ok()?;
    let two = n + n;
    let mut d = [0u64; 512];
    let mut p = [0u32; 512];
    let mut e = [0u64; 512];
    let mut q = [0u32; 512];
    let mut db = [0u64; 1024];
    let mut power = [0u32; 1024];
    judge_on(
        first,
        second,
        room,
        &mut d[..n],
        &mut p[..n],
        &mut e[..n],
        &mut q[..n],
        &mut db[..two],
        &mut power[..two],
    )
}

fn write(first: &[u8], second: &[u8], hops: usize, log: &mut [u8]) -> usize
    requires paired { Paired first.now second.now hops }
    requires second_in_bounds { length (combined_log first.now second.now) ≤ length log.old }
    ensures value { result ≡ length (combined_log first.now second.now) }
    ensures log_after { log.new ≡ put 0 (combined_log first.now second.now) log.old }
{
    let n = usize::from(low_first::two_bytes(first, 0));
    let two = n + n;
    let mut d = [0u64; 512];
    let mut p = [0u32; 512];
    let mut e = [0u64; 512];
    let mut q = [0u32; 512];
    let mut db = [0u64; 1024];
    let mut power = [0u32; 1024];
    write_on(
        first,
        second,
        hops,
        log,
        &mut d[..n],
        &mut p[..n],
        &mut e[..n],
        &mut q[..n],
        &mut db[..two],
        &mut power[..two],
    )
}

// ---- each log to its end, for the number of a refusal

// From the first hop on, the slices zero: how many hops there are, or the refusal that ends them. A while: the reader says which hop is the last.
fn count_on(log: &[u8], db: &mut [u64], power: &mut [u32]) -> Result<usize, Refusal>
    requires { (db.old ≡ tab (low_two log.now 0) (λ _. 0)) × (power.old ≡ tab (low_two log.now 0) (λ _. 0)) }
    ensures { numbered result ≡ hop_count log.now }
{
    let mut at = 2;
    let mut hops_read = 0;
    while let Some(next) = log_read::log_read(log, at, db, power)? {
        at = next;
        hops_read += 1;
    }
    Ok(hops_read)
}

fn count_hops(log: &[u8]) -> Result<usize, Refusal>
    ensures { numbered result ≡ hop_count log.now }
{
    let n = usize::from(low_first::two_bytes(log, 0));
    log_read::start_refusal(log, 2, n, n)?;
    let mut db = [0u64; 512];
    let mut power = [0u32; 512];
    count_on(log, &mut db[..n], &mut power[..n])
}

// Of two logs that read to their ends: no room is left for those that are alike.
fn alike_no(unequal: bool, hops: usize, others: usize) -> Refusal
    ensures { number_of result ≡ alike_no unequal hops others }
{
    if unequal || hops != others {
        Refusal::Unlike
    } else {
        Refusal::StoreSize
    }
}

// The refusal, from what was counted in each log.
fn no_of(one: Result<usize, Refusal>, two: Result<usize, Refusal>, unequal: bool) -> Refusal
    ensures { number_of result ≡ no_of (numbered one) (numbered two) unequal }
{
    match one {
        Ok(hops) => match two {
            Ok(others) => alike_no(unequal, hops, others),
            Err(r) => r,
        },
        Err(r) => r,
    }
}

fn refusal(first: &[u8], second: &[u8]) -> Refusal
    ensures { number_of result ≡ no_of (hop_count first.now) (hop_count second.now) (differ (low_two first.now 0) (low_two second.now 0)) }
{
    let unequal = low_first::two_bytes(first, 0) != low_first::two_bytes(second, 0);
    no_of(count_hops(first), count_hops(second), unequal)
}

// ---- the call

// The two logs combined. Bytes after the result stay; with a refusal all do.
pub fn log_combine(first: &[u8], second: &[u8], log: &mut [u8]) -> Result<usize, Refusal>
    ensures { (numbered result, log.new) ≡ combined first.now second.now log.old }
{
    match judge(first, second, log.len()) {
        Some(hops) => Ok(write(first, second, hops, log)),
        None => Err(refusal(first, second)),
    }
}
