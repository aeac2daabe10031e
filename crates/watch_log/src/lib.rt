// The next hop of a log. A hop is read into a log of its own, behind the header: the log's reader needs no more of it, so a log may be of any length.
// Patterns and values are slices and no structs: each is written here, and behind a struct of `&mut` the clauses would read values.exit.0.now for db.new.
#![tactic(auto)]

ghost use Rattle.std.specs.Prelude.{◌≡◌, ℕ, ◌+◌, ◌≤◌, length, get_or, Option, Result};
ghost use Rattle.laws.specs.Lists.{tab};
ghost use Rattle.log_model.specs.Read.{read_hop};
ghost use Rattle.refusals.specs.Numbers.{numbered};
ghost use Rattle.refusals.specs.declared.Refusal as R;
ghost use Rattle.watch_log.specs.Logged.{refused_by, step_by, logged_of};

use refusals::Refusal;
use streams::Source;
use watch_recording::{Hop, MOST, Stop, entry_at};

// The header, a map of 512 channels and their pairs.
const MOST_BYTES: usize = 6210;

// The float of each pattern. Past the end of the patterns there are zeros.
fn fill<B: Copy, V: Copy, F: Fn(B) -> V>(bits: &[B], zero: B, values: &mut [V], float: F)
    ghost of: { B → V }
    requires callable { F.IsAlwaysCallable float }
    requires float { (b : B) (v : V) → F.post float b v → v ≡ of b }
    ensures { values.new ≡ tab (length values.old) (λ k. of (get_or bits.now k zero)) }
{
    for (k, x) in values.iter_mut().enumerate() {
        *x = float(entry_at(bits, k, zero));
    }
}

// A cut hop is told by how much of it there is.
fn refused(refusal: Refusal, got: usize) -> Stop
    ensures { result ≡ refused_by refusal got }
{
    match refusal {
        Refusal::Cut => Stop::Cut(got),
        _ => Stop::Refused(refusal),
    }
}

// A log has no flag for static.
fn step_by(answer: Result<Option<usize>, Refusal>, got: usize) -> Result<Hop, Stop>
    ensures { result ≡ step_by answer got }
{
    match answer {
        Ok(Some(_)) => Ok(Hop {
            is_static: false,
            size: got,
        }),
        Ok(None) => Err(Stop::End),
        Err(refusal) => Err(refused(refusal, got)),
    }
}

// What the bytes of a hop say that stand behind the header in `log`.
#[tactic(auto, unfolding(crate::specs::Logged::logged_of))]
fn take_hop(
    log: &[u8],
    bits: &mut [u64],
    powers: &mut [u32],
    db: &mut [f64],
    power: &mut [f32],
) -> Result<Option<usize>, Refusal>
    ensures { (numbered result, bits.new, powers.new, db.new, power.new) ≡ logged_of (read_hop log.now 2 bits.old powers.old) (length db.old) (length power.old) }
{
    let answer = log_read::log_read(log, 2, bits, powers);
    fill(bits, 0, db, |b| low_first::double(b));
    fill(powers, 0, power, |b| low_first::single(b));
    answer
}

// What stands where the hop is due, of which `got` bytes stand behind the header, with its values: by the answer of the log's reader.
fn take_step(
    log: &[u8],
    got: usize,
    bits: &mut [u64],
    powers: &mut [u32],
    db: &mut [f64],
    power: &mut [f32],
) -> Result<Hop, Stop>
    ensures { (answer : Result (Option ℕ) R.Refusal) × ((numbered answer, bits.new, powers.new, db.new, power.new) ≡ logged_of (read_hop log.now 2 bits.old powers.old) (length db.old) (length power.old)) × (result ≡ step_by answer got) }
{
    let answer = take_hop(log, bits, powers, db, power);
    step_by(answer, got)
}

// The map of the next hop, then as many pairs as it says: how many bytes could be read. A bound of n is asked here alone, so no type has it.
fn read_bytes(source: &Source, log: &mut [u8; MOST_BYTES], n: usize) -> usize
    requires { n ≤ 512 }
    ensures { result ≤ 6208 }
{
    let map = n.div_ceil(8);
    let got = streams::read_full(source, &mut log[2..2 + map]);
    if got < map {
        return got;
    }
    let pairs = 12 * log_read::count_set(log, 2, n);
    map + streams::read_full(source, &mut log[2 + map..2 + map + pairs])
}

// The next hop: its bit patterns take the place of those of the hop before, and its values go to the lists.
pub fn read_hop(
    source: &Source,
    n: u16,
    bits: &mut [u64],
    powers: &mut [u32],
    db: &mut [f64],
    power: &mut [f32],
) -> Result<Hop, Stop> {
    // No heap: room for the largest hop.
    let mut log = [0u8; MOST_BYTES];
    log_hops::put_low(&mut log, 0, 2, u64::from(n));
    let got = read_bytes(source, &mut log, usize::from(n).min(MOST));
    take_step(&log[..2 + got], got, bits, powers, db, power)
}
