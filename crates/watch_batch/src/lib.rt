// A batch of hops of a recording: its bytes, how many hops they are, their values, and the gate's smoothed dB after each of them. It lies
// within the 15 hops from a slow hop to the next, of which only the first moves the floors. dB and powers are two slices, here and where a hop is
// read or heard: the calls of the bank take them so, and behind a struct of `&mut` a clause on what is written reads values.exit.0.now.
#![tactic(auto)]

ghost use Rattle.std.specs.Prelude.{◌≡◌, ◌+◌, ◌*◌, ◌<◌, ◌≤◌, length, get_or, Err, IfOk};
ghost use Rattle.laws.specs.Lists.{tab};
ghost use Rattle.refusals.specs.declared.Refusal as F;
ghost use Rattle.model.specs.Numbers.{f0};
ghost use Rattle.model.specs.Gate.{db_after};
ghost use Rattle.watch_recording.specs.Recording.{hop_bytes, step_of};
ghost use Rattle.watch_recording.specs.declared.Stop as S;
ghost use Rattle.watch_batch.specs.Batch.{start_of, Whole, Front, hop_taken, smooth_after, started_after, with_front};

use streams::Source;
use watch_recording::{Stop, entry_at, hop_bytes, step_of};

// From a slow hop to the next.
pub const MOST_HOPS: usize = 15;

// Their bytes and their values, at most.
pub const MOST_BYTES: usize = 92175;

pub const MOST_VALUES: usize = 7680;

// Where the hop of this number begins among the bytes of its 15.
pub fn start_of(hop: u64, n: u16) -> usize
    ensures { (result ≡ start_of hop n) × (result < 16777216) }
{
    // No From leads from u64 to usize.
    hop_bytes(n) * (hop % 15) as usize
}

// What is there, of what goes to the lent bytes.
fn read_there(source: &Source, bytes: &mut [u8]) -> usize
    ensures { result ≤ length bytes.new }
{
    streams::read(source, bytes)
}

// Behind the first `have` bytes one read of what is there; and where that ends before `due`, the rest up to it.
fn read_behind(source: &Source, bytes: &mut [u8], have: usize, due: usize) -> usize
    requires { (have < due) × (due ≤ length bytes.old) }
    ensures { (have ≤ result) × (result ≤ length bytes.old) }
{
    let got = have + read_there(source, &mut bytes[have..]);
    if got == have {
        return have;
    }
    if got >= due {
        return got;
    }
    got + streams::read_full(source, &mut bytes[got..due])
}

// At a slow hop the bytes of the hops before it are done with.
fn held_of(at: usize, have: usize, len: usize) -> usize
    ensures { result ≤ len }
{
    if at == 0 { 0 } else { have.min(len) }
}

// The bytes of a recording up to a whole hop or its end, and more if more is there: so a hop waits for none behind it.
pub fn read_on(source: &Source, hop: u64, n: u16, bytes: &mut [u8], have: usize) -> usize
    ensures { result ≤ length bytes.old }
{
    let at = start_of(hop, n);
    let due = (at + hop_bytes(n)).min(bytes.len());
    let held = held_of(at, have, bytes.len());
    if held >= due {
        return held;
    }
    read_behind(source, bytes, held, due)
}

// How many whole hops stand in front, each with a flag that means something.
pub fn whole_hops(bytes: &[u8], size: usize) -> usize
    requires { 0 < size }
    ensures { Whole bytes.now size result × (size * result ≤ length bytes.now) }
{
    let whole = bytes.len() / size;
    // Over indices: where a hop begins is worked out from its number, and the number is the answer. Of the `position` of a chunk the check finds no proof.
    for i in 0..whole {
        if bytes[size * i] > 1 {
            return i;
        }
    }
    whole
}

// How many hops a batch takes: the whole ones in front, at most those up to the next slow hop; or why there is none.
#[tactic(auto, using(crate::proofs::Firsts::front))]
pub fn batch_hops(bytes: &[u8], size: usize) -> Result<usize, Stop>
    requires { 0 < size }
    ensures ok { IfOk result (λ hops. Front bytes.now size hops) }
    ensures err { (stop : S.Stop F.Refusal) → result ≡ Err stop → step_of bytes.now size ≡ Err stop }
{
    step_of(bytes, size)?;
    Ok(whole_hops(bytes, size).min(MOST_HOPS))
}

// The flag and the values of a whole hop.
fn take_hop(hop: &[u8], n: u16, db: &mut [f64], power: &mut [f32]) -> u8
    requires { 0 < length hop.now }
    ensures { (result, db.new, power.new) ≡ hop_taken hop.now n (length db.old) (length power.old) }
{
    watch_recording::fill_db(hop, db);
    watch_recording::fill_power(hop, n, power);
    hop[0]
}

// The flags and the values of so many hops as `hold` is long, of k channels each.
pub fn take_values(
    bytes: &[u8],
    n: u16,
    k: usize,
    hold: &mut [u8],
    db: &mut [f64],
    power: &mut [f32],
)
    requires { (hop_bytes n * length hold.old ≤ length bytes.now) × (length db.old ≡ k * length hold.old) × (length power.old ≡ k * length hold.old) }
{
    let size = hop_bytes(n);
    // Over indices: the places of hop i in the bytes and in the lists are worked out from i. Chunks of k values would ask for a k above 0.
    for i in 0..hold.len() {
        let (at, to) = (size * i, k * i);
        hold[i] = take_hop(
            &bytes[at..at + size],
            n,
            &mut db[to..to + k],
            &mut power[to..to + k],
        );
    }
}

fn db_after(started: u16, s: f64, x: f64) -> f64
    ensures { result ≡ db_after started s x }
{
    if started == 0 {
        x
    } else {
        powers::smooth_step(s, x)
    }
}

fn follow_db(started: u16, smooth: &mut [f64], db: &[f64])
    ensures { smooth.new ≡ tab (length smooth.old) (λ k. db_after started (get_or smooth.old k f0) (get_or db.now k f0)) }
{
    for (k, s) in smooth.iter_mut().enumerate() {
        *s = db_after(started, *s, entry_at(db, k, 0.0));
    }
}

// The gate's smoothed dB after a hop. Here and below `hold` is a byte, as a run lends its hops' flags, and `started` the number that stands in the
// gate's store: as bools both would be made from these at each hop, and the definitions of the gate would be asked for numbers of them.
pub fn smooth_hop(hold: u8, started: u16, smooth: &mut [f64], db: &[f64])
    ensures { smooth.new ≡ smooth_after hold started smooth.old db.now }
{
    if hold == 0 {
        follow_db(started, smooth, db);
    }
}

pub fn started_after(hold: u8, started: u16) -> u16
    ensures { result ≡ started_after hold started }
{
    if hold == 0 { 1 } else { started }
}

// Whether the gate has had an update, as its store says it.
pub fn started_of(gate: &[u16]) -> u16
    ensures { result ≡ get_or gate.now 1 0 }
{
    entry_at(gate, 1, 0)
}

// The smoothed dB stand in front of the gate's floats: kept, ..
pub fn keep_db(gate_f: &[f64], smooth: &mut [f64])
    ensures { smooth.new ≡ tab (length smooth.old) (λ k. get_or gate_f.now k f0) }
{
    for (k, s) in smooth.iter_mut().enumerate() {
        *s = entry_at(gate_f, k, 0.0);
    }
}

// .. and put back.
pub fn put_db(gate_f: &mut [f64], smooth: &[f64])
    ensures { gate_f.new ≡ with_front smooth.now gate_f.old }
{
    let m = smooth.len().min(gate_f.len());
    gate_f[..m].copy_from_slice(&smooth[..m]);
}
