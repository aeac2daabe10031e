// A fresh gate: its settings, each distinct length with nothing pushed, the floats 0, no rise floor used yet. Its two stores are two slices, as C
// lends them: both are written, and of a struct of them a clause would say store.exit.0.now. On, off and early come one by one, as C hands them: each
// is tested and stored by itself, and no function requires anything of them.
#![tactic(auto)]

ghost use Rattle.std.specs.Prelude.{◌≡◌, true, ◌&&◌, ◌||◌, [], ◌-◌, ◌*◌, ◌<◌, ◌≤◌, length, get_or};
ghost use Rattle.model.specs.Gate.{distinct};
ghost use Rattle.model.specs.GateCalls.{good_lengths, good_level, absent, stored as stored_as, gate_make_refusal, gate_new_call};
ghost use Rattle.refusals.specs.Numbers.{answer};
ghost use Rattle.gate_lengths.specs.Makes.{length_put, with_lengths, fresh_u, fresh_f};
ghost use Rattle.model.specs.GateCalls.{gate_f_len_for};

use gate_sound::GATE_LEN;
use refusals::Refusal;

// A level as the store has it: 800 is added. 65535 for one that is out of range: the store has no other sign for a level that is absent, and an early
// of 65535 is one. So a number of 16 bits, and no Option.
fn stored(level: i32) -> u16
    ensures { result ≡ stored_as level }
{
    if level < -800 || level > 800 {
        return 65535;
    }
    // A cast, since no From leads from 32 bits to 16. What it cuts is 0, which is proved.
    (level + 800) as u16
}

fn early_good(early: i32) -> bool
    ensures { result ≡ (absent early || good_level early) }
{
    early == 65535 || stored(early) <= 1600
}

fn levels_good(on: i32, off: i32, early: i32) -> bool
    ensures { result ≡ (good_level on && good_level off && (absent early || good_level early)) }
{
    stored(on) <= 1600 && stored(off) <= 1600 && early_good(early)
}

#[tactic(auto, unfolding(model::specs::GateCalls::gate_make_refusal))]
fn make_refusal(
    u_len: usize,
    f_len: usize,
    n: usize,
    on: i32,
    off: i32,
    early: i32,
    lengths: &[u16],
) -> Result<(), Refusal>
    ensures { answer result ≡ gate_make_refusal u_len f_len n on off early lengths.now }
{
    if !store_sizes::in_band(n) {
        return Err(Refusal::Band);
    }
    if !gate_lengths::lengths_good(lengths) {
        return Err(Refusal::Lengths);
    }
    if !levels_good(on, off, early) {
        return Err(Refusal::Level);
    }
    if u_len != GATE_LEN || f_len != gate_lengths::floats_for(n, lengths) {
        return Err(Refusal::StoreSize);
    }
    Ok(())
}

// Length i takes the next triple, unless it was seen.
fn put_length(gate: &mut [u16; GATE_LEN], lengths: &[u16], i: usize)
    requires { (get_or gate.old 5 0 < 8) × (i < length lengths.now) }
    ensures { gate.new ≡ length_put gate.old lengths.now i }
{
    if gate_lengths::seen(lengths, i) {
        return;
    }
    let count = gate[5];
    gate[6 + 3 * usize::from(count)] = lengths[i];
    gate[5] = count + 1;
}

// By places: of each length it is asked whether it stands before its place.
fn put_lengths(gate: &mut [u16; GATE_LEN], lengths: &[u16])
    requires { (gate.old ≡ with_lengths gate.old []) × (good_lengths lengths.now ≡ true) }
    ensures { gate.new ≡ with_lengths gate.old (distinct [] lengths.now) }
{
    for i in 0..lengths.len() {
        put_length(gate, lengths, i);
    }
}

fn fresh_u(gate: &mut [u16; GATE_LEN], n: u16, on: u16, off: u16, early: u16, lengths: &[u16])
    requires { good_lengths lengths.now ≡ true }
    ensures { gate.new ≡ fresh_u n on off early (distinct [] lengths.now) }
{
    gate.fill(0);
    gate[0] = n;
    gate[2] = on;
    gate[3] = off;
    gate[4] = early;
    put_lengths(gate, lengths);
}

// R-3: no rise floor was used yet, which a NaN says; all else is 0.
fn fresh_f(gate_f: &mut [f64], n: usize)
    requires { 2 * n ≤ length gate_f.old }
    ensures { gate_f.new ≡ fresh_f (length gate_f.old - 2 * n) n }
{
    let floats = gate_f.len();
    gate_f.fill(0.0);
    gate_f[floats - 2 * n..floats - n].fill(0.0 / 0.0);
}

// Makes a fresh gate in the lent stores.
#[tactic(auto, using(crate::proofs::Makes::fit), unfolding(model::specs::GateCalls::gate_new_call))]
pub fn gate_new(
    gate: &mut [u16],
    gate_f: &mut [f64],
    n: usize,
    on: i32,
    off: i32,
    early: i32,
    lengths: &[u16],
) -> Result<(), Refusal>
    ensures { (answer result, gate.new, gate_f.new) ≡ gate_new_call gate.old gate_f.old n on off early lengths.now }
{
    make_refusal(gate.len(), gate_f.len(), n, on, off, early, lengths)?;
    fresh_u(
        gate.as_mut_array().unwrap(),
        // A cast, since no From leads from usize to 16 bits. What it cuts is 0, which is proved.
        n as u16,
        stored(on),
        stored(off),
        stored(early),
        lengths,
    );
    fresh_f(gate_f, n);
    Ok(())
}

// How many f64 a gate of n channels and these lengths takes; 0 where making refuses them, as the C interface says it.
#[tactic(auto, unfolding(model::specs::GateCalls::gate_f_len_for))]
pub fn gate_f_len(n: usize, lengths: &[u16]) -> usize
    ensures { result ≡ gate_f_len_for n lengths.now }
{
    if !store_sizes::in_band(n) {
        return 0;
    }
    if !gate_lengths::lengths_good(lengths) {
        return 0;
    }
    gate_lengths::floats_for(n, lengths)
}
