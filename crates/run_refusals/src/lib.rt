// A run of hops: its refusals in their order, by the stores and the slices as lent.
#![tactic(auto)]

ghost use Rattle.std.specs.Prelude.{◌≡◌, not, ◌&&◌, ◌+◌, ◌*◌, ◌/◌, ◌%◌, ◌<◌, eqb, length};
ghost use Rattle.model.specs.Layout.{decimation_hops};
ghost use Rattle.model.specs.Refusals.{garbled};
ghost use Rattle.refusals.specs.Numbers.{answer};
ghost use Rattle.run_refusals.specs.Checks.{not_long_by, garbled_db, run_refusal_by};

use phases::next_phase;
use refusals::Refusal;

// Whether a slice is as long as so many hops of n channels. Their product could wrap where a usize is small, so the length is divided. That n isn't 0
// is required here and of two more below: it comes from a tested gate, and a type for it would be made once a run, and taken apart at each division.
#[tactic(auto, using(crate::proofs::Refuses::not_whole, crate::proofs::Refuses::whole))]
fn run_long(len: usize, hops: usize, n: usize) -> bool
    requires { 0 < n }
    ensures { result ≡ eqb len (hops * n) }
{
    len % n == 0 && len / n == hops
}

// Each length is asked for once, here: a struct of the four would be made for that alone.
fn all_long(n: usize, hops: usize, power_db: usize, power: usize, rise: usize, drop: usize) -> bool
    requires { 0 < n }
    ensures { not result ≡ not_long_by n hops power_db power rise drop }
{
    run_long(power_db, hops, n) && power == power_db && rise == power_db && drop == power_db
}

// A slow hop that the bank would refuse.
fn garbled_hop(phase: u16, power_db: &[f64]) -> bool
    ensures { result ≡ (eqb phase 0 && garbled (length power_db.now) power_db.now) }
{
    phase == 0 && hop_refusals::garbled(power_db)
}

// Whether there is one among these hops, the first of them at this phase: it is looked for before anything is done.
// The phase goes along from hop to hop, so this is a loop and no `any`, whose closure would have to write it.
fn garbled_run(n: usize, phase: u16, power_db: &[f64]) -> bool
    requires { (0 < n) × (phase < decimation_hops) }
    ensures { result ≡ garbled_db n phase (length power_db.now / n) power_db.now }
{
    let mut p = phase;
    for hop in power_db.chunks_exact(n) {
        if garbled_hop(p, hop) {
            return true;
        }
        p = next_phase(p);
    }
    false
}

// Whether a bank and a gate take a run of so many hops with these dB, and with slices of these lengths. Bank and gate are two slices each, as C
// lends them: they are read once and go on as they came.
#[tactic(auto, using(crate::proofs::Refuses::known, crate::proofs::Refuses::hops_are), unfolding(crate::specs::Checks::run_refusal_by))]
pub fn run_refusal(
    bank: &[u16],
    bank_f: &[f64],
    gate: &[u16],
    gate_f: &[f64],
    hops: usize,
    power_db: &[f64],
    power: usize,
    rise: usize,
    drop: usize,
) -> Result<(), Refusal>
    ensures { answer result ≡ run_refusal_by bank.now bank_f.now gate.now gate_f.now hops power_db.now power rise drop }
{
    gate_store::pair_refusal(bank, bank_f, gate, gate_f)?;
    let n = usize::from(gate[0]);
    if !all_long(n, hops, power_db.len(), power, rise, drop) {
        return Err(Refusal::HopSize);
    }
    if garbled_run(n, bank[1], power_db) {
        return Err(Refusal::Garbled);
    }
    Ok(())
}
