// Document 01, "Stores", the gate's half: the test of a lent gate, and the refusals in their order.
// Each store is two slices, as C lends them: a struct of the two would have to be made before each test, and say nothing that the test doesn't find.
// So it is with the lengths of a hop's slices: four numbers, each from another slice.
#![tactic(auto)]

ghost use Rattle.std.specs.Prelude.{◌≡◌};
ghost use Rattle.refusals.specs.Numbers.{answer};
ghost use Rattle.model.specs.GateCalls.{gate_refusal, pair_refusal, gate_update_refusal, hold_refusal};
ghost use Rattle.gate_sound.specs.Checks.{two_long, four_long, channel_refusal, smoothed_refusal, early_refusal};

use gate_sound::GATE_LEN;
use refusals::Refusal;

// Whether the lent stores are a gate.
#[tactic(auto, unfolding(model::specs::GateCalls::gate_refusal))]
pub fn gate_refusal(gate: &[u16], gate_f: &[f64]) -> Result<(), Refusal>
    ensures { answer result ≡ gate_refusal gate.now gate_f.now }
{
    let Some(gate) = gate.as_array::<GATE_LEN>() else {
        return Err(Refusal::StoreSize);
    };
    if !gate_sound::gate_sound(gate) {
        return Err(Refusal::Unsound);
    }
    if gate_f.len() != gate_sound::f_len(gate) {
        return Err(Refusal::StoreSize);
    }
    Ok(())
}

// Whether they are a bank and a gate of as many channels. `worst_store` has the like of another store: one function for both would take the
// second store's test as a closure, and say its own contract by the closure's.
#[tactic(auto, using(stores::proofs::Banks::at_least_three, gate_sound::proofs::Sizes::thirty), unfolding(model::specs::GateCalls::pair_refusal))]
pub fn pair_refusal(
    bank: &[u16],
    bank_f: &[f64],
    gate: &[u16],
    gate_f: &[f64],
) -> Result<(), Refusal>
    ensures { answer result ≡ pair_refusal bank.now bank_f.now gate.now gate_f.now }
{
    stores::bank_refusal(bank, bank_f)?;
    gate_refusal(gate, gate_f)?;
    if bank[0] != gate[0] {
        return Err(Refusal::Mismatch);
    }
    Ok(())
}

// The lengths that a hold asks for, and an update.
pub fn two_long(n: usize, rise: usize, drop: usize) -> Result<(), Refusal>
    ensures { answer result ≡ two_long n rise drop }
{
    if rise != n || drop != n {
        return Err(Refusal::HopSize);
    }
    Ok(())
}

pub fn four_long(
    n: usize,
    power_db: usize,
    power: usize,
    rise: usize,
    drop: usize,
) -> Result<(), Refusal>
    ensures { answer result ≡ four_long n power_db power rise drop }
{
    if power_db != n || power != n {
        return Err(Refusal::HopSize);
    }
    two_long(n, rise, drop)
}

// Whether a bank and a gate take a gate update with slices of these lengths.
#[tactic(auto, using(crate::proofs::Pairs::pair_thirty), unfolding(model::specs::GateCalls::gate_update_refusal))]
pub fn gate_update_refusal(
    bank: &[u16],
    bank_f: &[f64],
    gate: &[u16],
    gate_f: &[f64],
    power_db: usize,
    power: usize,
    rise: usize,
    drop: usize,
) -> Result<(), Refusal>
    ensures { answer result ≡ gate_update_refusal bank.now bank_f.now gate.now gate_f.now power_db power rise drop }
{
    pair_refusal(bank, bank_f, gate, gate_f)?;
    four_long(usize::from(gate[0]), power_db, power, rise, drop)
}

// Whether they take a hold.
#[tactic(auto, using(crate::proofs::Pairs::pair_thirty), unfolding(model::specs::GateCalls::hold_refusal))]
pub fn hold_refusal(
    bank: &[u16],
    bank_f: &[f64],
    gate: &[u16],
    gate_f: &[f64],
    rise: usize,
    drop: usize,
) -> Result<(), Refusal>
    ensures { answer result ≡ hold_refusal bank.now bank_f.now gate.now gate_f.now rise drop }
{
    pair_refusal(bank, bank_f, gate, gate_f)?;
    two_long(usize::from(gate[0]), rise, drop)
}

fn channel_refusal(n: usize, k: usize) -> Result<(), Refusal>
    ensures { answer result ≡ channel_refusal n k }
{
    if k >= n {
        return Err(Refusal::Channel);
    }
    Ok(())
}

// Whether the gate has a smoothed dB of channel k.
#[tactic(auto, using(gate_sound::proofs::Sizes::thirty))]
pub fn smoothed_refusal(gate: &[u16], gate_f: &[f64], k: usize) -> Result<(), Refusal>
    ensures { answer result ≡ smoothed_refusal gate.now gate_f.now k }
{
    gate_refusal(gate, gate_f)?; // The store first: its n says which channels there are.
    channel_refusal(usize::from(gate[0]), k)
}

// Whether bank and gate have an early rise of channel k.
#[tactic(auto, using(crate::proofs::Pairs::pair_thirty))]
pub fn early_refusal(
    bank: &[u16],
    bank_f: &[f64],
    gate: &[u16],
    gate_f: &[f64],
    k: usize,
) -> Result<(), Refusal>
    ensures { answer result ≡ early_refusal bank.now bank_f.now gate.now gate_f.now k }
{
    pair_refusal(bank, bank_f, gate, gate_f)?;
    channel_refusal(usize::from(gate[0]), k)
}
