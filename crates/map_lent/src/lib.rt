// Document 02, R-12: a lent map beside its lent gate, whose n it has, and beside a bank too: the refusals of the calls on it and of those that
// carry it, in their order. The gate's store is tested before the map, and each store once.
// The two slices of a bank or a gate come as C lends them, and a hop's lengths as four numbers: a struct of them would be made for each test alone.
#![tactic(auto)]

ghost use Rattle.std.specs.Prelude.{◌≡◌};
ghost use Rattle.model.specs.MapCalls.{map_make_refusal, map_refusal, address_refusal, after_gate, pair_map_refusal, update_map_refusal, hold_map_refusal};
ghost use Rattle.refusals.specs.Numbers.{answer};

use refusals::Refusal;

// Whether a map can be made there. This test, the next and that of an address differ in what they ask of the map: a function that is handed the
// question would need a clause on it, and each of them would still make its own question in a line.
#[tactic(auto, using(crate::proofs::Lent::lent_gate))]
pub fn make_refusal(gate: &[u16], gate_f: &[f64], map: &[u8]) -> Result<(), Refusal>
    ensures { answer result ≡ after_gate gate.now gate_f.now (λ n. map_make_refusal n map.now) }
{
    gate_store::gate_refusal(gate, gate_f)?;
    map_store::make_refusal(map, usize::from(gate[0]))
}

// Whether they are a gate and a map for it.
#[tactic(auto, using(crate::proofs::Lent::lent_gate))]
pub fn map_refusal(gate: &[u16], gate_f: &[f64], map: &[u8]) -> Result<(), Refusal>
    ensures { answer result ≡ after_gate gate.now gate_f.now (λ n. map_refusal n map.now) }
{
    gate_store::gate_refusal(gate, gate_f)?;
    map_store::map_refusal(map, usize::from(gate[0]))
}

// Whether they are, and the map has this address.
#[tactic(auto, using(crate::proofs::Lent::lent_gate))]
pub fn address_refusal(
    gate: &[u16],
    gate_f: &[f64],
    map: &[u8],
    address: usize,
) -> Result<(), Refusal>
    ensures { answer result ≡ after_gate gate.now gate_f.now (λ n. address_refusal n map.now address) }
{
    gate_store::gate_refusal(gate, gate_f)?;
    map_store::address_refusal(map, usize::from(gate[0]), address)
}

// Whether they are a bank and a gate of as many channels, and a map for them. Beside `gate_store::pair_refusal` for the reason that stands there.
#[tactic(auto, using(stores::proofs::Banks::at_least_three, crate::proofs::Lent::gate_of_map), unfolding(model::specs::MapCalls::pair_map_refusal))]
pub fn pair_map_refusal(
    bank: &[u16],
    bank_f: &[f64],
    gate: &[u16],
    gate_f: &[f64],
    map: &[u8],
) -> Result<(), Refusal>
    ensures { answer result ≡ pair_map_refusal bank.now bank_f.now gate.now gate_f.now map.now }
{
    stores::bank_refusal(bank, bank_f)?;
    map_refusal(gate, gate_f, map)?;
    if bank[0] != gate[0] {
        return Err(Refusal::Mismatch);
    }
    Ok(())
}

// Whether they take a gate update with slices of these lengths.
#[tactic(auto, using(crate::proofs::Lent::gate_of_pair), unfolding(model::specs::MapCalls::update_map_refusal))]
pub fn update_map_refusal(
    bank: &[u16],
    bank_f: &[f64],
    gate: &[u16],
    gate_f: &[f64],
    map: &[u8],
    power_db: usize,
    power: usize,
    rise: usize,
    drop: usize,
) -> Result<(), Refusal>
    ensures { answer result ≡ update_map_refusal bank.now bank_f.now gate.now gate_f.now map.now power_db power rise drop }
{
    pair_map_refusal(bank, bank_f, gate, gate_f, map)?;
    gate_store::four_long(usize::from(gate[0]), power_db, power, rise, drop)
}

// Whether they take a hold.
#[tactic(auto, using(crate::proofs::Lent::gate_of_pair), unfolding(model::specs::MapCalls::hold_map_refusal))]
pub fn hold_map_refusal(
    bank: &[u16],
    bank_f: &[f64],
    gate: &[u16],
    gate_f: &[f64],
    map: &[u8],
    rise: usize,
    drop: usize,
) -> Result<(), Refusal>
    ensures { answer result ≡ hold_map_refusal bank.now bank_f.now gate.now gate_f.now map.now rise drop }
{
    pair_map_refusal(bank, bank_f, gate, gate_f, map)?;
    gate_store::two_long(usize::from(gate[0]), rise, drop)
}
