// The C interface, R-13's rows: the dB of a power, and the updates from linear power alone.
#![tactic(auto, unfolding(roles::specs::Rights::as_role))]

ghost use Rattle.std.specs.Prelude.{◌≡◌};
ghost use Rattle.roles.specs.Rights.{bank_update_linear, gate_update_linear, gate_update_linear_map, bank_update_linear_worst, as_role};
ghost use Rattle.model.specs.Calls.{bank_update_call};
ghost use Rattle.model.specs.GateCalls.{gate_update_call};
ghost use Rattle.model.specs.MapCalls.{gate_update_map_call};
ghost use Rattle.model.specs.WorstCalls.{worst_update};
ghost use Rattle.model.specs.Decibels.{power_db, linear_hop, linear_gate_hop};

pub fn wolfcloak_power_db(power: f32) -> f64
    ensures { result ≡ power_db power }
{
    decibels::power_db(power)
}

pub fn wolfcloak_bank_update_linear(
    role: u16,
    bank: &mut [u16],
    bank_f: &mut [f64],
    power: &[f32],
    hold_reference: bool,
) -> u16
    ensures { (result, bank.new, bank_f.new) ≡ as_role bank_update_linear role (λ r. (r, bank.old, bank_f.old)) (bank_update_call bank.old bank_f.old (linear_hop hold_reference power.now)) }
{
    if !roles::may(roles::UPDATING, role) {
        return roles::STOPPED;
    }
    refusals::answer(bank_linear::bank_update_linear(bank, bank_f, power, hold_reference))
}

pub fn wolfcloak_gate_update_linear(
    role: u16,
    bank: &[u16],
    bank_f: &[f64],
    gate: &mut [u16],
    gate_f: &mut [f64],
    power: &[f32],
    rise: &mut [u8],
    drop: &mut [u8],
) -> u16
    ensures { (result, gate.new, gate_f.new, rise.new, drop.new) ≡ as_role gate_update_linear role (λ r. (r, gate.old, gate_f.old, rise.old, drop.old)) (gate_update_call bank.now bank_f.now gate.old gate_f.old (linear_gate_hop power.now) rise.old drop.old) }
{
    if !roles::may(roles::UPDATING, role) {
        return roles::STOPPED;
    }
    refusals::answer(gate_linear::gate_update_linear(bank, bank_f, gate, gate_f, power, rise, drop))
}

pub fn wolfcloak_gate_update_linear_map(
    role: u16,
    bank: &[u16],
    bank_f: &[f64],
    gate: &mut [u16],
    gate_f: &mut [f64],
    map: &mut [u8],
    power: &[f32],
    rise: &mut [u8],
    drop: &mut [u8],
) -> u16
    ensures { (result, gate.new, gate_f.new, map.new, rise.new, drop.new) ≡ as_role gate_update_linear_map role (λ r. (r, gate.old, gate_f.old, map.old, rise.old, drop.old)) (gate_update_map_call bank.now bank_f.now gate.old gate_f.old map.old (linear_gate_hop power.now) rise.old drop.old) }
{
    if !roles::may(roles::UPDATING, role) {
        return roles::STOPPED;
    }
    refusals::answer(gate_linear_map::gate_update_linear_map(
        bank, bank_f, gate, gate_f, map, power, rise, drop,
    ))
}

pub fn wolfcloak_bank_update_linear_worst(
    role: u16,
    bank: &mut [u16],
    bank_f: &mut [f64],
    worst: &mut [u16],
    worst_f: &mut [f64],
    power: &[f32],
    hold_reference: bool,
) -> u16
    ensures { (result, bank.new, bank_f.new, worst.new, worst_f.new) ≡ as_role bank_update_linear_worst role (λ r. (r, bank.old, bank_f.old, worst.old, worst_f.old)) (worst_update bank.old bank_f.old worst.old worst_f.old (linear_hop hold_reference power.now)) }
{
    if !roles::may(roles::UPDATING, role) {
        return roles::STOPPED;
    }
    refusals::answer(bank_linear_worst::bank_update_linear_worst(
        bank,
        bank_f,
        worst,
        worst_f,
        power,
        hold_reference,
    ))
}
