// The C interface, the rows of the registers (R-12).
#![tactic(auto, unfolding(roles::specs::Rights::as_role))]

ghost use Rattle.std.specs.Prelude.{◌≡◌};
ghost use Rattle.roles.specs.Rights.{map_new, gate_update_map, gate_hold_map, map_read, map_write, map_wire, as_role};
ghost use Rattle.model.specs.MapCalls.{map_len, map_new_call, map_read_call, map_write_call, map_wire_call, gate_update_map_call, gate_hold_map_call};

pub fn wolfcloak_map_len(n: usize) -> usize
    ensures { result ≡ map_len n }
{
    map_store::map_len(n)
}

pub fn wolfcloak_map_new(role: u16, gate: &[u16], gate_f: &[f64], map: &mut [u8]) -> u16
    ensures { (result, map.new) ≡ as_role map_new role (λ r. (r, map.old)) (map_new_call gate.now gate_f.now map.old) }
{
    if !roles::may(roles::MAKING, role) {
        return roles::STOPPED;
    }
    refusals::answer(registers::map_new(gate, gate_f, map))
}

pub fn wolfcloak_gate_update_map(
    role: u16,
    bank: &[u16],
    bank_f: &[f64],
    gate: &mut [u16],
    gate_f: &mut [f64],
    map: &mut [u8],
    power_db: &[f64],
    power: &[f32],
    rise: &mut [u8],
    drop: &mut [u8],
) -> u16
    ensures { (result, gate.new, gate_f.new, map.new, rise.new, drop.new) ≡ as_role gate_update_map role (λ r. (r, gate.old, gate_f.old, map.old, rise.old, drop.old)) (gate_update_map_call bank.now bank_f.now gate.old gate_f.old map.old (record { db = power_db.now; power = power.now }) rise.old drop.old) }
{
    if !roles::may(roles::UPDATING, role) {
        return roles::STOPPED;
    }
    refusals::answer(gate_map::gate_update_map(
        bank, bank_f, gate, gate_f, map, power_db, power, rise, drop,
    ))
}

pub fn wolfcloak_gate_hold_map(
    role: u16,
    bank: &[u16],
    bank_f: &[f64],
    gate: &[u16],
    gate_f: &mut [f64],
    map: &mut [u8],
    rise: &mut [u8],
    drop: &mut [u8],
) -> u16
    ensures { (result, gate_f.new, map.new, rise.new, drop.new) ≡ as_role gate_hold_map role (λ r. (r, gate_f.old, map.old, rise.old, drop.old)) (gate_hold_map_call bank.now bank_f.now gate.now gate_f.old map.old rise.old drop.old) }
{
    if !roles::may(roles::HOLDING, role) {
        return roles::STOPPED;
    }
    refusals::answer(gate_map::gate_hold_map(bank, bank_f, gate, gate_f, map, rise, drop))
}

pub fn wolfcloak_map_read(
    role: u16,
    gate: &[u16],
    gate_f: &[f64],
    map: &[u8],
    address: usize,
    value: &mut u8,
) -> u16
    ensures { (result, value.new) ≡ as_role map_read role (λ r. (r, value.old)) (map_read_call gate.now gate_f.now map.now address value.old) }
{
    if !roles::may(roles::READING, role) {
        return roles::STOPPED;
    }
    refusals::value_answer(registers::map_read(gate, gate_f, map, address), value)
}

pub fn wolfcloak_map_write(
    role: u16,
    gate: &[u16],
    gate_f: &[f64],
    map: &mut [u8],
    address: usize,
    value: u8,
) -> u16
    ensures { (result, map.new) ≡ as_role map_write role (λ r. (r, map.old)) (map_write_call gate.now gate_f.now map.old address value) }
{
    if !roles::may(roles::WRITING_REGISTERS, role) {
        return roles::STOPPED;
    }
    refusals::answer(registers::map_write(gate, gate_f, map, address, value))
}

pub fn wolfcloak_map_wire(role: u16, gate: &[u16], gate_f: &[f64], map: &[u8], up: &mut u8) -> u16
    ensures { (result, up.new) ≡ as_role map_wire role (λ r. (r, up.old)) (map_wire_call gate.now gate_f.now map.now up.old) }
{
    if !roles::may(roles::READING, role) {
        return roles::STOPPED;
    }
    refusals::value_answer(registers::map_wire(gate, gate_f, map), up)
}
