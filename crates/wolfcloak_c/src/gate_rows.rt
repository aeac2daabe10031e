// The exports of gate_rows.rt of `wolfcloak`.
ghost use Rattle.std.specs.Prelude.{◌≡◌};
ghost use Rattle.roles.specs.Rights.{gate_new, gate_remake, gate_update, gate_hold, smoothed_db, ema_rise, as_role};
ghost use Rattle.model.specs.GateCalls.{gate_f_len_for, gate_new_call, gate_update_call, gate_hold_call, smoothed_reading, early_reading};
ghost use Rattle.model.specs.Remake.{gate_remake_call};
ghost use Rattle.refusals.specs.Readings.{answered};

#[unsafe(no_mangle)]
pub extern "C" fn wolfcloak_gate_f_len(n: usize, lengths: &[u16]) -> usize
    ensures { result ≡ gate_f_len_for n lengths.now }
{
    wolfcloak::gate_rows::wolfcloak_gate_f_len(n, lengths)
}

#[unsafe(no_mangle)]
pub extern "C" fn wolfcloak_gate_new(
    role: u16,
    gate: &mut [u16],
    gate_f: &mut [f64],
    n: usize,
    on: i32,
    off: i32,
    early: i32,
    lengths: &[u16],
) -> u16
    ensures { (result, gate.new, gate_f.new) ≡ as_role gate_new role (λ r. (r, gate.old, gate_f.old)) (gate_new_call gate.old gate_f.old n on off early lengths.now) }
{
    wolfcloak::gate_rows::wolfcloak_gate_new(role, gate, gate_f, n, on, off, early, lengths)
}

#[unsafe(no_mangle)]
pub extern "C" fn wolfcloak_gate_remake(
    role: u16,
    gate: &mut [u16],
    gate_f: &mut [f64],
    on: i32,
    off: i32,
    early: i32,
) -> u16
    ensures { (result, gate.new, gate_f.new) ≡ as_role gate_remake role (λ r. (r, gate.old, gate_f.old)) (gate_remake_call gate.old gate_f.old on off early) }
{
    wolfcloak::gate_rows::wolfcloak_gate_remake(role, gate, gate_f, on, off, early)
}

#[unsafe(no_mangle)]
pub extern "C" fn wolfcloak_gate_update(
    role: u16,
    bank: &[u16],
    bank_f: &[f64],
    gate: &mut [u16],
    gate_f: &mut [f64],
    power_db: &[f64],
    power: &[f32],
    rise: &mut [u8],
    drop: &mut [u8],
) -> u16
    ensures { (result, gate.new, gate_f.new, rise.new, drop.new) ≡ as_role gate_update role (λ r. (r, gate.old, gate_f.old, rise.old, drop.old)) (gate_update_call bank.now bank_f.now gate.old gate_f.old (record { db = power_db.now; power = power.now }) rise.old drop.old) }
{
    wolfcloak::gate_rows::wolfcloak_gate_update(
        role, bank, bank_f, gate, gate_f, power_db, power, rise, drop,
    )
}

#[unsafe(no_mangle)]
pub extern "C" fn wolfcloak_gate_hold(
    role: u16,
    bank: &[u16],
    bank_f: &[f64],
    gate: &[u16],
    gate_f: &mut [f64],
    rise: &mut [u8],
    drop: &mut [u8],
) -> u16
    ensures { (result, gate_f.new, rise.new, drop.new) ≡ as_role gate_hold role (λ r. (r, gate_f.old, rise.old, drop.old)) (gate_hold_call bank.now bank_f.now gate.now gate_f.old rise.old drop.old) }
{
    wolfcloak::gate_rows::wolfcloak_gate_hold(role, bank, bank_f, gate, gate_f, rise, drop)
}

#[unsafe(no_mangle)]
pub extern "C" fn wolfcloak_smoothed_db(
    role: u16,
    gate: &[u16],
    gate_f: &[f64],
    k: usize,
    value: &mut f64,
) -> u16
    ensures { (result, value.new) ≡ as_role smoothed_db role (λ r. (r, value.old)) (answered value.old (smoothed_reading gate.now gate_f.now k)) }
{
    wolfcloak::gate_rows::wolfcloak_smoothed_db(role, gate, gate_f, k, value)
}

#[unsafe(no_mangle)]
pub extern "C" fn wolfcloak_ema_rise(
    role: u16,
    bank: &[u16],
    bank_f: &[f64],
    gate: &[u16],
    gate_f: &[f64],
    k: usize,
    value: &mut f64,
) -> u16
    ensures { (result, value.new) ≡ as_role ema_rise role (λ r. (r, value.old)) (answered value.old (early_reading bank.now bank_f.now gate.now gate_f.now k)) }
{
    wolfcloak::gate_rows::wolfcloak_ema_rise(role, bank, bank_f, gate, gate_f, k, value)
}
