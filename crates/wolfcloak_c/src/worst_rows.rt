// The exports of worst_rows.rt of `wolfcloak`.
ghost use Rattle.std.specs.Prelude.{◌≡◌};
ghost use Rattle.roles.specs.Rights.{worst_new, bank_update_worst, worst_floor, as_role};
ghost use Rattle.model.specs.Bank.{hop};
ghost use Rattle.model.specs.WorstCalls.{worst_f_len_for, worst_new_call, worst_update, worst_reading};
ghost use Rattle.refusals.specs.Readings.{some_answered};

#[unsafe(no_mangle)]
pub extern "C" fn wolfcloak_worst_f_len(n: usize, w: usize) -> usize
    ensures { result ≡ worst_f_len_for n w }
{
    wolfcloak::worst_rows::wolfcloak_worst_f_len(n, w)
}

#[unsafe(no_mangle)]
pub extern "C" fn wolfcloak_worst_new(
    role: u16,
    worst: &mut [u16],
    worst_f: &mut [f64],
    n: usize,
    w: usize,
) -> u16
    ensures { (result, worst.new, worst_f.new) ≡ as_role worst_new role (λ r. (r, worst.old, worst_f.old)) (worst_new_call worst.old worst_f.old n w) }
{
    wolfcloak::worst_rows::wolfcloak_worst_new(role, worst, worst_f, n, w)
}

#[unsafe(no_mangle)]
pub extern "C" fn wolfcloak_bank_update_worst(
    role: u16,
    bank: &mut [u16],
    bank_f: &mut [f64],
    worst: &mut [u16],
    worst_f: &mut [f64],
    power_db: &[f64],
    power: &[f32],
    hold_reference: bool,
) -> u16
    ensures { (result, bank.new, bank_f.new, worst.new, worst_f.new) ≡ as_role bank_update_worst role (λ r. (r, bank.old, bank_f.old, worst.old, worst_f.old)) (worst_update bank.old bank_f.old worst.old worst_f.old (hop hold_reference power_db.now power.now)) }
{
    wolfcloak::worst_rows::wolfcloak_bank_update_worst(
        role,
        bank,
        bank_f,
        worst,
        worst_f,
        power_db,
        power,
        hold_reference,
    )
}

#[unsafe(no_mangle)]
pub extern "C" fn wolfcloak_worst_floor(
    role: u16,
    bank: &[u16],
    bank_f: &[f64],
    worst: &[u16],
    worst_f: &[f64],
    k: usize,
    value: &mut f64,
) -> u16
    ensures { (result, value.new) ≡ as_role worst_floor role (λ r. (r, value.old)) (some_answered 101 value.old (worst_reading bank.now bank_f.now worst.now worst_f.now k)) }
{
    wolfcloak::worst_rows::wolfcloak_worst_floor(role, bank, bank_f, worst, worst_f, k, value)
}
