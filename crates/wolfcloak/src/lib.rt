// The C interface: each call of the bank, in gate_rows each of the gate, in log_rows each of the hop log, and in a file of its own what a request of document 02 adds, in a form that C can pass; `wolfcloak_c` exports them. What is refused, read or none is told by `refusals`, more than one value by `answers`. `as_role` is opened for the check, which finds each row's proof.
#![tactic(auto, unfolding(roles::specs::Rights::as_role))]

pub mod antenna_rows;
pub mod explain_row;
pub mod gate_rows;
pub mod linear_rows;
pub mod log_rows;
pub mod map_rows;
pub mod receive_row;
pub mod segment_rows;
pub mod worst_rows;

ghost use Rattle.std.specs.Prelude.{◌≡◌, false};
ghost use Rattle.roles.specs.Rights.{bank_new, bank_update, bank_update_holding_reference, channel_floor_db, effective_floor_db, rise_floor_db, spectral_reference, floors, ring, as_role};
ghost use Rattle.model.specs.Bank.{hop};
ghost use Rattle.model.specs.Calls.{bank_len_for, bank_f_len_for, bank_new_call, bank_update_call};
ghost use Rattle.model.specs.Readings.{raw_reading, effective_reading, rise_reading, reference_reading, floors_reading};
ghost use Rattle.refusals.specs.Readings.{answered};
ghost use Rattle.answers.specs.Answers.{floors_answered, ring_answered};

pub fn wolfcloak_bank_len(n: usize) -> usize
    ensures { result ≡ bank_len_for n }
{
    store_sizes::bank_len(n)
}

pub fn wolfcloak_bank_f_len(n: usize) -> usize
    ensures { result ≡ bank_f_len_for n }
{
    store_sizes::bank_f_len(n)
}

pub fn wolfcloak_bank_new(role: u16, bank: &mut [u16], bank_f: &mut [f64], n: usize) -> u16
    ensures { (result, bank.new, bank_f.new) ≡ as_role bank_new role (λ r. (r, bank.old, bank_f.old)) (bank_new_call bank.old bank_f.old n) }
{
    if !roles::may(roles::MAKING, role) {
        return roles::STOPPED;
    }
    refusals::answer(bank_making::bank_new(bank, bank_f, n))
}

pub fn wolfcloak_bank_update(
    role: u16,
    bank: &mut [u16],
    bank_f: &mut [f64],
    power_db: &[f64],
    power: &[f32],
) -> u16
    ensures { (result, bank.new, bank_f.new) ≡ as_role bank_update role (λ r. (r, bank.old, bank_f.old)) (bank_update_call bank.old bank_f.old (hop false power_db.now power.now)) }
{
    if !roles::may(roles::UPDATING, role) {
        return roles::STOPPED;
    }
    refusals::answer(bank::bank_update(bank, bank_f, power_db, power))
}

pub fn wolfcloak_bank_update_holding_reference(
    role: u16,
    bank: &mut [u16],
    bank_f: &mut [f64],
    power_db: &[f64],
    power: &[f32],
    hold_reference: bool,
) -> u16
    ensures { (result, bank.new, bank_f.new) ≡ as_role bank_update_holding_reference role (λ r. (r, bank.old, bank_f.old)) (bank_update_call bank.old bank_f.old (hop hold_reference power_db.now power.now)) }
{
    if !roles::may(roles::UPDATING, role) {
        return roles::STOPPED;
    }
    refusals::answer(bank::bank_update_holding_reference(
        bank,
        bank_f,
        power_db,
        power,
        hold_reference,
    ))
}

pub fn wolfcloak_channel_floor_db(
    role: u16,
    bank: &[u16],
    bank_f: &[f64],
    k: usize,
    value: &mut f64,
) -> u16
    ensures { (result, value.new) ≡ as_role channel_floor_db role (λ r. (r, value.old)) (answered value.old (raw_reading bank.now bank_f.now k)) }
{
    if !roles::may(roles::READING, role) {
        return roles::STOPPED;
    }
    refusals::value_answer(readings::channel_floor_db(bank, bank_f, k), value)
}

pub fn wolfcloak_effective_floor_db(
    role: u16,
    bank: &[u16],
    bank_f: &[f64],
    k: usize,
    value: &mut f64,
) -> u16
    ensures { (result, value.new) ≡ as_role effective_floor_db role (λ r. (r, value.old)) (answered value.old (effective_reading bank.now bank_f.now k)) }
{
    if !roles::may(roles::READING, role) {
        return roles::STOPPED;
    }
    refusals::value_answer(readings::effective_floor_db(bank, bank_f, k), value)
}

pub fn wolfcloak_rise_floor_db(
    role: u16,
    bank: &[u16],
    bank_f: &[f64],
    k: usize,
    value: &mut f64,
) -> u16
    ensures { (result, value.new) ≡ as_role rise_floor_db role (λ r. (r, value.old)) (answered value.old (rise_reading bank.now bank_f.now k)) }
{
    if !roles::may(roles::READING, role) {
        return roles::STOPPED;
    }
    refusals::value_answer(readings::rise_floor_db(bank, bank_f, k), value)
}

pub fn wolfcloak_spectral_reference(
    role: u16,
    bank: &[u16],
    bank_f: &[f64],
    k: usize,
    value: &mut f64,
) -> u16
    ensures { (result, value.new) ≡ as_role spectral_reference role (λ r. (r, value.old)) (answered value.old (reference_reading bank.now bank_f.now k)) }
{
    if !roles::may(roles::READING, role) {
        return roles::STOPPED;
    }
    refusals::value_answer(readings::spectral_reference(bank, bank_f, k), value)
}

pub fn wolfcloak_floors(
    role: u16,
    bank: &[u16],
    bank_f: &[f64],
    k: usize,
    effective: &mut f64,
    rise: &mut f64,
    raw: &mut f64,
) -> u16
    ensures { (result, effective.new, rise.new, raw.new) ≡ as_role floors role (λ r. (r, effective.old, rise.old, raw.old)) (floors_answered effective.old rise.old raw.old (floors_reading bank.now bank_f.now k)) }
{
    if !roles::may(roles::READING, role) {
        return roles::STOPPED;
    }
    answers::floors_answer(readings::floors(bank, bank_f, k), effective, rise, raw)
}

// Where in `bank` the ring of channel k lies.
pub fn wolfcloak_ring(
    role: u16,
    bank: &[u16],
    bank_f: &[f64],
    k: usize,
    start: &mut usize,
    len: &mut usize,
) -> u16
    ensures { (result, start.new, len.new) ≡ as_role ring role (λ r. (r, start.old, len.old)) (ring_answered bank.now bank_f.now k start.old len.old) }
{
    if !roles::may(roles::READING, role) {
        return roles::STOPPED;
    }
    answers::ring_answer(bank, bank_f, k, start, len)
}
