// The C interface, a run of hops.
#![tactic(auto, unfolding(roles::specs::Rights::as_role))]

ghost use Rattle.std.specs.Prelude.{◌≡◌};
ghost use Rattle.roles.specs.Rights.{receive, as_role};
ghost use Rattle.run_model.specs.Runs.{received};

pub fn wolfcloak_receive(
    role: u16,
    bank: &mut [u16],
    bank_f: &mut [f64],
    gate: &mut [u16],
    gate_f: &mut [f64],
    hold: &[u8],
    power_db: &[f64],
    power: &[f32],
    rise: &mut [u8],
    drop: &mut [u8],
) -> u16
    ensures { (result, bank.new, bank_f.new, gate.new, gate_f.new, rise.new, drop.new) ≡ as_role receive role (λ r. (r, bank.old, bank_f.old, gate.old, gate_f.old, rise.old, drop.old)) (received bank.old bank_f.old gate.old gate_f.old (record { hold = hold.now; db = power_db.now; power = power.now; rise = rise.old; drop = drop.old })) }
{
    if !roles::may(roles::UPDATING, role) {
        return roles::STOPPED;
    }
    refusals::answer(receive::receive(
        bank, bank_f, gate, gate_f, hold, power_db, power, rise, drop,
    ))
}
