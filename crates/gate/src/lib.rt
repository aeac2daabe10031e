// Document 01, "Windows, ladder, gate": the gate's update and its hold over the four lent stores.
#![tactic(auto)]

ghost use Rattle.std.specs.Prelude.{◌≡◌, length};
ghost use Rattle.refusals.specs.Numbers.{answer};
ghost use Rattle.model.specs.Stores.{bank_of};
ghost use Rattle.model.specs.Gate.{update_step, hold_step};
ghost use Rattle.model.specs.GateStores.{gate_of};
ghost use Rattle.model.specs.GateCalls.{gate_update_call, gate_hold_call};
ghost use Rattle.gate.specs.Hops.{Keeps, Takes, Taken};

use refusals::Refusal;

// Here and below, slices and no struct of them: behind a struct of `&mut` an ensures reads store.exit.0.now, and C lends them one by one.

// One hop that is not refused: the gate steps, its pairs are brought up to date (R-3), and it is judged.
pub fn take_hop(
    bank: &[u16],
    bank_f: &[f64],
    gate: &mut [u16],
    gate_f: &mut [f64],
    power_db: &[f64],
    power: &[f32],
    rise: &mut [u8],
    drop: &mut [u8],
)
    requires { Takes bank.now bank_f.now gate.old gate_f.old (length power_db.now) (length power.now) (length rise.old) (length drop.old) }
    ensures { Taken (update_step (gate_of gate.old gate_f.old) (bank_of bank.now bank_f.now) power_db.now power.now) (bank_of bank.now bank_f.now) gate.new gate_f.new rise.new drop.new }
{
    gate_step::step(gate, gate_f, power_db, power);
    gate_pairs::refresh(bank, bank_f, gate, gate_f);
    gate_marks::judge(bank, bank_f, gate, gate_f, rise, drop);
}

// One hop's dB and linear power of each channel.
pub fn gate_update(
    bank: &[u16],
    bank_f: &[f64],
    gate: &mut [u16],
    gate_f: &mut [f64],
    power_db: &[f64],
    power: &[f32],
    rise: &mut [u8],
    drop: &mut [u8],
) -> Result<(), Refusal>
    ensures { (answer result, gate.new, gate_f.new, rise.new, drop.new) ≡ gate_update_call bank.now bank_f.now gate.old gate_f.old (record { db = power_db.now; power = power.now }) rise.old drop.old }
{
    gate_store::gate_update_refusal(
        bank,
        bank_f,
        gate,
        gate_f,
        power_db.len(),
        power.len(),
        rise.len(),
        drop.len(),
    )?;
    take_hop(bank, bank_f, gate, gate_f, power_db, power, rise, drop);
    Ok(())
}

// One hold that is not refused: the floors may have moved since, so the pairs are brought up to date here too (R-3).
pub fn take_hold(
    bank: &[u16],
    bank_f: &[f64],
    gate: &[u16],
    gate_f: &mut [f64],
    rise: &mut [u8],
    drop: &mut [u8],
)
    requires { Keeps bank.now bank_f.now gate.now gate_f.old (length rise.old) (length drop.old) }
    ensures { Taken (hold_step (gate_of gate.now gate_f.old) (bank_of bank.now bank_f.now)) (bank_of bank.now bank_f.now) gate.now gate_f.new rise.new drop.new }
{
    gate_pairs::refresh_started(bank, bank_f, gate, gate_f);
    gate_marks::judge(bank, bank_f, gate, gate_f, rise, drop);
}

// The marks again, with no hop.
pub fn gate_hold(
    bank: &[u16],
    bank_f: &[f64],
    gate: &[u16],
    gate_f: &mut [f64],
    rise: &mut [u8],
    drop: &mut [u8],
) -> Result<(), Refusal>
    ensures { (answer result, gate_f.new, rise.new, drop.new) ≡ gate_hold_call bank.now bank_f.now gate.now gate_f.old rise.old drop.old }
{
    gate_store::hold_refusal(bank, bank_f, gate, gate_f, rise.len(), drop.len())?;
    take_hold(bank, bank_f, gate, gate_f, rise, drop);
    Ok(())
}
