// Document 01, "Block and bank step": one bank update over the two lent stores.
#![tactic(auto)]

ghost use Rattle.std.specs.Prelude.{◌≡◌, false};
ghost use Rattle.refusals.specs.Numbers.{answer};
ghost use Rattle.model.specs.Bank.{hop};
ghost use Rattle.model.specs.Calls.{bank_update_call};

use refusals::Refusal;

// Slices and no struct of them, in both calls: behind a struct of `&mut` an ensures reads store.exit.0.now, and C lends them one by one, dB and power too.
// One hop's dB and linear power of each channel; with `hold_reference` the smoothed powers stay as they are.
#[tactic(auto, using(crate::proofs::Calls::turned_down))]
pub fn bank_update_holding_reference(
    bank: &mut [u16],
    bank_f: &mut [f64],
    power_db: &[f64],
    power: &[f32],
    hold_reference: bool,
) -> Result<(), Refusal>
    ensures { (answer result, bank.new, bank_f.new) ≡ bank_update_call bank.old bank_f.old (hop hold_reference power_db.now power.now) }
{
    stores::update_refusal(bank, bank_f, power_db, power)?;
    bank_step::take_hop(bank, bank_f, power_db, power, hold_reference);
    Ok(())
}

pub fn bank_update(
    bank: &mut [u16],
    bank_f: &mut [f64],
    power_db: &[f64],
    power: &[f32],
) -> Result<(), Refusal>
    ensures { (answer result, bank.new, bank_f.new) ≡ bank_update_call bank.old bank_f.old (hop false power_db.now power.now) }
{
    bank_update_holding_reference(bank, bank_f, power_db, power, false)
}
