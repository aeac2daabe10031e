// Document 02, R-13: a bank update from linear power alone. The two stores are slices, as C lends them and as `bank` takes them: the clause says what is
// left in each, which behind a struct of `&mut` it could say of store.exit.0.now alone.
#![tactic(auto)]

ghost use Rattle.std.specs.Prelude.{◌≡◌};
ghost use Rattle.refusals.specs.Numbers.{answer};
ghost use Rattle.model.specs.Refusals.{update_refusal};
ghost use Rattle.model.specs.Calls.{bank_update_call};
ghost use Rattle.model.specs.Decibels.{decibels, linear_hop};

use refusals::Refusal;

// Whether a bank takes a hop of these powers. It cannot be garbled: no dB that is worked out is a NaN.
#[tactic(auto, using(crate::proofs::Refusals::linear_refusal, stores::proofs::Banks::at_least_three))]
fn linear_refusal(bank: &[u16], bank_f: &[f64], power: &[f32]) -> Result<(), Refusal>
    ensures { answer result ≡ update_refusal bank.now bank_f.now (decibels power.now) power.now }
{
    stores::bank_refusal(bank, bank_f)?;
    if power.len() != usize::from(bank[0]) {
        return Err(Refusal::HopSize);
    }
    Ok(())
}

// One hop's linear power of each channel, whose dB is worked out here; with `hold_reference` the smoothed powers stay as they are.
pub fn bank_update_linear(
    bank: &mut [u16],
    bank_f: &mut [f64],
    power: &[f32],
    hold_reference: bool,
) -> Result<(), Refusal>
    ensures { (answer result, bank.new, bank_f.new) ≡ bank_update_call bank.old bank_f.old (linear_hop hold_reference power.now) }
{
    linear_refusal(bank, bank_f, power)?;
    let db = decibels::hop_db(power);
    let n = power.len();
    bank_step::take_hop(bank, bank_f, &db[..n], power, hold_reference);
    Ok(())
}
