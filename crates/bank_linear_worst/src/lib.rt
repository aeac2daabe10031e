// Document 02, R-13 with R-6: a bank update from linear power alone that carries the store of the worst floor of late.
#![tactic(auto)]

ghost use Rattle.std.specs.Prelude.{◌≡◌};
ghost use Rattle.refusals.specs.Numbers.{answer};
ghost use Rattle.model.specs.WorstCalls.{worst_update};
ghost use Rattle.model.specs.Decibels.{linear_hop};

use refusals::Refusal;

// One hop's linear power of each channel, whose dB is worked out here; then it is the update that carries the store.
// Both stores are written: behind a struct of `&mut` the clause below would read store.exit.0.now four times.
pub fn bank_update_linear_worst(
    bank: &mut [u16],
    bank_f: &mut [f64],
    worst: &mut [u16],
    worst_f: &mut [f64],
    power: &[f32],
    hold_reference: bool,
) -> Result<(), Refusal>
    ensures { (answer result, bank.new, bank_f.new, worst.new, worst_f.new) ≡ worst_update bank.old bank_f.old worst.old worst_f.old (linear_hop hold_reference power.now) }
{
    let n = power.len();
    if n > 512 {
        // No bank has so many channels: the stores are tested, and what they leave to refuse is the hop's length, whatever its dB.
        let none = [0.0];
        return worst_store::carry_refusal(bank, bank_f, worst, worst_f, &none, power);
    }
    let db = decibels::hop_db(power);
    worst::bank_update_worst(
        bank,
        bank_f,
        worst,
        worst_f,
        &db[..n],
        power,
        hold_reference,
    )
}
