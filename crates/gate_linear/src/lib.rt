// Document 02, R-13: a gate update from linear power alone.
#![tactic(auto)]

ghost use Rattle.std.specs.Prelude.{◌≡◌};
ghost use Rattle.refusals.specs.Numbers.{answer};
ghost use Rattle.model.specs.GateCalls.{gate_update_call};
ghost use Rattle.model.specs.Decibels.{linear_gate_hop};

use refusals::Refusal;

// One hop's linear power of each channel, whose dB is worked out here. The stores and both outputs come as C lends them, each a slice of its own,
// and go on as they are to `gate::take_hop`.
pub fn gate_update_linear(
    bank: &[u16],
    bank_f: &[f64],
    gate: &mut [u16],
    gate_f: &mut [f64],
    power: &[f32],
    rise: &mut [u8],
    drop: &mut [u8],
) -> Result<(), Refusal>
    ensures { (answer result, gate.new, gate_f.new, rise.new, drop.new) ≡ gate_update_call bank.now bank_f.now gate.old gate_f.old (linear_gate_hop power.now) rise.old drop.old }
{
    let n = power.len();
    gate_store::gate_update_refusal(bank, bank_f, gate, gate_f, n, n, rise.len(), drop.len())?;
    let db = decibels::hop_db(power);
    gate::take_hop(bank, bank_f, gate, gate_f, &db[..n], power, rise, drop);
    Ok(())
}
