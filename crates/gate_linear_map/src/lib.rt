// Document 02, R-13 with R-12: a gate update from linear power alone that carries a map.
#![tactic(auto)]

ghost use Rattle.std.specs.Prelude.{◌≡◌};
ghost use Rattle.refusals.specs.Numbers.{answer};
ghost use Rattle.model.specs.MapCalls.{gate_update_map_call};
ghost use Rattle.model.specs.Decibels.{linear_gate_hop};

use refusals::Refusal;

// One hop's linear power of each channel, whose dB is worked out here; then the flags of the marks are set. The stores and the marks are slices one
// by one, as C lends them: of a struct that holds them by `&mut` the contract would say store.exit.0.now.
pub fn gate_update_linear_map(
    bank: &[u16],
    bank_f: &[f64],
    gate: &mut [u16],
    gate_f: &mut [f64],
    map: &mut [u8],
    power: &[f32],
    rise: &mut [u8],
    drop: &mut [u8],
) -> Result<(), Refusal>
    ensures { (answer result, gate.new, gate_f.new, map.new, rise.new, drop.new) ≡ gate_update_map_call bank.now bank_f.now gate.old gate_f.old map.old (linear_gate_hop power.now) rise.old drop.old }
{
    let n = power.len();
    map_lent::update_map_refusal(
        bank,
        bank_f,
        gate,
        gate_f,
        map,
        n,
        n,
        rise.len(),
        drop.len(),
    )?;
    let db = decibels::hop_db(power);
    gate::take_hop(bank, bank_f, gate, gate_f, &db[..n], power, rise, drop);
    map_marks::set_marks(map, rise, drop);
    Ok(())
}
