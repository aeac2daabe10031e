// Document 02, R-12: the gate's update and its hold with a lent map: they do what those without do, and set the flags of their marks.
#![tactic(auto)]

ghost use Rattle.std.specs.Prelude.{◌≡◌};
ghost use Rattle.refusals.specs.Numbers.{answer};
ghost use Rattle.model.specs.MapCalls.{gate_update_map_call, gate_hold_map_call};

use refusals::Refusal;

// Slices and no struct of them: behind a struct of `&mut` an ensures reads store.exit.0.now, and C lends them one by one. So it is with a hop's two
// slices and the two of marks, here and in the hold.
// One hop's dB and linear power of each channel: the gate's own hop, and then the flags of its marks are set.
pub fn gate_update_map(
    bank: &[u16],
    bank_f: &[f64],
    gate: &mut [u16],
    gate_f: &mut [f64],
    map: &mut [u8],
    power_db: &[f64],
    power: &[f32],
    rise: &mut [u8],
    drop: &mut [u8],
) -> Result<(), Refusal>
    ensures { (answer result, gate.new, gate_f.new, map.new, rise.new, drop.new) ≡ gate_update_map_call bank.now bank_f.now gate.old gate_f.old map.old (record { db = power_db.now; power = power.now }) rise.old drop.old }
{
    map_lent::update_map_refusal(
        bank,
        bank_f,
        gate,
        gate_f,
        map,
        power_db.len(),
        power.len(),
        rise.len(),
        drop.len(),
    )?;
    gate::take_hop(bank, bank_f, gate, gate_f, power_db, power, rise, drop);
    map_marks::set_marks(map, rise, drop);
    Ok(())
}

// The marks again, with no hop, and their flags.
pub fn gate_hold_map(
    bank: &[u16],
    bank_f: &[f64],
    gate: &[u16],
    gate_f: &mut [f64],
    map: &mut [u8],
    rise: &mut [u8],
    drop: &mut [u8],
) -> Result<(), Refusal>
    ensures { (answer result, gate_f.new, map.new, rise.new, drop.new) ≡ gate_hold_map_call bank.now bank_f.now gate.now gate_f.old map.old rise.old drop.old }
{
    map_lent::hold_map_refusal(bank, bank_f, gate, gate_f, map, rise.len(), drop.len())?;
    gate::take_hold(bank, bank_f, gate, gate_f, rise, drop);
    map_marks::set_marks(map, rise, drop);
    Ok(())
}
