// Document 01, "Readings", the gate's half: the smoothed dB of a channel, and its early rise alone.
#![tactic(auto)]

ghost use Rattle.std.specs.Prelude.{◌≡◌, not, ◌&&◌, ◌<◌, eqb, get_or, pos};
ghost use Rattle.std.specs.Float.{binary64};
ghost use Rattle.std.specs.Float.Ieee.{of_int};
ghost use Rattle.laws.specs.Lists.{one};
ghost use Rattle.refusals.specs.Numbers.{numbered};
ghost use Rattle.model.specs.Stores.{bank_of};
ghost use Rattle.model.specs.Gate.{early_rise};
ghost use Rattle.model.specs.GateStores.{gate_of};
ghost use Rattle.model.specs.GateCalls.{smoothed_reading, early_reading};
ghost use Rattle.model.specs.GoodGate.{GateReady};

use channel_readings::Channel;
use refusals::Refusal;

// Bank and gate come as two slices each, as C lends them: a reading is one call, and a struct of the slices would be made for it and dropped.
// The gate's smoothed dB of channel k. `readings::channel_floor_db` does the same with a bank: what the two share is the test, the `?` and an
// index, and a generic one would take test and index as closures and say its contract by theirs.
pub fn smoothed_db(gate: &[u16], gate_f: &[f64], k: usize) -> Result<f64, Refusal>
    ensures { numbered result ≡ smoothed_reading gate.now gate_f.now k }
{
    gate_store::smoothed_refusal(gate, gate_f, k)?;
    let smoothed = gate_f[k];
    Ok(smoothed)
}

// Early rise as 1 or 0, an f64 as C reads it; before the first update there is none.
fn early_mark(channel: &Channel<'_>, gate: &[u16], gate_f: &[f64]) -> f64
    requires { GateReady gate.now gate_f.now × (channel.now.k < get_or gate.now 0 0) }
    ensures { result ≡ of_int binary64 (pos (one (not (eqb (get_or gate.now 1 0) 0) && early_rise (gate_of gate.now gate_f.now) (bank_of channel.now.bank.now channel.now.bank_f.now) channel.now.k))) }
{
    let rises = gate[1] != 0
        && gate_marks::early_rise(gate[4], gate_f[channel.k], channel.effective());
    f64::from(u8::from(rises))
}

// Early rise of channel k alone.
pub fn ema_rise(
    bank: &[u16],
    bank_f: &[f64],
    gate: &[u16],
    gate_f: &[f64],
    k: usize,
) -> Result<f64, Refusal>
    ensures { numbered result ≡ early_reading bank.now bank_f.now gate.now gate_f.now k }
{
    gate_store::early_refusal(bank, bank_f, gate, gate_f, k)?;
    Ok(early_mark(&Channel { bank, bank_f, k }, gate, gate_f))
}
