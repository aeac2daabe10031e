// What the gate judges of each channel: rises and drops.
#![tactic(auto)]

ghost use Rattle.std.specs.Prelude.{◌≡◌, not, ◌&&◌, eqb, length, get_or};
ghost use Rattle.std.specs.Float.{binary64};
ghost use Rattle.std.specs.Float.Ieee.{add, le, lt};
ghost use Rattle.laws.specs.Lists.{tab, one};
ghost use Rattle.model.specs.Stores.{bank_of};
ghost use Rattle.model.specs.Gate.{level_of, early_rise, window_rise, is_drop_at};
ghost use Rattle.model.specs.GateStores.{gate_of};
ghost use Rattle.model.specs.GoodGate.{GateReady};
ghost use Rattle.window_rises.specs.Marking.{marked};
ghost use Rattle.gate_cursors.specs.Paired.{Paired, Marked};

use channel_readings::Channel;
use gate_cursors::cursor;

// What a gate's store, of u16 alone, holds where it has no level for an early rise.
const ABSENT: u16 = 65535;

pub fn early_rise(early: u16, smoothed: f64, effective: f64) -> bool
    ensures { result ≡ (not (eqb early 65535) && le (add binary64 effective (level_of early)) smoothed) }
{
    early != ABSENT && smoothed >= effective + gate_pairs::level(early)
}

// off: its level in dB.
fn drop_at(off: f64, smoothed: f64, effective: f64) -> bool
    ensures { result ≡ lt smoothed (add binary64 effective off) }
{
    smoothed < effective + off
}

// The stores come as two slices each, as C lends them. A struct of the four with `Paired` in it would be made by `judge` for `mark_levels`
// alone, and one of the gate's two for `mark_windows`; and `rise` and `drop` are written: behind a struct of `&mut` a clause would read
// marks.exit.rise.now. So their length stands with each.
// What the smoothed dB says: the early rise, and the drop.
fn mark_levels(
    bank: &[u16],
    bank_f: &[f64],
    gate: &[u16],
    gate_f: &[f64],
    rise: &mut [u8],
    drop: &mut [u8],
)
    requires { Paired bank.now bank_f.now gate.now gate_f.now × (length rise.old ≡ get_or gate.now 0 0) × (length drop.old ≡ get_or gate.now 0 0) }
    ensures { (rise.new ≡ tab (length rise.old) (λ k. one (early_rise (gate_of gate.now gate_f.now) (bank_of bank.now bank_f.now) k))) × (drop.new ≡ tab (length drop.old) (λ k. one (is_drop_at (gate_of gate.now gate_f.now) (bank_of bank.now bank_f.now) k))) }
{
    let early = gate[4];
    let off = gate_pairs::level(gate[3]);
    // By channels: where a channel's numbers lie in the bank is worked out from k.
    for k in 0..rise.len() {
        let effective = Channel { bank, bank_f, k }.effective();
        let smoothed = gate_f[k];
        rise[k] = u8::from(early_rise(early, smoothed, effective));
        drop[k] = u8::from(drop_at(off, smoothed, effective));
    }
}

// What the windows say, length by length: whatever is the same for all channels of a length is worked out once. The thresholds are the
// remembered ones (R-3), the last n floats.
fn mark_windows(gate: &[u16], gate_f: &[f64], rise: &mut [u8])
    requires { GateReady gate.now gate_f.now × (length rise.old ≡ get_or gate.now 0 0) }
    ensures { rise.new ≡ tab (length rise.old) (λ k. marked (get_or rise.old k 0) (window_rise (gate_of gate.now gate_f.now) k)) }
{
    let n = rise.len();
    let lengths = usize::from(gate[5]);
    let end = gate_f.len();
    let thresholds = end - n;
    let mut at = n;
    // By the number of a length, which says where its cursor stands; its floats begin where those of the length before end.
    for j in 0..lengths {
        let c = cursor(gate, j);
        let m = c.m;
        let e = at + (2 * m * n + n + n);
        window_rises::mark_look(&gate_f[at..e], c, &gate_f[thresholds..end], rise);
        at = e;
    }
}

fn clear(marks: &mut [u8])
    ensures { marks.new ≡ tab (length marks.old) (λ k. 0) }
{
    marks.fill(0);
}

// Before the first update nothing rises and nothing drops. After it early rise is the cheaper test and comes first.
pub fn judge(
    bank: &[u16],
    bank_f: &[f64],
    gate: &[u16],
    gate_f: &[f64],
    rise: &mut [u8],
    drop: &mut [u8],
)
    requires { Paired bank.now bank_f.now gate.now gate_f.now × (length rise.old ≡ get_or gate.now 0 0) × (length drop.old ≡ get_or gate.now 0 0) }
    ensures { Marked (gate_of gate.now gate_f.now) (bank_of bank.now bank_f.now) rise.new drop.new }
{
    if gate[1] == 0 {
        clear(rise);
        clear(drop);
    } else {
        mark_levels(bank, bank_f, gate, gate_f, rise, drop);
        mark_windows(gate, gate_f, rise);
    }
}
