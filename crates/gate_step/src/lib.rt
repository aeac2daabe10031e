// The step of a gate update: the smoothed dB, then the windows of each length, then started.
#![tactic(auto)]

ghost use Rattle.std.specs.Prelude.{◌≡◌, length, get_or};
ghost use Rattle.laws.specs.Lists.{tab};
ghost use Rattle.model.specs.Numbers.{f0, smoothed};
ghost use Rattle.model.specs.Gate.{gate_step};
ghost use Rattle.model.specs.GateStores.{gate_floats, gate_of};
ghost use Rattle.model.specs.GoodGate.{GateReady};
ghost use Rattle.gate_step.specs.Steps.{Holds, smooth_step, looks_step};

use gate_cursors::{cursor, put_cursor};

// Here and below a gate is the two slices that C lends, and each function that takes both requires that they are one: what a struct of `&mut` lends a
// clause could read only as store.exit.0.now.

// The first update: the dB themselves.
fn start_db(smooth: &mut [f64], power_db: &[f64])
    requires { length power_db.now ≡ length smooth.old }
    ensures { smooth.new ≡ tab (length smooth.old) (λ k. get_or power_db.now k f0) }
{
    // By entries: as one copy the archive would need another function from outside.
    for (k, kept) in smooth.iter_mut().enumerate() {
        *kept = power_db[k];
    }
}

// Every later one.
fn follow_db(smooth: &mut [f64], power_db: &[f64])
    requires { length power_db.now ≡ length smooth.old }
    ensures { smooth.new ≡ tab (length smooth.old) (λ k. smoothed (get_or smooth.old k f0) (get_or power_db.now k f0)) }
{
    // The place is counted along, since a proof knows nothing of what a zip of `iter_mut` wrote.
    for (k, kept) in smooth.iter_mut().enumerate() {
        *kept = powers::smooth_step(*kept, power_db[k]);
    }
}

fn smooth_db(gate_f: &mut [f64], gate: &[u16], power_db: &[f64])
    requires { GateReady gate.now gate_f.old × (length power_db.now ≡ get_or gate.now 0 0) }
    ensures { gate_f.new ≡ gate_floats (smooth_step power_db.now (gate_of gate.now gate_f.old)) }
{
    let n = power_db.len();
    if gate[1] == 0 {
        start_db(&mut gate_f[0..n], power_db);
    } else {
        follow_db(&mut gate_f[0..n], power_db);
    }
}

// Each length takes the hop's samples: its windows stand one after another behind the smoothed dB. `gate_marks` goes over them in such a loop,
// too: one loop for both, with a closure, is no plainer, since a turn here writes cursor and part, and there it reads them. Cursor j lies among
// the u16s, and each length has a part of another size behind it, so there are no chunks to go over.
fn step_looks(gate: &mut [u16], gate_f: &mut [f64], samples: &[f64])
    requires { GateReady gate.old gate_f.old × (length samples.now ≡ get_or gate.old 0 0) }
    ensures { Holds (looks_step samples.now (gate_of gate.old gate_f.old)) gate.new gate_f.new }
{
    let n = samples.len();
    let lengths = usize::from(gate[5]);
    let mut at = n;
    for j in 0..lengths {
        let c = cursor(gate, j);
        let m = c.m;
        let e = at + (2 * m * n + n + n);
        let next = windows::step_look(&mut gate_f[at..e], c, samples);
        put_cursor(gate, j, next);
        at = e;
    }
}

// The powers become samples once, since every length takes the same ones.
pub fn step(gate: &mut [u16], gate_f: &mut [f64], power_db: &[f64], power: &[f32])
    requires { GateReady gate.old gate_f.old × (length power_db.now ≡ get_or gate.old 0 0) × (length power.now ≡ get_or gate.old 0 0) }
    ensures { Holds (gate_step (gate_of gate.old gate_f.old) power_db.now power.now) gate.new gate_f.new }
{
    smooth_db(gate_f, gate, power_db);
    let n = power.len();
    // There is no heap: room for as many channels as a gate may have.
    let mut samples = [0.0; 512];
    powers::start_powers(&mut samples[..n], power);
    step_looks(gate, gate_f, &samples[..n]);
    gate[1] = 1;
}
