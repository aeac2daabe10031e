// What the bank and the gate answer to a hop. They lend slices and no struct of them: behind one the clauses would read stores.new.bank.now for
// bank.new, and a call that reads one store and writes another is not covered there.
#![tactic(auto)]

ghost use Rattle.std.specs.Prelude.{◌≡◌};
ghost use Rattle.refusals.specs.Numbers.{answer};
ghost use Rattle.model.specs.Bank.{hop};
ghost use Rattle.model.specs.WorstCalls.{update_if};
ghost use Rattle.watch_hear.specs.Judged.{gate_judged, judged};
ghost use Rattle.watch_hear.specs.Heard.{answer_of, heard_of};

use refusals::Refusal;
use watch_recording::{Hop, Stop};

// With static heard the gate holds.
fn judge_gate(
    is_static: bool,
    bank: &[u16],
    bank_f: &[f64],
    gate: &mut [u16],
    gate_f: &mut [f64],
    db: &[f64],
    power: &[f32],
    rise: &mut [u8],
    drop: &mut [u8],
) -> Result<(), Refusal>
    ensures { (answer result, gate.new, gate_f.new, rise.new, drop.new) ≡ gate_judged is_static bank.now bank_f.now gate.old gate_f.old (record { db = db.now; power = power.now }) rise.old drop.old }
{
    if is_static {
        return gate::gate_hold(bank, bank_f, gate, gate_f, rise, drop);
    }
    gate::gate_update(bank, bank_f, gate, gate_f, db, power, rise, drop)
}

// The bank's update carries the store of the worst floor of late, or doesn't.
fn judge_bank(
    carries: bool,
    is_static: bool,
    bank: &mut [u16],
    bank_f: &mut [f64],
    worst: &mut [u16],
    worst_f: &mut [f64],
    db: &[f64],
    power: &[f32],
) -> Result<(), Refusal>
    ensures { (answer result, bank.new, bank_f.new, worst.new, worst_f.new) ≡ update_if carries bank.old bank_f.old worst.old worst_f.old (hop is_static db.now power.now) }
{
    if carries {
        return worst::bank_update_worst(bank, bank_f, worst, worst_f, db, power, is_static);
    }
    bank::bank_update_holding_reference(bank, bank_f, db, power, is_static)
}

// The bank and the gate take a hop.
fn judge(
    carries: bool,
    is_static: bool,
    bank: &mut [u16],
    bank_f: &mut [f64],
    worst: &mut [u16],
    worst_f: &mut [f64],
    gate: &mut [u16],
    gate_f: &mut [f64],
    db: &[f64],
    power: &[f32],
    rise: &mut [u8],
    drop: &mut [u8],
) -> Result<(), Refusal>
    ensures { (answer result, bank.new, bank_f.new, worst.new, worst_f.new, gate.new, gate_f.new, rise.new, drop.new) ≡ judged carries is_static bank.old bank_f.old worst.old worst_f.old gate.old gate_f.old (record { db = db.now; power = power.now }) rise.old drop.old }
{
    judge_bank(carries, is_static, bank, bank_f, worst, worst_f, db, power)?;
    judge_gate(is_static, bank, bank_f, gate, gate_f, db, power, rise, drop)
}

// Bank and gate took a hop of so many bytes, or refused it.
#[tactic(auto, using(crate::proofs::Steps::names))]
fn taken(judged: Result<(), Refusal>, size: usize) -> Result<usize, Stop>
    ensures { result ≡ answer_of size (answer judged) }
{
    judged?;
    Ok(size)
}

// What was read where a hop is due: a whole hop goes to the bank and the gate. How many bytes it has, or why it was not taken.
pub fn hear(
    step: Result<Hop, Stop>,
    carries: bool,
    bank: &mut [u16],
    bank_f: &mut [f64],
    worst: &mut [u16],
    worst_f: &mut [f64],
    gate: &mut [u16],
    gate_f: &mut [f64],
    db: &[f64],
    power: &[f32],
    rise: &mut [u8],
    drop: &mut [u8],
) -> Result<usize, Stop>
    ensures { (result, bank.new, bank_f.new, worst.new, worst_f.new, gate.new, gate_f.new, rise.new, drop.new) ≡ heard_of step carries bank.old bank_f.old worst.old worst_f.old gate.old gate_f.old (record { db = db.now; power = power.now }) rise.old drop.old }
{
    let Hop { is_static, size } = step?;
    taken(
        judge(
            carries, is_static, bank, bank_f, worst, worst_f, gate, gate_f, db, power, rise, drop,
        ),
        size,
    )
}
