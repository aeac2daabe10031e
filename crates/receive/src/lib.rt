// A run of hops: the stores are tested once, and then each hop takes the steps of the single calls.
#![tactic(auto)]

ghost use Rattle.std.specs.Prelude.{◌≡◌};
ghost use Rattle.refusals.specs.Numbers.{answer};
ghost use Rattle.run_model.specs.Runs.{alone, run_refusal, received};
ghost use Rattle.run_model.specs.Hops.{HopFits, Stepped};

use refusals::Refusal;

// Here and below, slices and no struct of them: behind a struct of `&mut` an ensures reads store.exit.0.now, and C lends them one by one.

// One hop of a run that is not refused: with a hold of 0 the bank's update and the gate's, else the bank's with its reference held, and
// the gate's marks again. A hold is a byte, as C lends it.
fn take_hop(
    bank: &mut [u16],
    bank_f: &mut [f64],
    gate: &mut [u16],
    gate_f: &mut [f64],
    hold: u8,
    power_db: &[f64],
    power: &[f32],
    rise: &mut [u8],
    drop: &mut [u8],
)
    requires { HopFits (alone bank.old bank_f.old gate.old gate_f.old) (record { hold = hold; db = power_db.now; power = power.now; rise = rise.old; drop = drop.old }) }
    ensures { Stepped (alone bank.old bank_f.old gate.old gate_f.old) (record { hold = hold; db = power_db.now; power = power.now; rise = rise.old; drop = drop.old }) bank.new bank_f.new gate.new gate_f.new rise.new drop.new }
{
    if hold == 0 {
        bank_step::take_hop(bank, bank_f, power_db, power, false);
        gate::take_hop(bank, bank_f, gate, gate_f, power_db, power, rise, drop);
    } else {
        bank_step::take_hop(bank, bank_f, power_db, power, true);
        gate::take_hold(bank, bank_f, gate, gate_f, rise, drop);
    }
}

// Hop after hop: the next n places are read, and the next n are marked.
// Places are counted, `at` those read and `marks` those marked, and no chunks zipped: a hop and parts of four slices would come as pairs in
// pairs, which reads no plainer.
fn run(
    bank: &mut [u16],
    bank_f: &mut [f64],
    gate: &mut [u16],
    gate_f: &mut [f64],
    hold: &[u8],
    power_db: &[f64],
    power: &[f32],
    rise: &mut [u8],
    drop: &mut [u8],
)
    requires { run_refusal bank.old bank_f.old gate.old gate_f.old (record { hold = hold.now; db = power_db.now; power = power.now; rise = rise.old; drop = drop.old }) ≡ 0 }
    ensures { (0, bank.new, bank_f.new, gate.new, gate_f.new, rise.new, drop.new) ≡ received bank.old bank_f.old gate.old gate_f.old (record { hold = hold.now; db = power_db.now; power = power.now; rise = rise.old; drop = drop.old }) }
{
    let n = usize::from(gate[0]);
    let mut at: usize = 0;
    let mut marks: usize = 0;
    for held in hold {
        let e = at + n;
        let marked = marks + n;
        take_hop(
            bank,
            bank_f,
            gate,
            gate_f,
            *held,
            &power_db[at..e],
            &power[at..e],
            &mut rise[marks..marked],
            &mut drop[marks..marked],
        );
        at = e;
        marks = marked;
    }
}

// So many hops at once as `hold` is long, the other slices hop after hop.
pub fn receive(
    bank: &mut [u16],
    bank_f: &mut [f64],
    gate: &mut [u16],
    gate_f: &mut [f64],
    hold: &[u8],
    power_db: &[f64],
    power: &[f32],
    rise: &mut [u8],
    drop: &mut [u8],
) -> Result<(), Refusal>
    ensures { (answer result, bank.new, bank_f.new, gate.new, gate_f.new, rise.new, drop.new) ≡ received bank.old bank_f.old gate.old gate_f.old (record { hold = hold.now; db = power_db.now; power = power.now; rise = rise.old; drop = drop.old }) }
{
    run_refusals::run_refusal(
        bank,
        bank_f,
        gate,
        gate_f,
        hold.len(),
        power_db,
        power.len(),
        rise.len(),
        drop.len(),
    )?;
    run(
        bank, bank_f, gate, gate_f, hold, power_db, power, rise, drop,
    );
    Ok(())
}
