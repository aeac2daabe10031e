// Document 02, R-14: a gate remade with new levels. Its n and its lengths stay, the rest is fresh, as making with those settings leaves it.
// The gate is two slices, as C lends them and as making takes them: both are written, and of a struct of them a clause would say store.exit.0.now.
// On, off and early come one by one, as C hands them, and go on to making as they came.
#![tactic(auto)]

ghost use Rattle.std.specs.Prelude.{◌≡◌, ◌≤◌, length, get_or};
ghost use Rattle.laws.specs.Lists.{tab};
ghost use Rattle.model.specs.GateStores.{m_at};
ghost use Rattle.model.specs.GateCalls.{gate_refusal, gate_new_call};
ghost use Rattle.model.specs.Remake.{lengths_in, gate_remake_call};
ghost use Rattle.refusals.specs.Numbers.{answer};

use gate_sound::GATE_LEN;
use refusals::Refusal;

// As many lengths of a gate as there is room for, in the order of the store.
fn put_lengths(gate: &[u16; GATE_LEN], lengths: &mut [u16])
    requires { length lengths.old ≤ 8 }
    ensures { lengths.new ≡ tab (length lengths.old) (m_at gate.now) }
{
    for (j, length) in lengths.iter_mut().enumerate() {
        *length = gate[6 + 3 * j];
    }
}

// Makes a gate anew with what it has of n and lengths; `lengths` is room for them.
#[tactic(auto, using(gate_sound::proofs::Sizes::thirty))]
fn make_again(
    gate: &mut [u16],
    gate_f: &mut [f64],
    on: i32,
    off: i32,
    early: i32,
    lengths: &mut [u16],
) -> Result<(), Refusal>
    requires { (gate_refusal gate.old gate_f.old ≡ 0) × (length lengths.old ≡ get_or gate.old 5 0) }
    ensures { (answer result, gate.new, gate_f.new) ≡ gate_new_call gate.old gate_f.old (get_or gate.old 0 0) on off early (lengths_in gate.old) }
{
    put_lengths(gate.as_array().unwrap(), lengths);
    let n = usize::from(gate[0]);
    gate_making::gate_new(gate, gate_f, n, on, off, early, lengths)
}

// What is no gate is refused and left alone.
#[tactic(auto, unfolding(model::specs::Remake::gate_remake_call, model::specs::Remake::remake_refusal))]
pub fn gate_remake(
    gate: &mut [u16],
    gate_f: &mut [f64],
    on: i32,
    off: i32,
    early: i32,
) -> Result<(), Refusal>
    ensures { (answer result, gate.new, gate_f.new) ≡ gate_remake_call gate.old gate_f.old on off early }
{
    gate_store::gate_refusal(gate, gate_f)?;
    let count = usize::from(gate[5]);
    let mut lengths: [u16; 8] = [0; 8]; // There is no heap, and eight is the most.
    make_again(gate, gate_f, on, off, early, &mut lengths[..count])
}
