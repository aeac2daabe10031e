// R-3: the remembered thresholds. The last 2n floats of a gate: the rise floor last used of each channel, then their thresholds.
#![tactic(auto)]

ghost use Rattle.std.specs.Prelude.{◌≡◌, ◌++◌, ◌*◌, ◌<◌, length};
ghost use Rattle.laws.specs.Lists.{tab};
ghost use Rattle.model.specs.Stores.{bank_of};
ghost use Rattle.model.specs.Gate.{level_of, refresh, hold_step};
ghost use Rattle.model.specs.GateStores.{gate_floats, gate_of};
ghost use Rattle.gate_cursors.specs.Paired.{Paired};
ghost use Rattle.gate_pairs.specs.Renewed.{renewed, used_of, threshold_of};

// A level as the store has it, in dB.
pub fn level(x: u16) -> f64
    ensures { result ≡ level_of x }
{
    (f64::from(x) - 800.0) / 8.0
}

// The pair of channel k, of n: the ladder is dear, and floors move at slow hops only. A NaN differs from itself.
#[tactic(auto, unfolding(crate::specs::Renewed::renewed))]
fn renew(pairs: &mut [f64], n: usize, k: usize, floor: f64, on: f64)
    requires { (length pairs.old ≡ 2 * n) × (k < n) }
    ensures { pairs.new ≡ renewed pairs.old n k floor on }
{
    if floor != pairs[k] {
        pairs[k] = floor;
        pairs[n + k] = ladder::ladder(floor + on);
    }
}

fn renew_all(pairs: &mut [f64], rise: &[f64], on: f64)
    requires { length pairs.old ≡ 2 * length rise.now }
    ensures { pairs.new ≡ (tab (length rise.now) (used_of pairs.old rise.now) ++ tab (length rise.now) (threshold_of pairs.old rise.now on)) }
{
    let n = rise.len();
    for (k, &floor) in rise.iter().enumerate() {
        renew(pairs, n, k, floor, on);
    }
}

// Bank and gate come as two slices each, one of u16 and one of f64, as C lends them. Of the four a call writes one alone, and a struct that held
// it as `&mut` would be read in a clause by store.exit.0.now.

// Every channel's pair is brought up to date with the stored rise floors.
pub fn refresh(bank: &[u16], bank_f: &[f64], gate: &[u16], gate_f: &mut [f64])
    requires { Paired bank.now bank_f.now gate.now gate_f.old }
    ensures { gate_f.new ≡ gate_floats (refresh (gate_of gate.now gate_f.old) (bank_of bank.now bank_f.now)) }
{
    let n = usize::from(bank[0]);
    let on = level(gate[2]);
    let end = gate_f.len();
    let at = end - 2 * n;
    let rise = 3 * n;
    let after = rise + n;
    renew_all(&mut gate_f[at..end], &bank_f[rise..after], on);
}

// A hold before the first update changes nothing.
#[tactic(auto, using(crate::proofs::Refreshed::hold_unstarted, crate::proofs::Refreshed::hold_started))]
pub fn refresh_started(bank: &[u16], bank_f: &[f64], gate: &[u16], gate_f: &mut [f64])
    requires { Paired bank.now bank_f.now gate.now gate_f.old }
    ensures { gate_f.new ≡ gate_floats (hold_step (gate_of gate.now gate_f.old) (bank_of bank.now bank_f.now)) }
{
    if gate[1] != 0 {
        refresh(bank, bank_f, gate, gate_f);
    }
}
