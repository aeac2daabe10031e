// Whether the gate's u16 store is sound, and how long its f64 store then is.
#![tactic(auto)]

ghost use Rattle.std.specs.Prelude.{◌≡◌, true, ◌||◌, ◌≤◌, ◌<◌, eqb, length};
ghost use Rattle.model.specs.GateStores.{m_at, look_size, gate_f_len, sound_level, sound_triple, sound_triples, new_length, sound_head, sound_gate};
ghost use Rattle.gate_sound.specs.Checks.{unused_triple, sound_length};

// How long a gate's u16 store is: six settings, and eight triples.
pub const GATE_LEN: usize = 30;

fn early_sound(early: u16) -> bool
    ensures { result ≡ (eqb early 65535 || sound_level early) }
{
    early == 65535 || early <= 1600
}

fn head_sound(n: u16, started: u16, on: u16, off: u16, early: u16, count: u16) -> bool
    ensures { result ≡ sound_head n started on off early count }
{
    n >= 1
        && n <= 512
        && started <= 1
        && on <= 1600
        && off <= 1600
        && early_sound(early)
        && count >= 1
        && count <= 8
}

// A triple goes as three numbers to this test or to the next: a struct of them would be made from the store for that one call.
fn triple_sound(m: u16, cursor: u16, filled: u16) -> bool
    ensures { result ≡ sound_triple m cursor filled }
{
    m >= 1 && m <= 375 && cursor < 2 * m && filled <= 2 * m && (filled == 2 * m || cursor == filled)
}

fn unused(m: u16, cursor: u16, filled: u16) -> bool
    ensures { result ≡ unused_triple m cursor filled }
{
    m == 0 && cursor == 0 && filled == 0
}

// None of the lengths before length j equals it.
fn new_length(gate: &[u16; GATE_LEN], j: usize) -> bool
    requires { j < 8 }
    ensures { result ≡ new_length (m_at gate.now) j }
{
    (0..j).all(|i| gate[6 + 3 * i] != gate[6 + 3 * j])
}

#[tactic(auto, unfolding(crate::specs::Checks::sound_length))]
fn length_sound(gate: &[u16; GATE_LEN], j: usize) -> bool
    requires { j < 8 }
    ensures { result ≡ sound_length gate.now j }
{
    let m = gate[6 + 3 * j];
    let cursor = gate[6 + 3 * j + 1];
    let filled = gate[6 + 3 * j + 2];
    if j < usize::from(gate[5]) {
        triple_sound(m, cursor, filled) && new_length(gate, j)
    } else {
        unused(m, cursor, filled)
    }
}

fn triples_sound(gate: &[u16; GATE_LEN]) -> bool
    ensures { result ≡ sound_triples gate.now }
{
    (0..8).all(|j| length_sound(gate, j))
}

#[tactic(auto, unfolding(model::specs::GateStores::sound_gate))]
pub fn gate_sound(gate: &[u16; GATE_LEN]) -> bool
    ensures { result ≡ sound_gate gate.now }
{
    head_sound(gate[0], gate[1], gate[2], gate[3], gate[4], gate[5]) && triples_sound(gate)
}

// The floats of a length m over n channels. How many channels and how long is asked of the caller, whose tests of the store or of a making found it.
pub fn look_size(n: usize, m: usize) -> usize
    requires { (n ≤ 512) × (m ≤ 375) }
    ensures { (result ≡ look_size n m) × (result ≤ 385024) }
{
    2 * m * n + n + n
}

// The floats of a sound gate: the smoothed dB, the lengths, and the pairs (R-3). By numbers of lengths, from which the place of each follows. The
// invariant bounds what the turns so far have added; a sum over a chain would be asked beforehand that the whole fits.
pub fn f_len(gate: &[u16; GATE_LEN]) -> usize
    requires { sound_gate gate.now ≡ true }
    ensures { result ≡ gate_f_len gate.now }
{
    let n = usize::from(gate[0]);
    let mut floats = n;
    for j in 0..usize::from(gate[5]) {
        floats += look_size(n, usize::from(gate[6 + 3 * j]));
    }
    floats + 2 * n
}
