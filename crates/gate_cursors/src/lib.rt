// The triples of the gate's lengths: m, cursor and filled, from the sixth entry of the u16 store on.
#![tactic(auto)]

ghost use Rattle.std.specs.Prelude.{◌≡◌, ◌+◌, ◌*◌, ◌<◌, length, set};
ghost use Rattle.gate_cursors.specs.Paired.{cursor_of};

use cursors::Cursor;

// The cursor of length j.
pub fn cursor(gate: &[u16], j: usize) -> Cursor
    requires { 6 + 3 * j + 2 < length gate.now }
    ensures { result ≡ cursor_of gate.now j }
{
    let at = 6 + 3 * j;
    Cursor {
        m: usize::from(gate[at]),
        at: usize::from(gate[at + 1]),
        filled: usize::from(gate[at + 2]),
    }
}

// The cursor of length j put back; its m stays.
pub fn put_cursor(gate: &mut [u16], j: usize, c: Cursor)
    requires { (6 + 3 * j + 2 < length gate.old) × (c.at < 65536) × (c.filled < 65536) }
    ensures { gate.new ≡ set (set gate.old (6 + 3 * j + 1) c.at) (6 + 3 * j + 2) c.filled }
{
    let at = 6 + 3 * j;
    // Casts, since no From leads from usize to 16 bits. What they cut is 0, which is proved.
    gate[at + 1] = c.at as u16;
    gate[at + 2] = c.filled as u16;
}
