// Document 01, "Windows, ladder, gate": the windows of one length, over its part of the gate's f64 store.
#![tactic(auto)]

ghost use Rattle.std.specs.Prelude.{◌≡◌, length};
ghost use Rattle.model.specs.Numbers.{f0};
ghost use Rattle.model.specs.Windows.{push_look, rebase_look, total};
ghost use Rattle.model.specs.GateStores.{look_f};
ghost use Rattle.cursors.specs.Cursors.{CursorFits};
ghost use Rattle.windows.specs.Looks.{LookFits, looks_in, sample_at, stepped_look};

use cursors::Cursor;

// That a part holds its windows each function on it requires: it is written, and behind a struct of `&mut` a clause would read look.exit.part.now.
// So it is with the cursor: `gate_cursors` reads one from a store of which it asks only its length, and a type of cursors that fit would ask more there.

// Each channel takes its sample: previous gains (middle - old), recent gains (sample - middle), old becomes the sample.
fn push_look(look: &mut [f64], c: Cursor, samples: &[f64])
    requires { LookFits look.old (length samples.now) c.m × CursorFits c }
    ensures { look.new ≡ look_f (push_look (length samples.now) (sample_at samples.now) (looks_in look.old c (length samples.now))) }
{
    let half = c.middle();
    let middle = half.place;
    let at = c.at;
    let m = c.m;
    let n = samples.len();
    let recent = 2 * m * n;
    let previous = recent + n;
    for (k, &sample) in samples.iter().enumerate() {
        let ring = 2 * m * k;
        let old = look[ring + at];
        let mid = look[ring + middle];
        let p = look[previous + k];
        let r = look[recent + k];
        look[previous + k] = p + (mid - old);
        look[recent + k] = r + (sample - mid);
        look[ring + at] = sample;
    }
}

// Left to right from zero.
fn sum(samples: &[f64]) -> f64
    ensures { result ≡ total f0 samples.now }
{
    let mut so_far = 0.0;
    for sample in samples {
        so_far += *sample;
    }
    so_far
}

// The sums taken afresh from the rings: previous of places 0 to m - 1, recent of m to 2m - 1.
fn rebase_look(look: &mut [f64], c: Cursor, n: usize)
    requires { LookFits look.old n c.m }
    ensures { look.new ≡ look_f (rebase_look n (looks_in look.old c n)) }
{
    let m = c.m;
    let recent = 2 * m * n;
    let previous = recent + n;
    // A turn reads the ring of channel k and writes both its sums, three parts of one store: k names each of them.
    for k in 0..n {
        let start = 2 * m * k;
        let middle = start + m;
        let end = middle + m;
        let p = sum(&look[start..middle]);
        let r = sum(&look[middle..end]);
        look[previous + k] = p;
        look[recent + k] = r;
    }
}

// One hop of one length: all channels take their samples, the cursor advances, and the sums are taken afresh once a turn of the ring.
pub fn step_look(look: &mut [f64], c: Cursor, samples: &[f64]) -> Cursor
    requires { LookFits look.old (length samples.now) c.m × CursorFits c }
    ensures { (result, look.new) ≡ stepped_look look.old c samples.now }
{
    push_look(look, c, samples);
    let next = c.advance();
    if next.at == 0 {
        rebase_look(look, next, samples.len());
    }
    next
}
