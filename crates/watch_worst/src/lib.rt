// The worst floor of late of a channel (document 02, R-6) as text.
#![tactic(auto)]

ghost use Rattle.std.specs.Prelude.{◌≡◌};
ghost use Rattle.refusals.specs.Numbers.{numbered};
ghost use Rattle.watch_text.specs.Text.{written, put_all, right};
ghost use Rattle.watch_worst.specs.Told.{worst_text};

use refusals::Refusal;
use watch_figures::no_number;
use watch_floats::put_db;
use watch_text::{Line, put_right};

// At the right of a column.
pub fn put_worst(line: &mut Line, x: Result<Option<f64>, Refusal>, width: usize)
    ensures { written line.new ≡ put_all (written line.old) (right width (worst_text (numbered x))) }
{
    match x {
        Ok(Some(floor)) => put_db(line, floor, width),
        Ok(None) => put_right(line, b"none yet", width),
        Err(_) => put_db(line, no_number(), width),
    }
}
