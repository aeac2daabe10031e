// The end of a record whose call writes marks.
ghost use Rattle.replay_data.specs.Kept.{Kept};

use crate::compare::{answer_differs, differing};
use crate::state::{Replay, after};
use refusals::Refusal;
use std::num::wrapping_add_u64;

// The answer, the rise bytes, the drop bytes, which the call wrote to two slices, as C lends them: the answer stands at `at`, and with the last of them
// the record ends.
pub fn passed_marks<'a>(
    mut r: Replay<'a>,
    at: usize,
    done: Result<(), Refusal>,
    rise: &[u8],
    drop: &[u8],
) -> Replay<'a>
    ensures kept { Kept r.entry result }
{
    r.at = at;
    let answers = answer_differs(r, 0, done);
    let rises = after(at, 1);
    let drops = after(rises, rise.len());
    let marks = wrapping_add_u64(
        differing(r.list, rises, rise),
        differing(r.list, drops, drop),
    );
    r.at = drops;
    r.passed(drop.len(), wrapping_add_u64(answers, marks))
}
