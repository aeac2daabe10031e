// An explanation taken apart for C.
ghost use Rattle.std.specs.Prelude.{◌≡◌};
ghost use Rattle.refusals.specs.Numbers.{numbered_by};
ghost use Rattle.answers.specs.Explained.{explained_answered};

use origins::Explanation;
use refusals::Refuses;

// Each origin's number and its dB, written only if there is an explanation.
#[tactic(auto, unfolding(crate::specs::Explained::explained_answered))]
pub fn explained_answer<E: Refuses>(
    explained: Result<Explanation, E>,
    effective_origin: &mut u8,
    effective: &mut f64,
    rise_origin: &mut u8,
    rise: &mut f64,
) -> u16
    ensures { (result, effective_origin.new, effective.new, rise_origin.new, rise.new) ≡ explained_answered effective_origin.old effective.old rise_origin.old rise.old (numbered_by E.number explained) }
{
    match explained {
        Ok(x) => {
            let e = x.effective;
            let r = x.rise;
            *effective_origin = origins::effective_number(e);
            *effective = origins::effective_db(e);
            *rise_origin = origins::rise_number(r);
            *rise = origins::rise_db(r);
            0
        }
        Err(refusal) => refusal.to_number(),
    }
}
