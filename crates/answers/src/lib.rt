// A reading of more than one value taken apart for C: the answer's number, and what is written behind the caller's references, only where the number is 0.
#![tactic(auto)]

pub mod explained;

ghost use Rattle.std.specs.Prelude.{◌≡◌};
ghost use Rattle.refusals.specs.Numbers.{numbered_by};
ghost use Rattle.answers.specs.Answers.{floors_answered, ring_answered};

use model::Floors;
use model::layout::RING_LEN;
use refusals::Refuses;

// The three floors, each written only if the reading has them.
#[tactic(auto, unfolding(crate::specs::Answers::floors_answered))]
pub fn floors_answer<E: Refuses>(
    reading: Result<Floors, E>,
    effective: &mut f64,
    rise: &mut f64,
    raw: &mut f64,
) -> u16
    ensures { (result, effective.new, rise.new, raw.new) ≡ floors_answered effective.old rise.old raw.old (numbered_by E.number reading) }
{
    match reading {
        Ok(x) => {
            *effective = x.effective;
            *rise = x.rise;
            *raw = x.raw;
            0
        }
        Err(refused) => refused.to_number(),
    }
}

// Where in `bank` the ring of channel k lies. Two slices, as C lends a bank: it is not yet known to be one.
pub fn ring_answer(
    bank: &[u16],
    bank_f: &[f64],
    k: usize,
    start: &mut usize,
    len: &mut usize,
) -> u16
    ensures { (result, start.new, len.new) ≡ ring_answered bank.now bank_f.now k start.old len.old }
{
    match stores::read_refusal(bank, bank_f, k) {
        Ok(()) => {
            *start = channel_readings::ring_start(bank, k);
            *len = RING_LEN;
            0
        }
        Err(refusal) => refusal.number(),
    }
}
