// What C is given for a hop that was read: the number, and the next position behind the caller's reference, only where that number is 0.
#![tactic(auto)]

ghost use Rattle.std.specs.Prelude.{◌≡◌};
ghost use Rattle.refusals.specs.Numbers.{numbered_by};
ghost use Rattle.refusals.specs.Readings.{some_answered};

use refusals::Refuses;

// "End" is no refusal; its number stands outside their range.
const END: u16 = 100;

pub fn read_answer<E: Refuses>(answer: Result<Option<usize>, E>, position: &mut usize) -> u16
    ensures { (result, position.new) ≡ some_answered 100 position.old (numbered_by E.number answer) }
{
    refusals::some_answer(END, answer, position)
}
