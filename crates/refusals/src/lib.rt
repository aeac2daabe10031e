// The refusals by their trade's words, as document 01's table and document 02 have them, and what C is answered for a refusal, a value or none. Which
// number each refusal has stands in specs/.
#![tactic(auto)]

ghost use Rattle.std.specs.Prelude.{◌≡◌, ℕ};
ghost use Rattle.refusals.specs.Numbers.{number_of, answer, numbered_by};
ghost use Rattle.refusals.specs.Readings.{answered, some_answered};

#[derive(Clone, Copy, Debug, PartialEq, Eq)]
pub enum Refusal {
    Band,
    StoreSize,
    Lengths,
    Level,
    HopSize,
    Garbled,
    Channel,
    Mismatch,
    Unsound,
    Cut,
    Damaged,
    Span,
    Unlike,
    Segments,
    Address,
    Right,
}

impl Refusal {
    // A match and no discriminants, which `as` would have to cast: a line a refusal, as the papers' table has it and `number_of`.
    pub fn number(self) -> u16
        ensures { result ≡ number_of self }
    {
        match self {
            Refusal::Band => 1,
            Refusal::StoreSize => 2,
            Refusal::Lengths => 3,
            Refusal::Level => 4,
            Refusal::HopSize => 5,
            Refusal::Garbled => 6,
            Refusal::Channel => 7,
            Refusal::Mismatch => 8,
            Refusal::Unsound => 9,
            Refusal::Cut => 10,
            Refusal::Damaged => 11,
            Refusal::Span => 12,
            Refusal::Unlike => 13,
            Refusal::Segments => 14,
            Refusal::Address => 15,
            Refusal::Right => 16,
        }
    }
}

// What a call is refused by: a refusal, or a number, which need be no refusal's.
pub trait Refuses: Copy {
    ghost number: { Self → ℕ };

    fn to_number(self) -> u16
        ensures { result ≡ number self };

    // A store has another length than the one for its n.
    fn store_size() -> Self
        ensures { number result ≡ 2 };
}

impl Refuses for Refusal {
    ghost number = { number_of };

    fn to_number(self) -> u16 {
        self.number()
    }

    fn store_size() -> Refusal {
        Refusal::StoreSize
    }
}

impl Refuses for u16 {
    ghost number = { λ n. n };

    fn to_number(self) -> u16 {
        self
    }

    fn store_size() -> u16 {
        2
    }
}

// For C, of a call without a reading: 0, or the number of its refusal.
pub fn answer(done: Result<(), Refusal>) -> u16
    ensures { result ≡ answer done }
{
    match done {
        Ok(()) => 0,
        Err(refusal) => refusal.number(),
    }
}

// Of a reading: the same, and the value is written only where there is one.
pub fn value_answer<T: Copy, E: Refuses>(reading: Result<T, E>, value: &mut T) -> u16
    ensures { (result, value.new) ≡ answered value.old (numbered_by E.number reading) }
{
    match reading {
        Ok(x) => {
            *value = x;
            0
        }
        Err(refusal) => refusal.to_number(),
    }
}

// Of a reading that may be none, which `none` says: nothing is written then either.
pub fn some_answer<T: Copy, E: Refuses>(
    none: u16,
    reading: Result<Option<T>, E>,
    value: &mut T,
) -> u16
    ensures { (result, value.new) ≡ some_answered none value.old (numbered_by E.number reading) }
{
    match reading {
        Ok(Some(x)) => {
            *value = x;
            0
        }
        Ok(None) => none,
        Err(refused) => refused.to_number(),
    }
}
