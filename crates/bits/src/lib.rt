// Bits in bytes, in the order of `laws` Bits: marks gathered into a byte, and the low bits of one.
#![tactic(auto)]

ghost use Rattle.std.specs.Prelude.{◌≡◌, ◌+◌, ◌-◌, ◌≤◌, eqb, ltb, length, get_or};
ghost use Rattle.laws.specs.Bits.{number, byte};
ghost use Rattle.laws.specs.Lists.{one};

// Whether a mark is 1, as the digit that is added below.
fn is_one(mark: u8) -> u8
    ensures { result ≡ one (eqb mark 1) }
{
    u8::from(mark == 1)
}

// At most eight marks as a number whose lowest bit is the first of them: from the last one down, each in front of what is gathered so far.
pub fn gathered(marks: &[u8]) -> u8
    requires { length marks.now ≤ 8 }
    ensures { result ≡ number (length marks.now) (λ j. eqb (get_or marks.now j 0) 1) }
{
    let mut b: u8 = 0;
    for &mark in marks.iter().rev() {
        b = b * 2 + is_one(mark);
    }
    b
}

// A byte whose lowest bits are 1, as many as are used.
#[tactic(auto, using(crate::proofs::Operators::low_is))]
pub fn low(used: usize) -> u8
    requires { (1 ≤ used) × (used ≤ 8) }
    ensures { result ≡ byte (λ j. ltb j used) }
{
    255u8 >> (8 - used)
}
