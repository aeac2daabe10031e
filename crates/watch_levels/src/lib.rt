// Levels as words of the command line, and as the gate takes them.
#![tactic(auto)]

ghost use Rattle.std.specs.Prelude.{◌≡◌, ◌≤◌, ◌<◌, false};
ghost use Rattle.watch_levels.specs.Levels.{nothing as levels_nothing, pointed, part_digit};
ghost use Rattle.watch_levels.specs.Levels.{digit as levels_digit, step, decimal_of, level, whole_eighths, level_of, signed_of, early_of};

// An absent early level, as the gate takes it: that call is C's too, so it has a number for none.
pub const ABSENT: i32 = 65535;

// What a word has said so far, read as a number in thousandths.
#[derive(Clone, Copy, Debug, PartialEq, Eq)]
pub struct Decimal {
    // What the next digit is worth: 1,000 before the point, then 100, 10, 1 and nothing.
    pub unit: u16,
    pub thousandths: u64,
    // Whether a digit was read. No Option of the number: digits are added to what is there, and that is 0 at first.
    pub has_digit: bool,
}

fn nothing() -> Decimal
    ensures { result ≡ levels_nothing }
{
    Decimal {
        unit: 1000,
        thousandths: 0,
        has_digit: false,
    }
}

#[tactic(auto, unfolding(crate::specs::Levels::pointed))]
fn point(d: Decimal) -> Option<Decimal>
    ensures { result ≡ pointed d }
{
    if d.unit != 1000 {
        return None;
    }
    Some(Decimal {
        unit: 100,
        thousandths: d.thousandths,
        has_digit: d.has_digit,
    })
}

// A digit behind the point: below a thousandth only a 0 can stand.
#[tactic(auto, unfolding(crate::specs::Levels::part_digit))]
fn part_digit(unit: u16, thousandths: u64, digit: u64) -> Option<Decimal>
    requires thousandths_bound { thousandths ≤ 100000 }
    requires digit_bound { digit < 256 }
    ensures { result ≡ part_digit unit thousandths digit }
{
    if unit == 0 && digit > 0 {
        return None;
    }
    Some(Decimal {
        unit: unit / 10,
        thousandths: thousandths + u64::from(unit) * digit,
        has_digit: true,
    })
}

#[tactic(auto, unfolding(crate::specs::Levels::digit))]
fn digit(d: Decimal, digit: u64) -> Option<Decimal>
    requires thousandths_bound { d.thousandths ≤ 100000 }
    requires digit_bound { digit < 256 }
    ensures { result ≡ levels_digit d digit }
{
    if d.unit != 1000 {
        return part_digit(d.unit, d.thousandths, digit);
    }
    Some(Decimal {
        unit: 1000,
        thousandths: 10 * d.thousandths + 1000 * digit,
        has_digit: true,
    })
}

#[tactic(auto, unfolding(crate::specs::Levels::step))]
fn decimal_step(decimal: Option<Decimal>, b: u8) -> Option<Decimal>
    ensures { result ≡ step decimal b }
{
    let d = decimal?;
    // No level is so high, whatever follows.
    if d.thousandths > 100000 {
        return None;
    }
    match b {
        b'.' => point(d),
        b'0'..=b'9' => digit(d, u64::from(b - b'0')),
        _ => None,
    }
}

// A level of so many eighths of a dB, 800 at most. The sign stands beside them: -0 is a word for a level, too, and keeps its sign, and a level is printed as a
// sign and a size. Only the gate takes one number of both.
#[derive(Clone, Copy, Debug, PartialEq, Eq)]
pub struct Level {
    pub is_below: bool,
    pub eighths: u16,
}

fn decimal_of(word: &[u8]) -> Option<Decimal>
    ensures { result ≡ decimal_of word.now }
{
    word.iter()
        .fold(Some(nothing()), |decimal, b| decimal_step(decimal, *b))
}

// Whole eighths are 125 thousandths each; a level has at most 800 of them.
#[tactic(auto, unfolding(crate::specs::Levels::whole_eighths))]
fn whole_eighths(decimal: Option<Decimal>, is_below: bool) -> Option<Level>
    ensures { result ≡ whole_eighths decimal is_below }
{
    let d = decimal?;
    if !d.has_digit || d.thousandths > 100000 || d.thousandths % 125 != 0 {
        return None;
    }
    Some(Level {
        is_below,
        // What is cut to fewer bits here fits in them, which is proved.
        eighths: (d.thousandths / 125) as u16,
    })
}

// A level in dB: 8, 6.5, -1.125. Read by hand: std's numbers with a point are floats, and take words that are no level.
#[tactic(auto, using(crate::proofs::Levels::all_but_first), unfolding(crate::specs::Levels::level_of))]
pub fn level_of(word: &[u8]) -> Option<Level>
    ensures { result ≡ level_of word.now }
{
    if word.is_empty() {
        return None;
    }
    if word[0] == b'-' {
        return whole_eighths(decimal_of(&word[1..]), true);
    }
    whole_eighths(decimal_of(word), false)
}

// A level as the gate takes it.
pub fn signed(l: Level) -> i32
    ensures { result ≡ signed_of l }
{
    let e = i32::from(l.eighths);
    if l.is_below { -e } else { e }
}

// The same of an early level, which may be none.
pub fn early_signed(early: Option<Level>) -> i32
    ensures { result ≡ early_of early }
{
    match early {
        Some(l) => signed(l),
        None => ABSENT,
    }
}

pub fn above(eighths: u16) -> Level
    ensures { result ≡ level false eighths }
{
    Level {
        is_below: false,
        eighths,
    }
}
