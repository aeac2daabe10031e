// Floats as people read them.
#![tactic(auto)]

ghost use Rattle.std.specs.Prelude.{◌≡◌, ◌&&◌};
ghost use Rattle.std.specs.Float.Ieee.{lt};
ghost use Rattle.watch_text.specs.Text.{written, put_all, right};
ghost use Rattle.watch_floats.specs.Floats.{f0, f1, shown_as, far, db_text, scale_of, scaled_text, power_text};
ghost use Rattle.watch_floats.specs.Floats.{sized as floats_sized};

use watch_text::{Line, glyph, put_hundredths, put_right, put_text};

// How a float is shown: in hundredths of its size, or by a word; true: below zero. Three kinds, and no Result of a number: two of them are words. The
// sign stands beside the hundredths, of which there can be up to 2^64: no signed number of 64 bits holds them.
#[derive(Clone, Copy, Debug, PartialEq)]
pub enum Shown {
    NotANumber,
    Number(bool, u64),
    Far(bool),
}

// Hundredths, rounded to the nearest, a half up, where there are fewer than 2^64.
fn sized(is_below: bool, x: f64) -> Shown
    ensures { result ≡ floats_sized is_below x }
{
    let y = x * 100.0 + 0.5;
    if y > -1.0 && y < 18446744073709551616.0 {
        Shown::Number(is_below, std::num::truncating_f64_to_u64(y))
    } else {
        Shown::Far(is_below)
    }
}

pub fn show(x: f64) -> Shown
    ensures { result ≡ shown_as x }
{
    if x.is_nan() {
        Shown::NotANumber
    } else if x < 0.0 {
        sized(true, -x)
    } else {
        sized(false, x)
    }
}

// A level in dB, or a word where it is no number or too far from 0.
#[tactic(auto, unfolding(crate::specs::Floats::db_text))]
pub fn put_db(line: &mut Line, x: f64, width: usize)
    ensures { written line.new ≡ put_all (written line.old) (right width (db_text x)) }
{
    match show(x) {
        Shown::NotANumber => put_right(line, b"nan", width),
        Shown::Number(is_below, h) => put_hundredths(line, is_below, h, width),
        Shown::Far(is_below) => put_far(line, is_below, width),
    }
}

fn put_far(line: &mut Line, is_below: bool, width: usize)
    ensures { written line.new ≡ put_all (written line.old) (right width (far is_below)) }
{
    if is_below {
        put_right(line, b"-inf", width);
    } else {
        put_right(line, b"inf", width);
    }
}

// A power as a number from 1 to 10 and a power of ten.
#[derive(Clone, Copy, Debug, PartialEq)]
pub struct Scaled {
    pub x: f64,
    pub tens: u64,
}

// A power below 1, in tens of tenths: 10^-308 is the least that is no subnormal.
fn scale(x: f64) -> Scaled
    ensures { result ≡ scale_of x }
{
    let mut size = x;
    // Counted, since the count is answered: there are no elements to go over.
    for tens in 0..330 {
        if !(size < 1.0) {
            return Scaled { x: size, tens };
        }
        size *= 10.0;
    }
    Scaled { x: size, tens: 330 }
}

fn is_small(x: f64) -> bool
    ensures { result ≡ (lt f0 x && lt x f1) }
{
    x > 0.0 && x < 1.0
}

// A linear power: as it is from 1 on, else as 4.56e-12.
#[tactic(auto, unfolding(crate::specs::Floats::power_text))]
pub fn put_power(line: &mut Line, x: f64, width: usize)
    ensures { written line.new ≡ put_all (written line.old) (right width (power_text x)) }
{
    if is_small(x) {
        put_scaled(line, scale(x), width);
    } else {
        put_db(line, x, width);
    }
}

// The power of ten has two digits, or three where two do not hold it.
fn put_scaled(line: &mut Line, s: Scaled, width: usize)
    ensures { written line.new ≡ put_all (written line.old) (right width (scaled_text s)) }
{
    let tens = s.tens;
    if tens < 100 {
        put_db(line, s.x, width.saturating_sub(4));
        put_text(line, &[b'e', b'-', glyph(tens / 10), glyph(tens)]);
    } else {
        put_db(line, s.x, width.saturating_sub(5));
        put_text(
            line,
            &[b'e', b'-', glyph(tens / 100), glyph(tens / 10), glyph(tens)],
        );
    }
}
