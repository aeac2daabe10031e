// Lines of text, and numbers as people read them. Functions put them, and no `Display` with `write!`: what that writes is promised only where it
// answers Ok, and that it does is never promised, so each line's equation would hold on a condition; and a float's text is not promised at all.
// The line is the first of their parameters, and they are no methods of it: floats, names and columns are put by functions of other crates,
// which cannot add methods, and a line's parts read alike.
#![tactic(auto)]

pub mod buffer;

ghost use Rattle.std.specs.Prelude.{◌≡◌, false, ◌&&◌, ◌++◌, ltb, take};
ghost use Rattle.laws.specs.Lists.{tab};
ghost use Rattle.watch_text.specs.Text.{written, put_byte, put_all, spaces, right, decimal, sign, whole, hundredths, thousandths};
ghost use Rattle.watch_text.specs.Text.{glyph as text_glyph, millis as text_millis};

pub use buffer::Line;
use buffer::MOST;

impl Line {
    pub fn new() -> Line
        ensures { written result ≡ (tab 200 (λ _. 0), 0) }
    {
        Line {
            bytes: [0; MOST],
            end: 0,
        }
    }

    // The line as far as it is written.
    pub fn text(&self) -> &[u8]
        ensures { result.now ≡ take self.now.end self.now.bytes }
    {
        &self.bytes[..self.end]
    }
}

// A byte more, where there is room.
#[tactic(auto, unfolding(crate::specs::Text::put_byte))]
pub fn put(line: &mut Line, b: u8)
    ensures { written line.new ≡ put_byte (written line.old) b }
{
    if line.end < MOST {
        line.bytes[line.end] = b;
        line.end += 1;
    }
}

pub fn put_text(line: &mut Line, text: &[u8])
    ensures { written line.new ≡ put_all (written line.old) text.now }
{
    for b in text {
        put(line, *b);
    }
}

pub fn put_spaces(line: &mut Line, count: usize)
    ensures { written line.new ≡ put_all (written line.old) (spaces count) }
{
    // So many turns, and no index: nothing is read by it.
    for _ in 0..count {
        put(line, b' ');
    }
}

// Text at the right of a column.
#[tactic(auto, using(crate::proofs::Lines::aligned))]
pub fn put_right(line: &mut Line, text: &[u8], width: usize)
    ensures { written line.new ≡ put_all (written line.old) (right width text.now) }
{
    put_spaces(line, width.saturating_sub(text.len()));
    put_text(line, text);
}

// A whole number at the right of a column.
#[tactic(auto, unfolding(crate::specs::Text::whole))]
pub fn put_number(line: &mut Line, x: u64, width: usize)
    ensures { written line.new ≡ put_all (written line.old) (right width (decimal x)) }
{
    put_whole(line, false, x, width);
}

pub fn glyph(digit: u64) -> u8
    ensures { result ≡ text_glyph digit }
{
    // What is cut to fewer bits here fits in them, which is proved.
    b'0' + (digit % 10) as u8
}

#[tactic(auto, unfolding(crate::specs::Text::put_all))]
fn put_sign(line: &mut Line, is_below: bool)
    ensures { written line.new ≡ put_all (written line.old) (sign is_below) }
{
    if is_below {
        put(line, b'-');
    }
}

// A whole number with its sign, at the right of a column. The sign stands beside the number, here and below: hundredths of a float go up to 2^64, and no
// signed number of 64 bits holds those.
fn put_whole(line: &mut Line, is_below: bool, x: u64, width: usize)
    ensures { written line.new ≡ put_all (written line.old) (right width (whole is_below x)) }
{
    // `io::decimal` writes into what it is lent, with no heap.
    let mut digits = [0u8; 20];
    let k = io::decimal(x, &mut digits);
    let room = width
        .saturating_sub(k)
        .saturating_sub(usize::from(is_below));
    put_spaces(line, room);
    put_sign(line, is_below);
    put_text(line, &digits[..k]);
}

// Nothing below zero is written as -0.
fn has_sign(is_below: bool, x: u64) -> bool
    ensures { result ≡ (is_below && ltb 0 x) }
{
    is_below && x > 0
}

// A whole number with its sign and its decimals behind it.
fn put_parts(line: &mut Line, is_below: bool, x: u64, decimals: &[u8], width: usize)
    ensures { written line.new ≡ put_all (written line.old) (right width (whole is_below x ++ decimals.now)) }
{
    put_whole(line, is_below, x, width.saturating_sub(decimals.len()));
    put_text(line, decimals);
}

// Hundredths, with two decimals. These and thousandths are two, over `put_parts`: a const parameter for how many decimals would bring powers of
// ten and a loop over the digits in place of two arrays.
#[tactic(auto, unfolding(crate::specs::Text::hundredths))]
pub fn put_hundredths(line: &mut Line, is_below: bool, x: u64, width: usize)
    ensures { written line.new ≡ put_all (written line.old) (right width (hundredths is_below x)) }
{
    let decimals = [b'.', glyph(x / 10), glyph(x)];
    put_parts(line, has_sign(is_below, x), x / 100, &decimals, width);
}

// Thousandths, with three decimals.
#[tactic(auto, unfolding(crate::specs::Text::thousandths))]
pub fn put_thousandths(line: &mut Line, is_below: bool, x: u64, width: usize)
    ensures { written line.new ≡ put_all (written line.old) (right width (thousandths is_below x)) }
{
    let decimals = [b'.', glyph(x / 100), glyph(x / 10), glyph(x)];
    put_parts(line, has_sign(is_below, x), x / 1000, &decimals, width);
}

// Hops in thousandths of a second, 375 hops to the second, rounded down.
pub fn millis(hop: u64) -> u64
    ensures { result ≡ text_millis hop }
{
    hop % 1152921504606846976 * 8 / 3
}

// Hops as seconds.
pub fn put_seconds(line: &mut Line, hop: u64, width: usize)
    ensures { written line.new ≡ put_all (written line.old) (right width (thousandths false (text_millis hop))) }
{
    put_thousandths(line, false, millis(hop), width);
}
