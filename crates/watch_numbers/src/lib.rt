// Numbers as words of the command line: a channel and a span of slow hops. Read by hand, and not by `parse`, which takes a sign too.
#![tactic(auto)]

ghost use Rattle.std.specs.Prelude.{◌≡◌, Some};
ghost use mathlib.Core.List.{foldl};
ghost use Rattle.watch_numbers.specs.Numbers.{step, from_to, channel_of, span_of};

// As many channels as a bank can have.
const MOST: usize = 512;

// The longest span.
const LONGEST: usize = 600;

// The number after one byte more, if it is one.
#[tactic(auto, unfolding(crate::specs::Numbers::step))]
fn digit_step(number: Option<usize>, b: u8) -> Option<usize>
    ensures { result ≡ step number b }
{
    let v = number?;
    // No number that is asked for is so high, whatever follows.
    if v > LONGEST || b < b'0' || b > b'9' {
        return None;
    }
    Some(10 * v + usize::from(b - b'0'))
}

fn number_within(word: &[u8], low: usize, high: usize) -> Option<usize>
    ensures { result ≡ from_to low high (foldl step (Some 0) word.now) }
{
    let v = word
        .iter()
        .fold(Some(0), |number, b| digit_step(number, *b))?;
    if v < low || v > high {
        return None;
    }
    Some(v)
}

// A channel's number. A word with nothing in it is none.
#[tactic(auto, unfolding(crate::specs::Numbers::channel_of))]
pub fn channel_of(word: &[u8]) -> Option<usize>
    ensures { result ≡ channel_of word.now }
{
    if word.is_empty() {
        return None;
    }
    number_within(word, 0, MOST - 1)
}

// A span, 1 to 600. A word with nothing in it has the number 0, and is none.
#[tactic(auto, unfolding(crate::specs::Numbers::span_of))]
pub fn span_of(word: &[u8]) -> Option<usize>
    ensures { result ≡ span_of word.now }
{
    number_within(word, 1, LONGEST)
}
