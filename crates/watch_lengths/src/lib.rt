// Window lengths as a word of the command line. Read byte by byte, and not by `split` and `parse`: that takes a number with a sign, too.
#![tactic(auto)]

ghost use Rattle.std.specs.Prelude.{◌≡◌, take};
ghost use Rattle.watch_lengths.specs.Lengths.{begun as lengths_begun, ended, digit, step, lengths_of};

// As many lengths as a gate takes.
const MOST: usize = 8;

// Window lengths, and how many of the list are given. An array, since there is no heap.
#[derive(Clone, Copy, Debug, PartialEq, Eq)]
pub struct Lengths {
    pub list: [u16; MOST],
    pub count: usize,
}

impl Lengths {
    // Those that are given.
    pub fn given(&self) -> &[u16]
        ensures { result.now ≡ take self.now.count self.now.list }
    {
        &self.list[..self.count.min(MOST)]
    }
}

// A list of lengths so far: those that are whole, and the number that is being read.
#[derive(Clone, Copy, Debug, PartialEq, Eq)]
pub struct Listed {
    pub lengths: Lengths,
    pub number: u16,
}

fn begun() -> Listed
    ensures { result ≡ lengths_begun }
{
    Listed {
        lengths: Lengths {
            list: [0; MOST],
            count: 0,
        },
        number: 0,
    }
}

// A number of the list ends: it is 1 to 375, and one of at most eight.
#[tactic(auto, unfolding(crate::specs::Lengths::ended))]
fn list_end(listed: Option<Listed>) -> Option<Listed>
    ensures { result ≡ ended listed }
{
    let s = listed?;
    let mut lengths = s.lengths;
    let count = lengths.count;
    if s.number < 1 || s.number > 375 || count >= MOST {
        return None;
    }
    lengths.list[count] = s.number;
    lengths.count = count + 1;
    Some(Listed { lengths, number: 0 })
}

#[tactic(auto, unfolding(crate::specs::Lengths::digit))]
fn list_digit(listed: Option<Listed>, b: u8) -> Option<Listed>
    ensures { result ≡ digit listed b }
{
    let s = listed?;
    if b < b'0' || b > b'9' || s.number > 375 {
        return None;
    }
    Some(Listed {
        lengths: s.lengths,
        number: s.number * 10 + u16::from(b - b'0'),
    })
}

#[tactic(auto, unfolding(crate::specs::Lengths::step))]
fn list_step(listed: Option<Listed>, b: u8) -> Option<Listed>
    ensures { result ≡ step listed b }
{
    match b {
        b',' => list_end(listed),
        _ => list_digit(listed, b),
    }
}

// Lengths with commas between them, if the word is such a list.
pub fn lengths_of(word: &[u8]) -> Option<Lengths>
    ensures { result ≡ lengths_of word.now }
{
    let listed = word
        .iter()
        .fold(Some(begun()), |listed, b| list_step(listed, *b));
    Some(list_end(listed)?.lengths)
}
