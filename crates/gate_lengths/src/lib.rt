// The lengths that a gate is made with: whether making takes them, and how many floats the distinct ones ask. What is asked here of n and of the
// lengths is what making tests first. A type of tested lengths would be made in the midst of its refusals, whose order is given: the test would hand it
// out with its answer, and say in a clause more that it holds the lengths that were asked about. Lengths are told by their places, since what one adds
// depends on those before it.
#![tactic(auto)]

ghost use Rattle.std.specs.Prelude.{◌≡◌, true, [], ◌≤◌, ◌<◌, length, get_or, take};
ghost use Rattle.laws.specs.Tests.{within};
ghost use Rattle.model.specs.Gate.{among, distinct};
ghost use Rattle.model.specs.GateCalls.{good_lengths, floats_for};
ghost use Rattle.gate_lengths.specs.Makes.{floats_more};

fn length_good(m: u16) -> bool
    ensures { result ≡ within 1 375 m }
{
    m >= 1 && m <= 375
}

pub fn lengths_good(lengths: &[u16]) -> bool
    ensures { result ≡ good_lengths lengths.now }
{
    lengths.len() >= 1 && lengths.len() <= 8 && lengths.iter().all(|m| length_good(*m))
}

// Length i stands in the list before.
pub fn seen(lengths: &[u16], i: usize) -> bool
    requires { i < length lengths.now }
    ensures { result ≡ among (get_or lengths.now i 0) (take i lengths.now) }
{
    lengths[..i].contains(&lengths[i])
}

// What length i adds to the floats: nothing if it was seen.
fn floats_more(n: usize, lengths: &[u16], i: usize) -> usize
    requires { (n ≤ 512) × (good_lengths lengths.now ≡ true) × (i < length lengths.now) }
    ensures { (result ≡ floats_more n lengths.now i) × (result ≤ 385024) }
{
    if seen(lengths, i) {
        0
    } else {
        gate_sound::look_size(n, usize::from(lengths[i]))
    }
}

// The floats of a gate of n channels and these lengths.
pub fn floats_for(n: usize, lengths: &[u16]) -> usize
    requires { (n ≤ 512) × (good_lengths lengths.now ≡ true) }
    ensures { result ≡ floats_for n (distinct [] lengths.now) }
{
    let mut floats = n;
    for i in 0..lengths.len() {
        floats += floats_more(n, lengths, i);
    }
    floats + 2 * n
}
