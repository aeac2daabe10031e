// Whether a channel's part of the bank's store is sound. It is asked of what `bank_sixteens` leaves: silence, fewer than eight channels, rings of
// different fill. Its loops count what is wrong and never leave early: such a loop is compiled to wide steps.
#![tactic(auto)]

ghost use Rattle.std.specs.Prelude.{◌≡◌, Bool, not, ℕ, ◌+◌, ◌≤◌, ◌<◌, length, get_or};
ghost use Rattle.laws.specs.Tests.{all_below};
ghost use Rattle.model.specs.Layout.{bins, ring_len, at_filled, channel_len};
ghost use Rattle.model.specs.Stores.{chan_of, sound_fields, sound_counts, sound_channel};
ghost use Rattle.bank_sound.specs.Fails.{fails, stray_entries, other_entries, of_one_bin, used_bins, is_tallied};
ghost use Rattle.bank_sound.specs.Tallies.{lane_sum, Tallied};

use model::layout::{
    BINS, BINS_U16, CHANNEL_LEN, COUNTS, FILLED, LEAD, NEXT, RING_LEN, RING_LEN_U16,
};

// A channel whose ring holds bins alone, and how many of its places are filled. Of a reference that is a field, unlike one that is a
// parameter, a proof does not have the length that the array's type says, so it is said once more.
#[derive(Clone, Copy)]
struct Ring<'a> {
    chan: &'a [u16; CHANNEL_LEN],
    filled: u16,
    ghost long: { length chan.now ≡ channel_len },
    ghost bins_alone: { stray_entries chan.now ≡ 0 },
    ghost in_ring: { filled ≤ ring_len },
}

// Four tallies one after another, each of which counts every fourth entry of a ring. In a single one an entry of the same bin as
// the one before waits until that one's count is stored: a ring of one bin but for a few took four times as long as noise. A ring has 250
// entries, so bytes will do. There is no heap: the one test that needs them has them on its stack.
const TALLIES_LEN: usize = 4 * BINS;

pub fn fields_sound(next: u16, filled: u16, lead: u16, zeros: u16) -> bool
    ensures { result ≡ sound_fields next filled lead zeros }
{
    next < RING_LEN_U16
        && filled <= RING_LEN_U16
        && (filled == RING_LEN_U16 || next == filled)
        && lead <= zeros
}

// How many numbers of a part of the channel pass a test: a loop without a way out, so that it is compiled to wide steps. The contract names the test that
// they fail, and says it of what a u16 can be. The counts are no numbers of a kind and no refusals.
fn count_of<F: Fn(u16) -> bool>(part: &[u16], passes: F) -> u16
    requires long { length part.now ≤ channel_len }
    requires callable { F.IsAlwaysCallable passes }
    ensures { (p : ℕ → Bool) → ((x : ℕ) (r : Bool) → x < 65536 → F.post passes x r → r ≡ not (p x)) → result ≡ fails (length part.now) (λ i. p (get_or part.now i 0)) }
{
    let mut n: u16 = 0;
    for &x in part {
        n += u16::from(passes(x));
    }
    n
}

// How many entries of the ring are no bins.
fn stray_entries(chan: &[u16; CHANNEL_LEN]) -> u16
    ensures { result ≡ stray_entries chan.now }
{
    count_of(&chan[..RING_LEN], |entry| entry >= BINS_U16)
}

// How many of the filled places hold another bin than the first place.
fn other_entries(chan: &[u16; CHANNEL_LEN], filled: usize) -> u16
    requires { filled ≤ ring_len }
    ensures { result ≡ other_entries filled chan.now }
{
    let first = chan[0];
    count_of(&chan[..filled], |entry| entry != first)
}

// Whether the filled places hold one bin alone, and its stored count says so. The count is asked first: for most rings one look is all.
fn of_one_bin(ring: &Ring<'_>) -> bool
    ensures { result ≡ of_one_bin ring.now.filled ring.now.chan.now }
{
    let chan = ring.chan;
    chan[COUNTS + usize::from(chan[0])] == ring.filled
        && other_entries(chan, usize::from(ring.filled)) == 0
}

// How many bins have a count other than 0.
fn used_bins(chan: &[u16; CHANNEL_LEN]) -> u16
    ensures { result ≡ used_bins chan.now }
{
    count_of(&chan[COUNTS..NEXT], |count| count != 0)
}

// One more entry, in one of the four tallies.
fn count_one(t: &mut [u8; TALLIES_LEN], ring: &Ring<'_>, i: usize, lane: usize)
    requires i_lt_ring_len { (i < ring_len) × (lane < 4) }
    requires tallied { Tallied i ring.now.chan.now t.old }
    ensures { Tallied (i + 1) ring.now.chan.now t.new }
{
    t[lane * BINS + usize::from(ring.chan[i])] += 1;
}

// Four more entries, each in a tally of its own.
fn count_four(t: &mut [u8; TALLIES_LEN], ring: &Ring<'_>, i: usize)
    requires i_bound { i + 4 ≤ ring_len }
    requires tallied { Tallied i ring.now.chan.now t.old }
    ensures { Tallied (i + 4) ring.now.chan.now t.new }
{
    count_one(t, ring, i, 0);
    count_one(t, ring, i + 1, 1);
    count_one(t, ring, i + 2, 2);
    count_one(t, ring, i + 3, 3);
}

// The filled places: by eights, as long as there are eight, and the few that are left. Turns of four are too many for a processor to foresee
// the last one. A turn's index says how many entries are counted, so both loops go by it.
fn count_all(t: &mut [u8; TALLIES_LEN], ring: &Ring<'_>)
    requires tallied { Tallied 0 ring.now.chan.now t.old }
    ensures { Tallied ring.now.filled ring.now.chan.now t.new }
{
    let filled = usize::from(ring.filled);
    let eights = filled / 8;
    for eight in 0..eights {
        count_four(t, ring, 8 * eight);
        count_four(t, ring, 8 * eight + 4);
    }
    for k in 8 * eights..filled {
        count_one(t, ring, k, 0);
    }
}

// The four tallies together. A loop over bytes alone is compiled to the widest steps, and what it yields in an array of its own stays in
// registers until the counts are asked.
fn joined(t: &[u8; TALLIES_LEN]) -> [u8; BINS]
    requires { (b : ℕ) → b < bins → lane_sum t.now b ≤ ring_len }
    ensures { (b : ℕ) → b < bins → get_or result b 0 ≡ lane_sum t.now b }
{
    let mut sums = [0u8; BINS];
    for (b, sum) in sums.iter_mut().enumerate() {
        *sum = t[b] + t[BINS + b] + t[2 * BINS + b] + t[3 * BINS + b];
    }
    sums
}

// Whether the sums bear out every count of the channel.
fn as_tallied(chan: &[u16; CHANNEL_LEN], sums: &[u8; BINS]) -> bool
    ensures { result ≡ all_below bins (is_tallied chan.now sums.now) }
{
    let mut all = true;
    for (count, sum) in chan[COUNTS..NEXT].iter().zip(sums) {
        all &= *count == u16::from(*sum);
    }
    all
}

// A ring of one bin, as silence or a steady tone leaves it, needs no tally: its bin alone has a count.
fn counts_sound(chan: &[u16; CHANNEL_LEN]) -> bool
    requires chan_filled { get_or chan.now at_filled 0 ≤ ring_len }
    requires chan_value { stray_entries chan.now ≡ 0 }
    ensures { result ≡ sound_counts (chan_of chan.now) }
{
    let ring = Ring {
        chan,
        filled: chan[FILLED],
    };
    if of_one_bin(&ring) {
        return used_bins(chan) == u16::from(ring.filled != 0);
    }
    let mut t = [0u8; TALLIES_LEN];
    count_all(&mut t, &ring);
    as_tallied(chan, &joined(&t))
}

pub fn channel_sound(chan: &[u16; CHANNEL_LEN]) -> bool
    ensures { result ≡ sound_channel (chan_of chan.now) }
{
    fields_sound(chan[NEXT], chan[FILLED], chan[LEAD], chan[COUNTS])
        && stray_entries(chan) == 0
        && counts_sound(chan)
}
