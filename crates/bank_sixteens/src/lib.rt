// Whether the channels of a bank's store are sound, many at once: two times eight. It says so of channels that are; of others it says no more than
// that they have to be asked one by one, by `bank_sound`. This is the hot loop of every call, so what is known of a store that was made and fed by
// the calls is used: its rings have as many entries each. That a place, a bin, a number of channels or what an entry counts for is not too high is a
// clause of the functions that hand it down: a type for each such number would be made and taken apart at every turn.
#![tactic(auto)]

ghost use Rattle.std.specs.Prelude.{◌≡◌, true, ℕ, ◌+◌, ◌*◌, ◌≤◌, ◌<◌, eqb, length, get_or};
ghost use Rattle.laws.specs.Lists.{part};
ghost use Rattle.laws.specs.Tests.{all_below};
ghost use Rattle.model.specs.Layout.{bins, ring_len, channel_len};
ghost use Rattle.model.specs.Stores.{chan_of, sound_channel};
ghost use Rattle.bank_sixteens.specs.Rows.{chan_at, chan_in, front_of, behind_of, Filled, EightReady, EightSound, NoneAbove, cell_of, raise, row_counted, Added, Few, Clear, is_borne_out, row_borne_out, row_cleared, ClearedTo};

use bank_sound::{channel_sound, fields_sound};
use model::layout::{
    BINS, BINS_U16, CHANNEL_LEN, COUNTS, FILLED, LEAD, NEXT, RING_LEN, RING_LEN_U16,
};

// The parts of eight channels one after another, as the store has them, and of four.
const EIGHT_LEN: usize = 8 * CHANNEL_LEN;

const FOUR_LEN: usize = 4 * CHANNEL_LEN;

// The tallies of four channels one after another. They are numbers of 32 bits: there are processors that take twice as long to store a byte.
const TALLIES_LEN: usize = 4 * BINS;

// Those of the first four of eight channels, and of the four behind. There is no heap: the one call that needs them has them on its stack, and lends
// them. They are clear between two sixteens and not within one, so the contracts say it and no invariant of the type.
#[derive(Drop)]
struct Tallies {
    front: [u32; TALLIES_LEN],
    behind: [u32; TALLIES_LEN],
}

// Each tally is that of two channels, of the first eight and of the second: an entry of the second counts so much. A ring has 250 entries, so the
// first stay below it.
const SECOND: u32 = 65536;

// The eight channels that begin at a place of the store. Where sixteen are asked, their two eights stand beside one another: the last two may overlap,
// so no one array has both, and a struct of two references would be made at each turn only to be taken apart.
fn eight_at(bank: &[u16], from: usize) -> &[u16; EIGHT_LEN]
    requires { from + 8 * channel_len ≤ length bank.now }
    ensures { result.now ≡ part from (8 * channel_len) bank.now }
{
    bank[from..from + EIGHT_LEN].as_array().unwrap()
}

// The first four of them, and the four behind.
fn front(eight: &[u16; EIGHT_LEN]) -> &[u16; FOUR_LEN]
    ensures { result.now ≡ front_of eight.now }
{
    eight[..FOUR_LEN].as_array().unwrap()
}

fn behind(eight: &[u16; EIGHT_LEN]) -> &[u16; FOUR_LEN]
    ensures { result.now ≡ behind_of eight.now }
{
    eight[FOUR_LEN..EIGHT_LEN].as_array().unwrap()
}

fn channel(eight: &[u16; EIGHT_LEN], k: usize) -> &[u16; CHANNEL_LEN]
    requires { k < 8 }
    ensures { result.now ≡ chan_in eight.now k }
{
    let a = CHANNEL_LEN * k;
    eight[a..a + CHANNEL_LEN].as_array().unwrap()
}

// A ring of one bin, as its first entry's count has it. Nothing is concluded from it but which way is the quicker.
fn seems_of_one_bin(chan: &[u16; CHANNEL_LEN]) -> bool {
    let first = chan[0];
    first < BINS_U16 && chan[COUNTS + usize::from(first)] == RING_LEN_U16
}

// Silence, as each of eight has it: then each is told by the quicker test of a single channel. Where one of them has noise, all are counted at once.
// The three that ask each of the eight have a shape in common and no more: one function that takes the question would have a contract over any
// question, longer than what they say.
fn seems_silent(eight: &[u16; EIGHT_LEN]) -> bool {
    (0..8).all(|k| seems_of_one_bin(channel(eight, k)))
}

// Whether so many places of the ring are filled, and the fields are sound.
fn is_filled(chan: &[u16; CHANNEL_LEN], filled: u16) -> bool
    ensures { result ≡ true → Filled filled chan.now }
{
    chan[FILLED] == filled && fields_sound(chan[NEXT], filled, chan[LEAD], chan[COUNTS])
}

fn all_filled(eight: &[u16; EIGHT_LEN], filled: u16) -> bool
    ensures { result ≡ true → (k : ℕ) → k < 8 → Filled filled (chan_in eight.now k) }
{
    (0..8).all(|k| is_filled(channel(eight, k), filled))
}

// What stands at place i of the k-th channel or of the next: an entry or a count, here and in the two below, no number of a kind or a refusal.
fn higher_of_two(eight: &[u16; EIGHT_LEN], i: usize, k: usize) -> u16
    requires { (i < channel_len) × (k < 7) }
    ensures { (get_or eight.now (channel_len * k + i) 0 ≤ result) × (get_or eight.now (channel_len * (k + 1) + i) 0 ≤ result) }
{
    eight[CHANNEL_LEN * k + i].max(eight[CHANNEL_LEN * (k + 1) + i])
}

fn highest_of_row(eight: &[u16; EIGHT_LEN], i: usize) -> u16
    requires { i < channel_len }
    ensures { (k : ℕ) → k < 8 → get_or eight.now (channel_len * k + i) 0 ≤ result }
{
    let a = higher_of_two(eight, i, 0).max(higher_of_two(eight, i, 2));
    let b = higher_of_two(eight, i, 4).max(higher_of_two(eight, i, 6));
    a.max(b)
}

// Nothing at these places of the eight channels is higher. A turn takes the same place of each of them, so it goes by the place: eight loops over the
// parts would each have to put together what its wide steps leave.
fn highest_between(eight: &[u16; EIGHT_LEN], first: usize, end: usize) -> u16
    requires { (first ≤ end) × (end ≤ channel_len) }
    ensures { (k i : ℕ) → k < 8 → first ≤ i → i < end → get_or eight.now (channel_len * k + i) 0 ≤ result }
{
    let mut highest: u16 = 0;
    for i in first..end {
        highest = highest.max(highest_of_row(eight, i));
    }
    highest
}

// One more entry, the i-th of the k-th of four channels, in the tally of that channel.
fn count_in(t: &mut [u32; TALLIES_LEN], four: &[u16; FOUR_LEN], i: usize, k: usize, one: u32)
    requires i_bound { (i < ring_len) × (k < 4) × (one ≤ 65536) }
    requires few { (get_or four.now (channel_len * k + i) 0 < bins) × (get_or t.old (cell_of four.now i k) 0 ≤ 30000000) }
    ensures { t.new ≡ raise one (cell_of four.now i k) t.old }
{
    t[k * BINS + usize::from(four[CHANNEL_LEN * k + i])] += one;
}

// The i-th entry of each of four channels.
fn count_row(t: &mut [u32; TALLIES_LEN], four: &[u16; FOUR_LEN], i: usize, one: u32)
    requires i_bound { (i < ring_len) × (one ≤ 65536) }
    requires few { ((k : ℕ) → k < 4 → get_or four.now (channel_len * k + i) 0 < bins) × ((k : ℕ) → k < 4 → get_or t.old (cell_of four.now i k) 0 ≤ 30000000) }
    ensures { t.new ≡ row_counted one four.now i t.old }
{
    count_in(t, four, i, 0, one);
    count_in(t, four, i, 1, one);
    count_in(t, four, i, 2, one);
    count_in(t, four, i, 3, one);
}

// The entries of eight channels. A processor that counts an entry of each in turn waits for none of them, however often a ring has the same bin; so
// a turn goes by the place, which is the same in all eight.
fn count_rows(t: &mut Tallies, eight: &[u16; EIGHT_LEN], filled: usize, one: u32)
    requires filled_bound { (filled ≤ ring_len) × (one ≤ 65536) }
    requires by_index { (k i : ℕ) → k < 8 → i < ring_len → get_or eight.now (channel_len * k + i) 0 < bins }
    requires few { Few t.old.front × Few t.old.behind }
    ensures { Added one filled (front_of eight.now) t.old.front t.new.front × Added one filled (behind_of eight.now) t.old.behind t.new.behind }
{
    let four = front(eight);
    let others = behind(eight);
    for i in 0..filled {
        count_row(&mut t.front, four, i, one);
        count_row(&mut t.behind, others, i, one);
    }
}

// Whether a tally is that of two counts.
fn same(first: u16, second: u16, tallied: u32) -> bool
    ensures { result ≡ eqb (first + 65536 * second) tallied }
{
    u32::from(first) + SECOND * u32::from(second) == tallied
}

// Whether the tally of bin b bears out the counts of the k-th of four channels and of the k-th of four others.
fn borne_out(
    first: &[u16; FOUR_LEN],
    second: &[u16; FOUR_LEN],
    t: &[u32; TALLIES_LEN],
    b: usize,
    k: usize,
) -> bool
    requires { (b < bins) × (k < 4) }
    ensures { result ≡ is_borne_out first.now second.now t.now b k }
{
    same(
        first[CHANNEL_LEN * k + (COUNTS + b)],
        second[CHANNEL_LEN * k + (COUNTS + b)],
        t[k * BINS + b],
    )
}

#[tactic(auto, unfolding(laws::specs::Tests::all_below))]
fn row_borne_out(
    first: &[u16; FOUR_LEN],
    second: &[u16; FOUR_LEN],
    t: &[u32; TALLIES_LEN],
    b: usize,
) -> bool
    requires { b < bins }
    ensures { result ≡ row_borne_out first.now second.now t.now b }
{
    borne_out(first, second, t, b, 0)
        & borne_out(first, second, t, b, 1)
        & borne_out(first, second, t, b, 2)
        & borne_out(first, second, t, b, 3)
}

// Sets the tallies of bin b back.
fn clear_row(t: &mut [u32; TALLIES_LEN], b: usize)
    requires { b < bins }
    ensures { t.new ≡ row_cleared b t.old }
{
    t[b] = 0;
    t[BINS + b] = 0;
    t[2 * BINS + b] = 0;
    t[3 * BINS + b] = 0;
}

// Whether the tallies bear out the counts of the first bins. They are set back on the way, for those who come next: a list made anew would be cleared
// whole. A turn asks and sets back the same bin of four tallies, so it goes by the bin.
fn four_borne_out(
    first: &[u16; FOUR_LEN],
    second: &[u16; FOUR_LEN],
    t: &mut [u32; TALLIES_LEN],
    top: usize,
) -> bool
    requires { top ≤ bins }
    ensures { (result ≡ all_below top (row_borne_out first.now second.now t.old)) × ClearedTo top t.old t.new }
{
    let mut all = true;
    for b in 0..top {
        all &= row_borne_out(first, second, t, b);
        clear_row(t, b);
    }
    all
}

fn one_by_one(eight: &[u16; EIGHT_LEN]) -> bool
    ensures { result ≡ true → EightSound eight.now }
{
    (0..8).all(|k| channel_sound(channel(eight, k)))
}

// Whether the counts of two times eight channels are right below `top`, where there is none from there on.
fn tallies_bear_out(
    first: &[u16; EIGHT_LEN],
    second: &[u16; EIGHT_LEN],
    filled: usize,
    top: usize,
    t: &mut Tallies,
) -> bool
    requires filled_bound { (filled ≤ ring_len) × (top ≤ bins) }
    requires first_ready { EightReady filled top first.now × NoneAbove top first.now }
    requires second_ready { EightReady filled top second.now × NoneAbove top second.now }
    requires clear { Clear t.old.front × Clear t.old.behind }
    ensures { result ≡ true → EightSound first.now × EightSound second.now × Clear t.new.front × Clear t.new.behind }
{
    count_rows(t, first, filled, 1);
    count_rows(t, second, filled, SECOND);
    let of_front = four_borne_out(front(first), front(second), &mut t.front, top);
    let of_others = four_borne_out(behind(first), behind(second), &mut t.behind, top);
    of_front & of_others
}

// Whether the counts of two times eight channels are right whose entries are bins below `top`: from there on they are 0, and no tally has to be looked
// at.
fn counts_borne_out(
    first: &[u16; EIGHT_LEN],
    second: &[u16; EIGHT_LEN],
    filled: usize,
    top: usize,
    t: &mut Tallies,
) -> bool
    requires filled_bound { (filled ≤ ring_len) × (top ≤ bins) }
    requires ready { EightReady filled top first.now × EightReady filled top second.now }
    requires clear { Clear t.old.front × Clear t.old.behind }
    ensures { result ≡ true → EightSound first.now × EightSound second.now × Clear t.new.front × Clear t.new.behind }
{
    highest_between(first, COUNTS + top, NEXT) == 0
        && highest_between(second, COUNTS + top, NEXT) == 0
        && tallies_bear_out(first, second, filled, top, t)
}

// The first multiple of 16 above a bin: a loop of so many turns has no rest behind its wide steps.
fn above(bin: u16) -> usize
    requires { bin < bins }
    ensures { (bin < result) × (result ≤ bins) }
{
    (usize::from(bin) / 16 + 1) * 16
}

// Whether the two times eight are counted at once: their rings have as many entries, and not all of them are silent.
fn at_once(first: &[u16; EIGHT_LEN], second: &[u16; EIGHT_LEN], filled: u16) -> bool
    ensures { result ≡ true → ((k : ℕ) → k < 8 → Filled filled (chan_in first.now k)) × ((k : ℕ) → k < 8 → Filled filled (chan_in second.now k)) }
{
    !(seems_silent(first) & seems_silent(second))
        && all_filled(first, filled)
        && all_filled(second, filled)
}

// Whether two times eight channels are sound. The tallies are lent, and clear again behind it.
fn sixteen_sound(first: &[u16; EIGHT_LEN], second: &[u16; EIGHT_LEN], t: &mut Tallies) -> bool
    requires clear { Clear t.old.front × Clear t.old.behind }
    ensures { result ≡ true → EightSound first.now × EightSound second.now × Clear t.new.front × Clear t.new.behind }
{
    let filled = first[FILLED];
    if !at_once(first, second, filled) {
        return one_by_one(first) & one_by_one(second);
    }
    let of_first = highest_between(first, 0, RING_LEN);
    let of_second = highest_between(second, 0, RING_LEN);
    let highest = of_first.max(of_second);
    highest < BINS_U16 && counts_borne_out(first, second, usize::from(filled), above(highest), t)
}

// As many of n channels, from the first on, as are found sound so. The channels that begin at a place of the store are taken by sixteens; what is left
// of them then, where it is eight or more, as its first eight and its last. A turn's index says how many channels came before.
pub fn sound_sixteens(bank: &[u16], from: usize, n: usize) -> usize
    requires { (from ≤ 1000) × (n ≤ 512) × (from + channel_len * n ≤ length bank.now) }
    ensures { (result ≤ n) × ((k : ℕ) → k < result → sound_channel (chan_of (chan_at from bank.now k)) ≡ true) }
{
    let mut t = Tallies {
        front: [0; TALLIES_LEN],
        behind: [0; TALLIES_LEN],
    };
    let sixteens = n / 16;
    for sixteen in 0..sixteens {
        let k = 16 * sixteen;
        let a = from + CHANNEL_LEN * k;
        if !sixteen_sound(eight_at(bank, a), eight_at(bank, a + EIGHT_LEN), &mut t) {
            return k;
        }
    }
    let k = 16 * sixteens;
    if k + 8 > n {
        return k;
    }
    let first = eight_at(bank, from + CHANNEL_LEN * k);
    let second = eight_at(bank, from + CHANNEL_LEN * (n - 8));
    if !sixteen_sound(first, second, &mut t) {
        return k;
    }
    n
}
