// Document 01, "Ring and quartile": the bin of a dB value and the push into a channel's ring. That the channel is sound is a clause here and no type, as
// `quartile` has it for its readers: a push writes the part in two halves, and between them the counts are not those of the ring. That a bin is below
// BINS is a clause too: a type of it would be made in `bin_index` and taken apart in `enter`, where it is stored as a u16 and indexes the counts.
// A u16 answered here is a bin, a place or a count, as the store has them: no number of a kind and no refusal.
#![tactic(auto)]

ghost use Rattle.std.specs.Prelude.{◌≡◌, ◌+◌, ◌-◌, ◌%◌, ◌<◌, ◌≤◌, true, ◌&&◌, ◌==◌, slice_index};
ghost use Rattle.laws.specs.Lists.{one};
ghost use Rattle.model.specs.Layout.{bins, ring_len, at_filled};
ghost use Rattle.model.specs.Ring.{bin_of, centre_of, oldest, push_in, since};
ghost use Rattle.model.specs.Stores.{chan_u, chan_of};
ghost use Rattle.model.specs.Sound.{Sound};
ghost use Rattle.ring.specs.Push.{roomed, entered, Roomy};

use model::layout::{
    BINS_F64, CHANNEL_LEN, COUNTS, FILLED, HIST_DEPTH_DB, HIST_MIN_DB, LAST_BIN, LEAD, NEXT,
    RING_LEN_U16,
};

// The sum is rounded before it is divided: -0.5 and the f64 next below it both fall in the last bin.
// From z on the steps are those of `floor_held` in crate ladder, with another bound: one function for both would be lent the bound as a u16 and as the
// float one past it, with a clause that ties the two, and the ring of the bank would depend on the gate's ladder or on a crate for this alone.
pub fn bin_index(p: f64) -> u16
    ensures { result ≡ bin_of p }
{
    let y = p + HIST_DEPTH_DB;
    let z = y / 0.5;
    if z >= 0.0 {
        if z < BINS_F64 {
            // No From leads from u64 to u16; that the value fits is proved.
            std::num::truncating_f64_to_u64(z) as u16
        } else {
            LAST_BIN
        }
    } else {
        0
    }
}

pub fn bin_centre(b: u16) -> f64
    ensures { result ≡ centre_of b }
{
    HIST_MIN_DB + (f64::from(b) + 0.5) * 0.5
}

fn next_place(next: u16) -> u16
    requires { next < ring_len }
    ensures { result ≡ (next + 1) % ring_len }
{
    (next + 1) % RING_LEN_U16
}

// The lead that is left once `evicted` has gone. Lead may be 0 when an entry of bin 0 leaves:
// one taken later than the block's first seed push never counted as leading.
fn lead_left(lead: u16, evicted: u16) -> u16
    ensures { result ≡ lead - one (0 == evicted) }
{
    lead.saturating_sub(u16::from(evicted == 0))
}

// By how much the lead rises: a bin 0 in a block that has no seed push.
fn lead_rise(bin: u16, quiet: bool) -> u16
    ensures { (result ≡ one (quiet && 0 == bin)) × (result ≤ 1) }
{
    u16::from(quiet && bin == 0)
}

// The bin at the next place: the oldest, once the ring is full.
fn oldest_bin(chan: &[u16; CHANNEL_LEN]) -> u16
    requires { Sound ring_len bins (chan_of chan.now) }
    ensures { (result ≡ oldest (chan_of chan.now)) × (result < bins) }
{
    chan[usize::from(chan[NEXT])]
}

// The oldest of a full ring is counted no more.
fn evict(chan: &mut [u16; CHANNEL_LEN])
    requires sound { Sound ring_len bins (chan_of chan.old) }
    requires at_filled_value { slice_index chan.old at_filled ≡ ring_len }
    ensures { chan.new ≡ chan_u (roomed true (chan_of chan.old)) }
{
    let oldest = oldest_bin(chan);
    let at = COUNTS + usize::from(oldest);
    let count = chan[at];
    let lead = chan[LEAD];
    chan[at] = count - 1;
    chan[LEAD] = lead_left(lead, oldest);
}

fn make_room(chan: &mut [u16; CHANNEL_LEN])
    requires { Sound ring_len bins (chan_of chan.old) }
    ensures { chan.new ≡ chan_u (roomed (slice_index chan.old at_filled == ring_len) (chan_of chan.old)) }
{
    let filled = chan[FILLED];
    if filled == RING_LEN_U16 {
        evict(chan);
    } else {
        chan[FILLED] = filled + 1;
    }
}

// The bin goes to the next place and is counted.
fn enter(chan: &mut [u16; CHANNEL_LEN], bin: u16, rise: u16)
    requires roomy { Roomy chan.old }
    requires bin_lt_bins { (bin < bins) × (rise ≤ 1) }
    ensures { chan.new ≡ chan_u (entered (chan_of chan.old) bin rise) }
{
    let next = chan[NEXT];
    let place = usize::from(next);
    let at = COUNTS + usize::from(bin);
    let count = chan[at];
    let lead = chan[LEAD];
    chan[place] = bin;
    chan[at] = count + 1;
    chan[NEXT] = next_place(next);
    chan[LEAD] = lead + rise;
}

// One entry into a channel's ring, as a slow hop makes it; `quiet` says that the channel's block has no seed push.
pub fn push(chan: &mut [u16; CHANNEL_LEN], bin: u16, quiet: bool)
    requires sound { Sound ring_len bins (chan_of chan.old) }
    requires bin_lt_bins { bin < bins }
    ensures { chan.new ≡ chan_u (push_in ring_len quiet (chan_of chan.old) bin) }
{
    make_room(chan);
    enter(chan, bin, lead_rise(bin, quiet));
}

// Entries taken since the leading silence of the channel's block.
pub fn since(chan: &[u16; CHANNEL_LEN]) -> u16
    requires { Sound ring_len bins (chan_of chan.now) }
    ensures { result ≡ since (chan_of chan.now) }
{
    chan[FILLED] - chan[LEAD]
}
