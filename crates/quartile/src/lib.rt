// Document 01, "Ring and quartile": a channel's floors, the lower quartile of its ring by nearest rank. A u16 answered here is a bin or a count, as the
// store has them: no number of a kind and no refusal.
#![tactic(auto)]

ghost use Rattle.std.specs.Prelude.{◌≡◌, ◌+◌, ◌≤◌, ◌<◌, length, get_or};
ghost use Rattle.model.specs.Layout.{bins, ring_len, at_counts, at_filled, channel_len};
ghost use Rattle.model.specs.Ring.{entries, smallest, quartile, raw_floor, usable_floor};
ghost use Rattle.model.specs.Stores.{chan_of};
ghost use Rattle.model.specs.Sound.{Sound};
ghost use Rattle.quartile.specs.Scan.{stretch, entries_below};

use model::layout::{CHANNEL_LEN, COUNTS, FILLED, HIST_MIN_DB, LEAD};

// So many bins are summed at a time. All bins are a whole number of stretches.
const STRETCH: usize = 32;

// A channel's part of the u16 store, that of a sound channel. Of a reference that is a field, unlike one that is a parameter, a proof does not have the
// length that the array's type says, so it is said once more.
#[derive(Clone, Copy)]
struct Channel<'a> {
    part: &'a [u16; CHANNEL_LEN],
    ghost long: { length part.now ≡ channel_len },
    ghost sound: { Sound ring_len bins (chan_of part.now) },
}

// Where the stretch begins in which a rank is reached, and the entries in the bins before it.
#[derive(Clone, Copy)]
struct Reached {
    bin: usize,
    passed: usize,
}

impl Channel<'_> {
    // The entries in the stretch that begins at bin b, by their counts: a loop without a way out, so that it can run several lanes wide.
    // 16 bits hold the sum: all counts come to filled, and that is at most the ring's length.
    fn stretch_sum(&self, b: usize) -> u16
        requires { b + stretch ≤ bins }
        ensures { entries_below b (chan_of self.now.part.now) + result ≡ entries_below (b + stretch) (chan_of self.now.part.now) }
    {
        let first = COUNTS + b;
        let mut sum: u16 = 0;
        let part = self.part;
        for count in &part[first..first + STRETCH] {
            sum += *count;
        }
        sum
    }

    // Whole stretches are passed while the counts so far stay below rank. A `loop` and no `for`, here and below: the rank is reached inside, as is proved, and
    // behind the end of a `for` an answer would have to stand that no call ever gets.
    fn reached_stretch(&self, rank: usize) -> Reached
        requires { (0 < rank) × (rank ≤ (chan_of self.now.part.now).filled) }
        ensures bin_lt_bins { (result.bin < bins) × (result.passed ≡ entries_below result.bin (chan_of self.now.part.now)) }
        ensures passed_lt_rank { (result.passed < rank) × (rank ≤ entries_below (result.bin + stretch) (chan_of self.now.part.now)) }
    {
        let mut passed: usize = 0;
        let mut b: usize = 0;
        loop {
            let with_next = passed + usize::from(self.stretch_sum(b));
            if with_next >= rank {
                return Reached { bin: b, passed };
            }
            passed = with_next;
            b += STRETCH;
        }
    }

    // The bin of the rank-th smallest entry: the first at which the counts so far come to rank. There is one: all counts come to filled.
    fn ranked_bin(&self, rank: usize) -> u16
        requires { (0 < rank) × (rank ≤ get_or self.now.part.now at_filled 0) }
        ensures { result ≡ smallest rank (entries (chan_of self.now.part.now)) }
    {
        let from = self.reached_stretch(rank);
        let mut passed = from.passed;
        let mut b = from.bin;
        loop {
            passed += usize::from(self.part[COUNTS + b]);
            if passed >= rank {
                // No From leads from usize to u16; that the bin fits is proved.
                return b as u16;
            }
            b += 1;
        }
    }

    // Entries of bin 0 are the smallest, so to leave `skip` of them out is to look `skip` ranks further on.
    fn quartile(&self, skip: usize) -> f64
        requires { skip ≤ get_or self.now.part.now at_counts 0 }
        ensures { result ≡ quartile skip (chan_of self.now.part.now) }
    {
        let left = usize::from(self.part[FILLED]) - skip;
        if left == 0 {
            HIST_MIN_DB
        } else {
            ring::bin_centre(self.ranked_bin(skip + (left + 3) / 4))
        }
    }
}

#[tactic(auto, unfolding(model::specs::Ring::raw_floor))]
pub fn raw_floor(chan: &[u16; CHANNEL_LEN]) -> f64
    requires { Sound ring_len bins (chan_of chan.now) }
    ensures { result ≡ raw_floor (chan_of chan.now) }
{
    Channel { part: chan }.quartile(0)
}

// `raw` is the channel's raw floor: with nothing to skip, it is the usable floor too, and no second scan is due.
pub fn usable_floor(chan: &[u16; CHANNEL_LEN], raw: f64) -> f64
    requires sound { Sound ring_len bins (chan_of chan.now) }
    requires raw_value { raw ≡ raw_floor (chan_of chan.now) }
    ensures { result ≡ usable_floor (chan_of chan.now) }
{
    let lead = chan[LEAD];
    if lead == 0 || lead == chan[FILLED] {
        raw
    } else {
        Channel { part: chan }.quartile(usize::from(lead))
    }
}
