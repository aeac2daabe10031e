// How far a replay is, and what it has counted.
ghost use Rattle.std.specs.Prelude.{◌≡◌, false, true, ◌+◌, ◌*◌, ◌/◌, ◌%◌, ◌^◌, ◌<◌, ◌≤◌, MatchOption, ⊤};
ghost use Rattle.low_first.specs.LowFirst.{byte_at as byte_of};
ghost use Rattle.replay_data.specs.Records.{after, channels, floats as floats_of, hop as hop_of, has_room};

use low_first::{LowFirst, byte_at};
use model::layout::{BLOCK_CHANNELS, BLOCK_REST, CHANNEL_LEN};
use std::num::{wrapping_add_u64, wrapping_add_usize};

// The largest bank of the list has 33 channels.
pub const MOST: usize = 33;

const MOST_BLOCKS: usize = (MOST + BLOCK_REST) / BLOCK_CHANNELS;

pub const MOST_LEN: usize = 3 + MOST_BLOCKS + CHANNEL_LEN * MOST;

pub const MOST_F_LEN: usize = 4 * MOST + 2 * MOST_BLOCKS;

pub const GATE_LEN: usize = 30;

// The largest gate has 3 channels and the lengths 1, 5 and 375; its store is lent one too long, too.
pub const MOST_GATE_F_LEN: usize = 2314;

// The records start behind the tables.
const RECORDS: usize = 3072;

// A place in the list, which is far shorter than any number that wraps.
pub fn after(at: usize, bytes: usize) -> usize
    ensures { result ≡ after at bytes }
{
    wrapping_add_usize(at, bytes)
}

// The list, where its next record stands and where the hop of the last single bank update; n is the bank's; floats is how long the gate's f64
// store is.
#[derive(Clone, Copy)]
pub struct Replay<'a> {
    pub list: &'a [u8],
    pub at: usize,
    pub hop: usize,
    pub n: usize,
    pub floats: usize,
    pub records: u64,
    pub differences: u64,
    ghost few_channels: { n < 256 },
    ghost few_floats: { floats < 65536 },
}

impl<'a> Replay<'a> {
    // Before the first record.
    pub fn new(list: &'a [u8]) -> Replay<'a>
        ensures places { (result.list ≡ list.entry) × ((result.at ≡ 3072) × (result.hop ≡ 3072)) }
        ensures sizes { (result.n ≡ 0) × (result.floats ≡ 0) }
        ensures counts { (result.records ≡ 0) × (result.differences ≡ 0) }
    {
        Replay {
            list,
            at: RECORDS,
            hop: RECORDS,
            n: 0,
            floats: 0,
            records: 0,
            differences: 0,
        }
    }

    // What the next record says, so many bytes behind its start.
    pub fn byte(self, i: usize) -> u8
        ensures { result ≡ byte_of self.entry.list.now (self.entry.at + i) }
    {
        byte_at(self.list, self.at, i)
    }

    pub fn index(self, i: usize) -> usize
        ensures { (result ≡ byte_of self.entry.list.now (self.entry.at + i)) × (result < 256) }
    {
        usize::from(self.byte(i))
    }

    // A number of as many bytes as its type has.
    pub fn number<T: LowFirst>(self, i: usize) -> T
        ensures { result ≡ T.number_at self.entry.list.now (after self.entry.at i) }
    {
        T::low_first(self.list, after(self.at, i))
    }

    // The replay after a record of so many bytes.
    pub fn passed(mut self, bytes: usize, differences: u64) -> Replay<'a>
        ensures place { (result.list ≡ self.entry.list) × (result.at ≡ after self.entry.at bytes) }
        ensures counts { (result.records ≡ (self.entry.records + 1) % 2 ^ 64) × (result.differences ≡ (self.entry.differences + differences) % 2 ^ 64) }
        ensures kept { (result.hop ≡ self.entry.hop) × ((result.n ≡ self.entry.n) × (result.floats ≡ self.entry.floats)) }
    {
        self.at = after(self.at, bytes);
        self.records = wrapping_add_u64(self.records, 1);
        self.differences = wrapping_add_u64(self.differences, differences);
        self
    }

    // The replay with the hop and the sizes of the next record: the hop of a bank's update stands behind the record's first two bytes. None
    // where a list that asks for more than there is ends. Kinds are the list's numbers: 1 a fresh bank, 2 a bank's update, 6 a fresh gate.
    pub fn sized(mut self) -> Option<Replay<'a>>
        ensures fits { MatchOption result (has_room (channels self.entry.list.now self.entry.at self.entry.n) (floats_of self.entry.list.now self.entry.at self.entry.floats) ≡ false) (λ r. has_room r.n r.floats ≡ true) }
        ensures sizes { MatchOption result ⊤ (λ r. (r.n ≡ channels self.entry.list.now self.entry.at self.entry.n) × (r.floats ≡ floats_of self.entry.list.now self.entry.at self.entry.floats)) }
        ensures hop { MatchOption result ⊤ (λ r. r.hop ≡ hop_of self.entry.list.now self.entry.at self.entry.hop) }
        ensures kept { MatchOption result ⊤ (λ r. (r.list ≡ self.entry.list) × ((r.at ≡ self.entry.at) × ((r.records ≡ self.entry.records) × (r.differences ≡ self.entry.differences)))) }
    {
        let kind = self.byte(0);
        let n = if kind == 1 { self.index(1) } else { self.n };
        let floats = if kind == 6 {
            usize::from(self.number::<u16>(2))
        } else {
            self.floats
        };
        if n > MOST || floats > MOST_GATE_F_LEN {
            return None;
        }
        if kind == 2 {
            self.hop = after(self.at, 2);
        }
        self.n = n;
        self.floats = floats;
        Some(self)
    }

    // How long the stores of its bank are.
    pub fn store_len(self) -> usize
        ensures { (result ≡ 3 + (self.entry.n + 31) / 32 + 573 * self.entry.n) × (self.entry.n ≤ 33 → result ≤ 18914) }
    {
        3 + (self.n + BLOCK_REST) / BLOCK_CHANNELS + CHANNEL_LEN * self.n
    }

    pub fn store_f_len(self) -> usize
        ensures { (result ≡ 4 * self.entry.n + 2 * ((self.entry.n + 31) / 32)) × ((self.entry.n ≤ 33 → result ≤ 136) × (result < 1100)) }
    {
        4 * self.n + 2 * ((self.n + BLOCK_REST) / BLOCK_CHANNELS)
    }
}
