// The layout in numbers: what a change of the front end moves. specs/Layout.antt says the same to the contracts.
// One number in several types is cast by `as`: a constant's value can't call From, and each fits.

// Where the histogram begins: the floor of a fresh channel, the quartile of no entries, and the least median that seeds.
pub const HIST_DEPTH_DB: f64 = 160.0;

pub const HIST_MIN_DB: f64 = -HIST_DEPTH_DB;

// Half a dB each, and the last ends at 0 dB.
pub const BINS: usize = 320;

pub const BINS_U16: u16 = BINS as u16;

pub const BINS_F64: f64 = BINS as f64;

pub const LAST_BIN: u16 = BINS_U16 - 1;

// The smoothed power of a fresh channel.
pub const FRESH_POWER: f64 = 1e-16;

pub const RING_LEN: usize = 250;

pub const RING_LEN_U16: u16 = RING_LEN as u16;

// A channel's part of the u16 store: ring, counts, next place, filled, lead.
pub const COUNTS: usize = RING_LEN;

pub const NEXT: usize = RING_LEN + BINS;

pub const FILLED: usize = NEXT + 1;

pub const LEAD: usize = NEXT + 2;

pub const CHANNEL_LEN: usize = NEXT + 3;

// The channels of a block; blocks are (n + BLOCK_REST) / BLOCK_CHANNELS.
pub const BLOCK_CHANNELS: usize = 32;

pub const BLOCK_REST: usize = BLOCK_CHANNELS - 1;

// Every so many hops a slow one.
pub const DECIMATION_HOPS: u16 = 15;

// The ladder: a rung for each eighth of a dB, from -260 to 400.
pub const LADDER_DEPTH: usize = 260;

pub const LADDER_TOP: usize = 400;

pub const LADDER_MIN_DB: f64 = -(LADDER_DEPTH as f64);

pub const LADDER_MAX_DB: f64 = LADDER_TOP as f64;

// So many rungs below 0 dB, and so many above.
pub const RUNGS_BELOW: usize = 8 * LADDER_DEPTH;

pub const RUNGS_ABOVE_U16: u16 = 8 * LADDER_TOP as u16;

pub const RUNG_COUNT: usize = 8 * (LADDER_DEPTH + LADDER_TOP) + 1;

pub const PAST_RUNGS_F64: f64 = (8 * LADDER_TOP + 1) as f64;

// The powers of ten that the rungs need.
pub const TENS_LEN: usize = (LADDER_DEPTH + LADDER_TOP) / 10 + 1;
