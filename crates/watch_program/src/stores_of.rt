// The stores that a recording or a log needs, on the stack, since there is no heap, and their parts.
use crate::hops::watch_hops;
use model::layout::{BLOCK_CHANNELS, BLOCK_REST, CHANNEL_LEN};
use refusals::Refusal;
use streams::Source;
use watch_notices::{Watched, faults, head};
use watch_stores::{Stores, make, make_worst};
use watch_words::Settings;

// A bank of 512 channels.
const MOST: usize = 512;

const MOST_BLOCKS: usize = (MOST + BLOCK_REST) / BLOCK_CHANNELS;

const MOST_BANK: usize = 3 + MOST_BLOCKS + CHANNEL_LEN * MOST;

const MOST_BANK_F: usize = 4 * MOST + 2 * MOST_BLOCKS;

// The worst floor of late over 600 slow hops.
const WORST: usize = 4;

const MOST_WORST_F: usize = 600 * MOST;

const GATE: usize = 30;

// A gate of 512 channels with windows of 15, 75 and 375 hops takes 480,768; all stores together, 7.1 MB, fit a stack of 8 MB.
const MOST_GATE_F: usize = 500000;

pub fn watch_open(source: &Source, name: &[u8], s: Settings) {
    let mut two = [0u8; 2];
    let got = streams::read_full(source, &mut two);
    if got < 2 {
        faults::print_no_header(source, name, got);
        return;
    }
    let n = low_first::two_bytes(&two, 0);
    if !store_sizes::in_band(usize::from(n)) {
        faults::print_bad_band(name, n);
        return;
    }
    watch_channels(Watched { source, name, s, n });
}

fn watch_channels(w: Watched) {
    let gate_f_len = gate_making::gate_f_len(usize::from(w.n), w.s.lengths.given());
    if gate_f_len > MOST_GATE_F {
        faults::print_too_large(w, gate_f_len, MOST_GATE_F);
        return;
    }
    watch_sized(w, gate_f_len);
}

// Lends the parts of the stores that the recording takes.
fn watch_sized(w: Watched, gate_f_len: usize) {
    let n = usize::from(w.n);
    let bank_len = store_sizes::bank_len(n);
    let bank_f_len = store_sizes::bank_f_len(n);
    let worst_f_len = match w.s.worst {
        Some(span) => worst_store::worst_f_len(n, span),
        None => 0,
    };
    if bank_len > MOST_BANK
        || bank_f_len > MOST_BANK_F
        || worst_f_len > MOST_WORST_F
        || gate_f_len > MOST_GATE_F
    {
        return;
    }
    let mut bank = [0u16; MOST_BANK];
    let mut bank_f = [0.0f64; MOST_BANK_F];
    let mut worst = [0u16; WORST];
    let mut worst_f = [0.0f64; MOST_WORST_F];
    let mut gate = [0u16; GATE];
    let mut gate_f = [0.0f64; MOST_GATE_F];
    let mut stores = Stores {
        bank: &mut bank[..bank_len],
        bank_f: &mut bank_f[..bank_f_len],
        worst: &mut worst,
        worst_f: &mut worst_f[..worst_f_len],
        gate: &mut gate,
        gate_f: &mut gate_f[..gate_f_len],
    };
    watch_with(w, &mut stores);
}

fn make_all(w: Watched, stores: &mut Stores) -> Result<(), Refusal> {
    make(
        w.s,
        w.s.lengths.given(),
        w.n,
        stores.bank,
        stores.bank_f,
        stores.gate,
        stores.gate_f,
    )?;
    make_worst(w.s, w.n, stores.worst, stores.worst_f)
}

// Makes the stores, and watches the hops.
fn watch_with(w: Watched, stores: &mut Stores) {
    if let Err(refusal) = make_all(w, stores) {
        faults::print_refusal(w.name, 0, 0, refusal);
        return;
    }
    // A bank of n channels has none to explain beyond.
    if w.s.explained.is_some_and(|k| k >= usize::from(w.n)) {
        faults::print_refusal(w.name, 0, 0, Refusal::Channel);
        return;
    }
    head::print_head(w);
    watch_hops(w, stores);
}
