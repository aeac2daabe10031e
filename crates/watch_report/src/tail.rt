// The channels at the end of a report.
use crate::explanations::explanation_shown;
use crate::out::{floors_shown, put_reference, worst_shown};
use streams::STDOUT;
use watch_lines::{put_channel_line, put_total_line};
use watch_stores::Seen;
use watch_text::{Line, put_text};
use watch_words::Settings;

// What is kept of the channels from hop to hop: which are alive, for how many hops each was, what was noted since the last slow hop, how often
// each came alive.
#[derive(Drop)]
pub struct Kept<'a> {
    pub alive: &'a mut [u8],
    pub alive_hops: &'a mut [u64],
    pub events: &'a mut [u8],
    pub rises: &'a mut [u64],
}

// The channels at the end.
pub fn print_tail(s: Settings, hops: u64, stores: Seen, kept: &Kept) {
    if s.is_csv {
        return;
    }
    print_total(s, hops);
    // Over indices: k is the channel that is printed, and by which its readings are asked for.
    for k in 0..kept.alive.len() {
        print_channel(
            s,
            stores,
            k,
            watch_states::is_set(kept.alive, k),
            kept.alive_hops.get(k).copied().unwrap_or(0),
            kept.rises.get(k).copied().unwrap_or(0),
        );
    }
}

fn print_total(s: Settings, hops: u64) {
    let mut line = Line::new();
    put_total_line(&mut line, hops);
    io::write_all(STDOUT, line.text());
    io::write_all(STDOUT, b"channel        raw  effective  rise floor");
    if s.worst.is_some() {
        io::write_all(STDOUT, b"  worst of late");
    }
    io::write_all(
        STDOUT,
        b"  effective from  rise floor from   alive s  rises  now\n",
    );
}

fn print_channel(s: Settings, stores: Seen, k: usize, is_alive: bool, alive_hops: u64, rises: u64) {
    let mut line = Line::new();
    let f = floors_shown(stores.bank, stores.bank_f, k);
    let w = worst_shown(
        s,
        stores.bank,
        stores.bank_f,
        stores.worst,
        stores.worst_f,
        k,
    );
    let x = explanation_shown(stores.bank, stores.bank_f, k);
    put_channel_line(&mut line, k, f, w, x, alive_hops, rises, is_alive);
    let is_shown = s.has_reference && is_alive;
    put_reference(&mut line, stores.bank, stores.bank_f, k, is_shown);
    put_text(&mut line, b"\n");
    io::write_all(STDOUT, line.text());
}
