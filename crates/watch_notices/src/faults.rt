// What is wrong with a recording or a log, on standard error, with the hop and the byte.
use crate::Watched;
use refusals::Refuses;
use streams::{STDERR, Source};
use watch_fault_lines::{
    put_bad_band, put_bad_flag, put_cut_place, put_place, put_refused, put_too_large,
};
use watch_recording::Place;
use watch_text::Line;

// `watch: NAME`, and the line that was written.
fn cry_of(name: &[u8], line: &Line) {
    io::write_all(STDERR, b"watch: ");
    io::write_all(STDERR, name);
    io::write_all(STDERR, line.text());
}

// The input ended or failed within what was due: one read more tells which.
fn cry_short(source: &Source, what: &[u8]) {
    // On the stack: there is no heap.
    let mut more = [0u8; 1];
    match streams::try_read(source, &mut more) {
        Ok(_) => {
            io::write_all(STDERR, what);
        }
        Err(why) => streams::fail(b"it cannot be read", why),
    }
}

pub fn print_no_header(source: &Source, name: &[u8], got: usize) {
    let mut line = Line::new();
    // No From leads from usize to u64.
    put_place(&mut line, 0, got as u64);
    cry_of(name, &line);
    cry_short(source, b"it is cut: it has no number of channels\n");
}

pub fn print_bad_band(name: &[u8], n: u16) {
    let mut line = Line::new();
    put_bad_band(&mut line, n);
    cry_of(name, &line);
}

pub fn print_too_large(w: Watched, needed: usize, most: usize) {
    let mut line = Line::new();
    put_too_large(&mut line, w.n, needed, most);
    cry_of(w.name, &line);
}

// By the hop and the byte, since before the first hop there is no `Place`.
pub fn print_refusal<E: Refuses>(name: &[u8], hop: u64, byte: u64, refusal: E) {
    let mut line = Line::new();
    put_refused(&mut line, hop, byte, refusal);
    cry_of(name, &line);
}

pub fn print_refused<E: Refuses>(name: &[u8], place: Place, refusal: E) {
    print_refusal(name, place.hop, place.byte, refusal);
}

// It ends within a hop.
pub fn print_cut(w: Watched, place: Place, got: usize) {
    let mut line = Line::new();
    put_cut_place(&mut line, place, got);
    cry_of(w.name, &line);
    cry_short(w.source, b"it is cut within this hop\n");
}

pub fn print_bad_flag(w: Watched, place: Place, flag: u8) {
    let mut line = Line::new();
    put_bad_flag(&mut line, place, flag);
    cry_of(w.name, &line);
}
