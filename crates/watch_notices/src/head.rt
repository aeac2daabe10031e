// The head of a report: the settings, or the names of the columns.
use crate::Watched;
use streams::STDOUT;
use watch_figures::thousandths;
use watch_levels::Level;
use watch_text::{Line, put_number, put_text, put_thousandths};
use watch_words::Settings;

// Eighths of a dB, as they were given.
fn put_level(line: &mut Line, l: Level) {
    put_thousandths(line, l.is_below, thousandths(l.eighths), 0);
    put_text(line, b" dB");
}

// An early level may be none.
fn put_early(line: &mut Line, early: Option<Level>) {
    match early {
        Some(l) => put_level(line, l),
        None => put_text(line, b"none"),
    }
}

fn put_lengths(line: &mut Line, lengths: &[u16]) {
    for length in lengths {
        put_text(line, b" ");
        put_number(line, u64::from(*length), 0);
    }
}

// Over how many slow hops the worst floor goes, where it is kept.
fn put_span(line: &mut Line, span: Option<usize>) {
    if let Some(span) = span {
        put_text(line, b" Worst floor of the last ");
        // No From leads from usize to u64.
        put_number(line, span as u64, 0);
        put_text(line, b" slow hops.");
    }
}

// Where the dB come from, if not from what is watched (R-13).
fn put_linear(line: &mut Line, is_linear: bool) {
    if is_linear {
        put_text(line, b" The dB are worked out from the powers.");
    }
}

fn print_settings(s: Settings, n: u16) {
    let mut line = Line::new();
    put_number(&mut line, u64::from(n), 0);
    put_text(&mut line, b" channels, 375 hops a second. On ");
    put_level(&mut line, s.on);
    put_text(&mut line, b", off ");
    put_level(&mut line, s.off);
    put_text(&mut line, b", early ");
    put_early(&mut line, s.early);
    put_text(&mut line, b"; windows of");
    put_lengths(&mut line, s.lengths.given());
    put_text(&mut line, b" hops.");
    put_span(&mut line, s.worst);
    put_linear(&mut line, s.is_linear);
    put_text(&mut line, b"\n\n");
    io::write_all(STDOUT, line.text());
}

pub fn print_head(w: Watched) {
    let s = w.s;
    if s.is_csv {
        print_csv_head(s);
        return;
    }
    io::write_all(STDOUT, b"Watching ");
    io::write_all(STDOUT, w.name);
    io::write_all(STDOUT, b": ");
    print_settings(s, w.n);
    if let Some(k) = s.explained {
        print_explain_head(k);
        return;
    }
    io::write_all(
        STDOUT,
        b"     hop   seconds  channel  change   smoothed  effective  rise floor",
    );
    if s.has_reference {
        io::write_all(STDOUT, b"  reference");
    }
    io::write_all(STDOUT, b"\n");
}

fn print_explain_head(k: usize) {
    let mut line = Line::new();
    put_text(&mut line, b"Where the floors of channel ");
    // No From leads from usize to u64.
    put_number(&mut line, k as u64, 0);
    put_text(&mut line, b" come from:\n\n");
    io::write_all(STDOUT, line.text());
    io::write_all(
        STDOUT,
        b"     hop   seconds  effective  effective from  rise floor  rise floor from\n",
    );
}

fn print_csv_head(s: Settings) {
    io::write_all(
        STDOUT,
        b"hop,seconds,channel,db,smoothed_db,raw_floor_db,effective_floor_db,rise_floor_db,alive,event,effective_origin,rise_origin",
    );
    if s.has_reference {
        io::write_all(STDOUT, b",reference");
    }
    if s.worst.is_some() {
        io::write_all(STDOUT, b",worst_floor_db");
    }
    io::write_all(STDOUT, b"\n");
}
