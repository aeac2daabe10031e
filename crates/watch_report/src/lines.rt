// What a hop gives to print: a line for each change or one explanation, or on a slow hop a row for each channel.
ghost use Rattle.std.specs.Prelude.{◌≡◌};
ghost use Rattle.model.specs.Readings.{reference_reading};
ghost use Rattle.watch_text.specs.Text.{written};
ghost use Rattle.watch_lines.specs.Lines.{put_texts, change_line, row_line};
ghost use Rattle.watch_report.specs.Shown.{floors_shown, smoothed_shown, explanation_shown, worst_told, worst_cell, reference_cell};

use crate::explanations::{explanation_shown, print_explanation};
use crate::out::{floors_shown, put_reference, worst_shown};
use origins::Explanation;
use refusals::Refusal;
use streams::{STDERR, STDOUT};
use watch_figures::{ends_minute, float_at, value, whole_seconds};
use watch_floats::put_power;
use watch_lines::{put_change_line, put_row_line};
use watch_states::{Change, change_at, next_state};
use watch_stores::Seen;
use watch_text::{Line, put_number, put_text};
use watch_words::Settings;
use watch_worst::put_worst;

// The channels at a hop: its dB, which of them are alive before it, what was noted of them since the last slow hop, and its marks.
#[derive(Clone, Copy)]
pub struct Channels<'a> {
    pub db: &'a [f64],
    pub alive: &'a [u8],
    pub events: &'a [u8],
    pub rise: &'a [u8],
    pub drop: &'a [u8],
}

// A line on standard error for each minute of a recording.
fn print_progress(hop: u64) {
    if ends_minute(hop) {
        let mut line = Line::new();
        put_text(&mut line, b"watch: ");
        put_number(&mut line, whole_seconds(hop), 0);
        put_text(&mut line, b" s read\n");
        io::write_all(STDERR, line.text());
    }
}

// What a hop gives to print.
pub fn print_hop(hop: u64, s: Settings, before: Explanation, stores: Seen, at: Channels) {
    print_progress(hop);
    if s.is_csv {
        if watch_recording::is_slow(hop) {
            print_rows(hop, s, stores, at);
        }
        return;
    }
    if let Some(k) = s.explained {
        print_explanation(hop, k, before, stores.bank, stores.bank_f);
        return;
    }
    print_changes(hop, s, stores, at);
}

// A change goes on as a bool, whether the channel is alive now: by that its reference is shown, too.
fn print_changes(hop: u64, s: Settings, stores: Seen, at: Channels) {
    // Over indices, here and for rows: k is the channel that is printed, and by which its readings are asked for.
    for k in 0..at.alive.len() {
        match change_at(at.alive, at.rise, at.drop, k) {
            None => {}
            Some(Change::Rise) => print_change(hop, s, stores, k, true),
            Some(Change::Drop) => print_change(hop, s, stores, k, false),
        }
    }
}

// The gate's smoothed dB of a channel. `floors_shown` is no twin of it but in form: each is one call of another store's reading.
fn smoothed_shown(gate: &[u16], gate_f: &[f64], k: usize) -> f64
    ensures { result ≡ smoothed_shown gate.now gate_f.now k }
{
    value(gate_readings::smoothed_db(gate, gate_f, k))
}

// A change with the channel's readings.
fn put_change_of(
    line: &mut Line,
    hop: u64,
    bank: &[u16],
    bank_f: &[f64],
    gate: &[u16],
    gate_f: &[f64],
    k: usize,
    is_alive: bool,
)
    ensures { written line.new ≡ put_texts (written line.old) (change_line hop k is_alive (smoothed_shown gate.now gate_f.now k) (floors_shown bank.now bank_f.now k)) }
{
    let f = floors_shown(bank, bank_f, k);
    let smoothed = smoothed_shown(gate, gate_f, k);
    put_change_line(line, hop, k, is_alive, smoothed, f);
}

fn print_change(hop: u64, s: Settings, stores: Seen, k: usize, is_alive: bool) {
    let mut line = Line::new();
    put_change_of(
        &mut line,
        hop,
        stores.bank,
        stores.bank_f,
        stores.gate,
        stores.gate_f,
        k,
        is_alive,
    );
    let is_shown = s.has_reference && is_alive;
    put_reference(&mut line, stores.bank, stores.bank_f, k, is_shown);
    put_text(&mut line, b"\n");
    io::write_all(STDOUT, line.text());
}

fn print_rows(hop: u64, s: Settings, stores: Seen, at: Channels) {
    for k in 0..at.alive.len() {
        let db = float_at(at.db, k);
        let is_alive = next_state(at.alive, at.rise, at.drop, k);
        let event = at.events.get(k).copied().unwrap_or(0);
        print_row(hop, s, db, stores, k, is_alive, event);
    }
}

// A row with the channel's readings.
fn put_row_of(
    line: &mut Line,
    hop: u64,
    db: f64,
    bank: &[u16],
    bank_f: &[f64],
    gate: &[u16],
    gate_f: &[f64],
    k: usize,
    is_alive: bool,
    event: u8,
)
    ensures { written line.new ≡ put_texts (written line.old) (row_line hop k db (smoothed_shown gate.now gate_f.now k) (floors_shown bank.now bank_f.now k) is_alive event (explanation_shown bank.now bank_f.now k)) }
{
    let f = floors_shown(bank, bank_f, k);
    let smoothed = smoothed_shown(gate, gate_f, k);
    let x = explanation_shown(bank, bank_f, k);
    put_row_line(line, hop, k, db, smoothed, f, is_alive, event, x);
}

fn print_row(hop: u64, s: Settings, db: f64, stores: Seen, k: usize, is_alive: bool, event: u8) {
    let mut line = Line::new();
    let Seen {
        bank,
        bank_f,
        worst,
        worst_f,
        gate,
        gate_f,
    } = stores;
    put_row_of(
        &mut line, hop, db, bank, bank_f, gate, gate_f, k, is_alive, event,
    );
    put_csv_reference(&mut line, s.has_reference, bank, bank_f, k, is_alive);
    let w = worst_shown(s, bank, bank_f, worst, worst_f, k);
    put_csv_worst(&mut line, w);
    put_text(&mut line, b"\n");
    io::write_all(STDOUT, line.text());
}

#[tactic(auto, using(watch_lines::proofs::Texts::right_0), unfolding(watch_lines::specs::Lines::put_texts))]
fn put_csv_reference(
    line: &mut Line,
    is_asked: bool,
    bank: &[u16],
    bank_f: &[f64],
    k: usize,
    is_alive: bool,
)
    ensures { written line.new ≡ put_texts (written line.old) (reference_cell is_asked is_alive (reference_reading bank.now bank_f.now k)) }
{
    if !is_asked {
        return;
    }
    put_text(line, b",");
    if is_alive {
        let x = value(readings::spectral_reference(bank, bank_f, k));
        put_power(line, x, 0);
    }
}

#[tactic(auto, using(watch_lines::proofs::Texts::right_0), unfolding(watch_lines::specs::Lines::put_texts))]
fn put_csv_worst(line: &mut Line, worst: Option<Result<Option<f64>, Refusal>>)
    ensures { written line.new ≡ put_texts (written line.old) (worst_cell (worst_told worst)) }
{
    match worst {
        Some(x) => {
            put_text(line, b",");
            put_worst(line, x, 0);
        }
        None => {}
    }
}
