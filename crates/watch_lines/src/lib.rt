// The lines of a report: which figure stands in which column. The figures are parameters, and no struct: each kind of line has others, so a struct
// would be made for one call and taken apart in it. Nor is there one for a column: its width is another number at each call.
#![tactic(auto, using(crate::proofs::Texts::right_0, laws::proofs::Counts::flag), unfolding(crate::specs::Lines::put_texts))]

pub mod explained;

ghost use Rattle.std.specs.Prelude.{◌≡◌, [], ◌∷◌};
ghost use Rattle.laws.specs.Texts.{ascii};
ghost use Rattle.watch_text.specs.Text.{written};
ghost use Rattle.watch_floats.specs.Floats.{db_text};
ghost use Rattle.watch_lines.specs.Lines.{put_texts, more, change_line, row_start, row_levels, row_end, row_line, total_line};
ghost use Rattle.watch_lines.specs.Lines.{channel_floors, worst_column, channel_end, channel_line};

use crate::explained::{put_origins, put_row_origins};
use model::Floors;
use origins::Explanation;
use refusals::Refusal;
use watch_floats::put_db;
use watch_names::{ChangeTo, Events, State, put_name};
use watch_text::{Line, put_number, put_seconds, put_text};
use watch_worst::put_worst;

// A change of a channel, as far as the reference.
pub fn put_change_line(
    line: &mut Line,
    hop: u64,
    k: usize,
    is_alive: bool,
    smoothed: f64,
    f: Floors,
)
    ensures { written line.new ≡ put_texts (written line.old) (change_line hop k is_alive smoothed f) }
{
    put_number(line, hop, 8);
    put_seconds(line, hop, 10);
    // No From leads from usize to u64.
    put_number(line, k as u64, 9);
    put_name(line, &ChangeTo(is_alive), 0);
    put_db(line, smoothed, 11);
    put_db(line, f.effective, 11);
    put_db(line, f.rise, 12);
}

// A channel's row of CSV on a slow hop, as far as the reference.
pub fn put_row_line(
    line: &mut Line,
    hop: u64,
    k: usize,
    db: f64,
    smoothed: f64,
    f: Floors,
    is_alive: bool,
    event: u8,
    x: Explanation,
)
    ensures { written line.new ≡ put_texts (written line.old) (row_line hop k db smoothed f is_alive event x) }
{
    put_row_start(line, hop, k);
    put_row_levels(line, db, smoothed, f);
    put_row_end(line, is_alive, event);
    put_row_origins(line, x);
}

fn put_row_start(line: &mut Line, hop: u64, k: usize)
    ensures { written line.new ≡ put_texts (written line.old) (row_start hop k) }
{
    put_number(line, hop, 0);
    put_text(line, b",");
    put_seconds(line, hop, 0);
    put_text(line, b",");
    // No From leads from usize to u64.
    put_number(line, k as u64, 0);
}

fn put_row_levels(line: &mut Line, db: f64, smoothed: f64, f: Floors)
    ensures { written line.new ≡ put_texts (written line.old) (row_levels db smoothed f) }
{
    put_comma_db(line, db);
    put_comma_db(line, smoothed);
    put_comma_db(line, f.raw);
    put_comma_db(line, f.effective);
    put_comma_db(line, f.rise);
}

fn put_comma_db(line: &mut Line, x: f64)
    ensures { written line.new ≡ put_texts (written line.old) (more (db_text x ∷ [])) }
{
    put_text(line, b",");
    put_db(line, x, 0);
}

fn put_row_end(line: &mut Line, is_alive: bool, event: u8)
    ensures { written line.new ≡ put_texts (written line.old) (row_end is_alive event) }
{
    put_text(line, b",");
    put_number(line, u64::from(is_alive), 0);
    put_text(line, b",");
    put_name(line, &Events(event), 0);
}

// What stands above the channels at the end.
pub fn put_total_line(line: &mut Line, hops: u64)
    ensures { written line.new ≡ put_texts (written line.old) (total_line hops) }
{
    put_text(line, b"\nAfter ");
    put_number(line, hops, 0);
    put_text(line, b" hops, ");
    put_seconds(line, hops, 0);
    put_text(line, b" s, floors in dB:\n\n");
}

// A channel at the end, as far as the reference.
pub fn put_channel_line(
    line: &mut Line,
    k: usize,
    f: Floors,
    worst: Option<Result<Option<f64>, Refusal>>,
    x: Explanation,
    alive_hops: u64,
    rises: u64,
    is_alive: bool,
)
    ensures { written line.new ≡ put_texts (written line.old) (channel_line k f worst x alive_hops rises is_alive) }
{
    put_channel_floors(line, k, f);
    put_worst_column(line, worst);
    put_origins(line, x);
    put_channel_end(line, alive_hops, rises, is_alive);
}

fn put_channel_floors(line: &mut Line, k: usize, f: Floors)
    ensures { written line.new ≡ put_texts (written line.old) (channel_floors k f) }
{
    // No From leads from usize to u64.
    put_number(line, k as u64, 7);
    put_db(line, f.raw, 11);
    put_db(line, f.effective, 11);
    put_db(line, f.rise, 12);
}

// The worst floor of late, where it is kept (document 02, R-6).
fn put_worst_column(line: &mut Line, worst: Option<Result<Option<f64>, Refusal>>)
    ensures { written line.new ≡ put_texts (written line.old) (worst_column worst) }
{
    match worst {
        Some(floor) => put_worst(line, floor, 15),
        None => {}
    }
}

fn put_channel_end(line: &mut Line, alive_hops: u64, rises: u64, is_alive: bool)
    ensures { written line.new ≡ put_texts (written line.old) (channel_end alive_hops rises is_alive) }
{
    put_seconds(line, alive_hops, 10);
    put_number(line, rises, 7);
    put_name(line, &State(is_alive), 0);
}
