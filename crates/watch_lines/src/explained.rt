// Where floors come from, in a line of its own, in a column of the report and in a row of CSV.
#![tactic(auto, using(crate::proofs::Texts::right_0), unfolding(crate::specs::Lines::put_texts))]

ghost use Rattle.std.specs.Prelude.{◌≡◌};
ghost use Rattle.watch_text.specs.Text.{written};
ghost use Rattle.watch_lines.specs.Lines.{put_texts, row_origins, explain_line, origin_columns};

use origins::Explanation;
use watch_floats::put_db;
use watch_names::put_name;
use watch_text::{Line, put_number, put_seconds, put_text};

// Where the floors of a channel come from.
pub fn put_explain_line(line: &mut Line, hop: u64, x: Explanation)
    ensures { written line.new ≡ put_texts (written line.old) (explain_line hop x) }
{
    let effective = x.effective;
    let rise = x.rise;
    put_number(line, hop, 8);
    put_seconds(line, hop, 10);
    put_db(line, origins::effective_db(effective), 11);
    put_name(line, &effective, 16);
    put_db(line, origins::rise_db(rise), 12);
    put_name(line, &rise, 17);
}

// Both origins of a channel at the end.
pub fn put_origins(line: &mut Line, x: Explanation)
    ensures { written line.new ≡ put_texts (written line.old) (origin_columns x) }
{
    let effective = x.effective;
    let rise = x.rise;
    put_name(line, &effective, 16);
    put_name(line, &rise, 17);
}

pub fn put_row_origins(line: &mut Line, x: Explanation)
    ensures { written line.new ≡ put_texts (written line.old) (row_origins x) }
{
    let effective = x.effective;
    let rise = x.rise;
    put_text(line, b",");
    put_name(line, &effective, 0);
    put_text(line, b",");
    put_name(line, &rise, 0);
}
