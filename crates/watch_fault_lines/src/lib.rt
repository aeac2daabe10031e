// The lines on what is wrong with a recording or a log, from behind its name: which number stands where.
#![tactic(auto, using(watch_lines::proofs::Texts::right_0), unfolding(watch_lines::specs::Lines::put_texts))]

ghost use Rattle.std.specs.Prelude.{◌≡◌};
ghost use Rattle.watch_text.specs.Text.{written};
ghost use Rattle.watch_lines.specs.Lines.{put_texts};
ghost use Rattle.watch_fault_lines.specs.FaultLines.{place_text, bad_band_line, room_text, too_large_line, refusal_text, refused_line, bad_flag_line, cut_place};

use refusals::Refuses;
use watch_figures::end_byte;
use watch_names::{RefusalNumber, put_name};
use watch_recording::Place;
use watch_text::{Line, put_number, put_text};

// Where it stands, with which each line starts. A hop and a byte, here and of a refusal, and no `Place`: that is where a hop begins, and a line may stand
// before the first, or within one.
pub fn put_place(line: &mut Line, hop: u64, byte: u64)
    ensures { written line.new ≡ put_texts (written line.old) (place_text hop byte) }
{
    put_text(line, b": hop ");
    put_number(line, hop, 0);
    put_text(line, b", byte ");
    put_number(line, byte, 0);
    put_text(line, b": ");
}

// A number of channels that no bank takes.
pub fn put_bad_band(line: &mut Line, n: u16)
    ensures { written line.new ≡ put_texts (written line.old) (bad_band_line n) }
{
    put_place(line, 0, 0);
    put_number(line, u64::from(n), 0);
    put_text(line, b" channels; there can be 1 to 512\n");
}

// A gate for which there is no room.
pub fn put_too_large(line: &mut Line, n: u16, needed: usize, most: usize)
    ensures { written line.new ≡ put_texts (written line.old) (too_large_line n needed most) }
{
    put_place(line, 0, 2);
    put_room(line, n, needed, most);
}

fn put_room(line: &mut Line, n: u16, needed: usize, most: usize)
    ensures { written line.new ≡ put_texts (written line.old) (room_text n needed most) }
{
    put_number(line, u64::from(n), 0);
    put_text(line, b" channels with these lengths need ");
    // No From leads from usize to u64.
    put_number(line, needed as u64, 0);
    put_text(line, b" places in the gate's store; watch has ");
    // No From leads from usize to u64.
    put_number(line, most as u64, 0);
    put_text(line, b". Take fewer or shorter lengths\n");
}

// What a call of the library refused.
pub fn put_refused<E: Refuses>(line: &mut Line, hop: u64, byte: u64, refusal: E)
    ensures { written line.new ≡ put_texts (written line.old) (refused_line hop byte (E.number refusal)) }
{
    put_place(line, hop, byte);
    put_why(line, refusal.to_number());
}

fn put_why(line: &mut Line, no: u16)
    ensures { written line.new ≡ put_texts (written line.old) (refusal_text no) }
{
    put_text(line, b"refused (");
    put_number(line, u64::from(no), 0);
    put_text(line, b"), ");
    put_name(line, &RefusalNumber(no), 0);
    put_text(line, b"\n");
}

// A flag byte with a bit that means nothing.
pub fn put_bad_flag(line: &mut Line, place: Place, flag: u8)
    ensures { written line.new ≡ put_texts (written line.old) (bad_flag_line place flag) }
{
    put_place(line, place.hop, place.byte);
    put_text(line, b"the flag byte is ");
    put_number(line, u64::from(flag), 0);
    put_text(line, b"; only 0 and 1 mean something\n");
}

// Where a recording ends within a hop, `got` bytes into it.
pub fn put_cut_place(line: &mut Line, place: Place, got: usize)
    ensures { written line.new ≡ put_texts (written line.old) (cut_place place got) }
{
    put_place(line, place.hop, end_byte(place.byte, got));
}
