// A line that is being written.
ghost use Rattle.std.specs.Prelude.{◌≤◌};

// The bytes of the longest line.
pub const MOST: usize = 200;

// What is beyond its end is left out. A buffer of 200 bytes, and no `Display`: there is no heap, and what each line says is proved of its bytes.
#[derive(Clone, Copy)]
pub struct Line {
    pub bytes: [u8; MOST],
    // How many of them are written.
    pub end: usize,
    ghost in_bounds: { end ≤ 200 },
}
