// What the programs read from and write to: a file or standard input, standard output and standard error.
#![tactic(auto)]

ghost use Rattle.io.specs.Counts.{IsPrefixLen};
ghost use Rattle.std.specs.Io.{ReadsAtMost};

use std::fs::File;
use std::io::{Cursor, Error, Read, Result, Stdin, Write};

// The two descriptors that lines go to, by their numbers.
pub const STDOUT: i32 = 1;

pub const STDERR: i32 = 2;

// Where bytes come from. An enum and no `dyn Read`: a source is lent by `&` to all that name it at once, and a reader would be lent by `&mut`.
#[derive(Drop)]
pub enum Source {
    Input(Stdin),
    Named(File),
}

// One read of what is there: so many bytes at the start of `buf`, none at the end, or the system's error.
pub fn try_read(source: &Source, buf: &mut [u8]) -> Result<usize>
    ensures { ReadsAtMost result buf.new }
{
    match source {
        Source::Input(stdin) => {
            let mut input = *stdin;
            input.read(buf)
        }
        Source::Named(file) => {
            let mut named = file;
            named.read(buf)
        }
    }
}

// The same, and 0 where it failed.
pub fn read(source: &Source, buf: &mut [u8]) -> usize
    ensures { IsPrefixLen result buf.new }
{
    try_read(source, buf).unwrap_or(0)
}

// Reads until `buf` is full, the input ends or a read fails: how many bytes.
pub fn read_full(source: &Source, buf: &mut [u8]) -> usize
    ensures { IsPrefixLen result buf.new }
{
    let mut done = 0;
    // A while, and no for: how many bytes a turn takes only the system knows.
    while done < buf.len() {
        let got = read(source, &mut buf[done..]);
        if got == 0 {
            break;
        }
        done += got;
    }
    done
}

// The system's words for an error, without the number that `std` puts behind them.
fn words_of(text: &str) -> &str {
    match text.split_once(" (os error ") {
        Some((words, _)) => words,
        None => text,
    }
}

// What was written of an error, on standard error.
fn write_words(text: &[u8]) {
    if let Ok(text) = std::str::from_utf8(text) {
        io::write_all(STDERR, words_of(text).as_bytes());
    }
}

// A line on standard error: what failed, and the system's words for why.
pub fn fail(what: &[u8], why: Error) {
    // No heap: room for the longest words that the system has.
    let mut text = Cursor::new([0u8; 128]);
    let _ = write!(text, "{why}");
    // No From leads from u64 to usize.
    let len = text.position() as usize;
    io::write_all(STDERR, what);
    io::write_all(STDERR, b": ");
    if let Some(words) = text.into_inner().get(..len) {
        write_words(words);
    }
    io::write_all(STDERR, b"\n");
}
