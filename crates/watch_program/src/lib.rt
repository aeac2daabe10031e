// The program `watch`: which channels of a recording or a log are alive. `watch --help` says how it is used.
#![tactic(auto)]

mod hops;
mod stores_of;

use std::env::{Env, FillError};
use std::fs::{File, Files};
use std::io::{Error, ErrorKind, Result, Stdin};
use streams::{STDERR, Source};
use watch_words::{Fault, Settings};

// The words of the command line from one on and up to another, one after another.
fn read_words(env: &impl Env, first: usize, end: usize) -> Settings {
    let mut s = watch_words::default_settings();
    // Over indices: the system is asked for a word by its number, and a fault names it by that.
    for i in first..end {
        s = read_word(env, s, i);
    }
    watch_words::taken(s)
}

fn read_word(env: &impl Env, s: Settings, i: usize) -> Settings {
    let mut word = io::buffer();
    match env.arg(i, &mut word) {
        Ok(len) => watch_words::take_word(s, i, &word[..len]),
        Err(_) => watch_words::faulty(s, Fault::TooLong, i),
    }
}

// A name that is no text in UTF-8 can't be opened.
fn open(files: &impl Files<File = File>, name: &[u8]) -> Result<File> {
    match std::str::from_utf8(name) {
        Ok(text) => File::open(files, text),
        Err(_) => Err(Error::from(ErrorKind::InvalidFilename)),
    }
}

fn watch_named(files: &impl Files<File = File>, name: &[u8], s: Settings) {
    match open(files, name) {
        Ok(file) => stores_of::watch_open(&Source::Named(file), name, s),
        Err(why) => {
            io::write_all(STDERR, b"watch: ");
            streams::fail(name, why);
        }
    }
}

// The word of this number names what is watched.
fn watch_file(rt: &(impl Env + Files<File = File>), input: Stdin, file: usize, s: Settings) {
    let mut name = io::buffer();
    let len = rt.arg(file, &mut name).unwrap_or(0);
    if &name[..len] == b"-".as_slice() {
        stores_of::watch_open(&Source::Input(input), b"standard input", s);
        return;
    }
    watch_named(rt, &name[..len], s);
}

// How many words the command line has, the program's own name among them.
fn word_count(env: &impl Env) -> usize {
    // Over indices: the number of the first word that is missing is the answer, and only the system knows it.
    for i in 0..usize::MAX {
        if let Err(FillError::NotPresent) = env.arg(i, &mut []) {
            return i;
        }
    }
    usize::MAX
}

pub fn run(rt: &(impl Env + Files<File = File>), input: Stdin) {
    run_words(rt, input, 1, word_count(rt));
}

// As if these words were all of the command line. The kept runs stand one after another on one.
pub fn run_words(rt: &(impl Env + Files<File = File>), input: Stdin, first: usize, end: usize) {
    let s = read_words(rt, first, end);
    if s.is_help {
        watch_help::print_help();
        return;
    }
    if let Some((fault, i)) = s.fault {
        watch_help::print_fault(rt, fault, i);
        return;
    }
    match s.file {
        Some(file) => watch_file(rt, input, file, s),
        None => {
            io::write_all(
                STDERR,
                b"watch: no recording or log is named; watch --help says how\n",
            );
        }
    }
}
