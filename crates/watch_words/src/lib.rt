// The words of the command line: options with their values, and the name of the recording or log.
#![tactic(auto)]

ghost use Rattle.std.specs.Prelude.{◌≡◌};
ghost use Rattle.laws.specs.Texts.{same_bytes};
ghost use Rattle.watch_words.specs.Words.{named, options, word_of, defaults, default_lengths, faulty as words_faulty, bad};
ghost use Rattle.watch_words.specs.Words.{with_file, any_taken, value_read, value_taken, word_taken, all_taken};

use watch_lengths::{Lengths, lengths_of};
use watch_levels::{Level, above, level_of};
use watch_numbers::{channel_of, span_of};

// What an option's next word gives.
#[derive(Clone, Copy, Debug, PartialEq, Eq)]
pub enum Value {
    On,
    Off,
    Early,
    Lengths,
    Explain,
    Worst,
}

// What a word can be.
#[derive(Clone, Copy, Debug, PartialEq, Eq)]
pub enum Word {
    Help,
    Csv,
    Reference,
    Log,
    Linear,
    Valued(Value),
    Unknown,
    File,
}

// What can be wrong with a word.
#[derive(Clone, Copy, Debug, PartialEq, Eq)]
pub enum Fault {
    Unknown,
    BadLevel,
    BadLengths,
    NoValue,
    SecondFile,
    TooLong,
    BadChannel,
    BadSpan,
    // Another thing, by a number of the caller's; a report has no words of its own for it.
    Other(u8),
}

fn is(word: &[u8], name: &[u8]) -> bool
    ensures { result ≡ same_bytes word.now name.now }
{
    word == name
}

// One test after another: of a `find` in a table of the names with their words the check finds no proof. A match on the bytes splits into a return
// for each byte that may differ.
#[tactic(auto, unfolding(crate::specs::Words::named))]
fn option_of(word: &[u8]) -> Word
    ensures { result ≡ named word.now options }
{
    if is(word, b"--help") {
        return Word::Help;
    }
    if is(word, b"-h") {
        return Word::Help;
    }
    if is(word, b"--csv") {
        return Word::Csv;
    }
    if is(word, b"--reference") {
        return Word::Reference;
    }
    if is(word, b"--log") {
        return Word::Log;
    }
    if is(word, b"--linear") {
        return Word::Linear;
    }
    if is(word, b"--on") {
        return Word::Valued(Value::On);
    }
    if is(word, b"--off") {
        return Word::Valued(Value::Off);
    }
    if is(word, b"--early") {
        return Word::Valued(Value::Early);
    }
    if is(word, b"--lengths") {
        return Word::Valued(Value::Lengths);
    }
    if is(word, b"--explain") {
        return Word::Valued(Value::Explain);
    }
    if is(word, b"--worst") {
        return Word::Valued(Value::Worst);
    }
    Word::Unknown
}

// A word that begins with - is an option, and - alone is standard input.
#[tactic(auto, unfolding(crate::specs::Words::word_of))]
pub fn word_of(word: &[u8]) -> Word
    ensures { result ≡ word_of word.now }
{
    if word.len() < 2 || word[0] != b'-' {
        return Word::File;
    }
    option_of(word)
}

#[derive(Clone, Copy, Debug, PartialEq, Eq)]
pub struct Settings {
    pub on: Level,
    pub off: Level,
    pub early: Option<Level>,
    pub lengths: Lengths,
    pub is_csv: bool,
    pub has_reference: bool,
    pub is_help: bool,
    // What is watched is a hop log.
    pub is_log: bool,
    // The dB are left aside and worked out from the powers (R-13).
    pub is_linear: bool,
    // The number of the word that names the recording.
    pub file: Option<usize>,
    // The channel whose floors are explained.
    pub explained: Option<usize>,
    // Over how many slow hops the worst floor of late goes, where it is kept.
    pub worst: Option<usize>,
    // What the next word must give, if it may not be any, and which word asks for it.
    pub due: Option<(Value, usize)>,
    // What is wrong, and which word. It stands among the settings, and is no Err: help that was asked for before it is still given.
    pub fault: Option<(Fault, usize)>,
}

// 40 ms, 200 ms and 1 s: a dash, a letter, a word.
pub fn default_lengths() -> Lengths
    ensures { result ≡ default_lengths }
{
    Lengths {
        list: [15, 75, 375, 0, 0, 0, 0, 0],
        count: 3,
    }
}

// Levels in eighths of a dB. A keyed channel is down for about half of the time, so over a second its mean is some 3 dB below its
// marks, and the floor, a lower quartile, is some 5 dB below the mean of noise: 9 dB over the floor is 4 dB over the noise's mean,
// which noise does not reach in two windows of 15 hops on end, and 6 dB to stay alive bridges the gaps between words of a weak caller.
pub fn default_settings() -> Settings
    ensures { result ≡ defaults }
{
    Settings {
        on: above(72),
        off: above(48),
        early: None,
        lengths: default_lengths(),
        is_csv: false,
        has_reference: false,
        is_help: false,
        is_log: false,
        is_linear: false,
        file: None,
        explained: None,
        worst: None,
        due: None,
        fault: None,
    }
}

pub fn faulty(s: Settings, fault: Fault, i: usize) -> Settings
    ensures { result ≡ words_faulty s fault i }
{
    Settings {
        fault: Some((fault, i)),
        ..s
    }
}

#[tactic(auto, unfolding(crate::specs::Words::with_file))]
fn with_file(s: Settings, i: usize) -> Settings
    ensures { result ≡ with_file s i }
{
    match s.file {
        Some(_) => faulty(s, Fault::SecondFile, i),
        // Word 0 is the program's own name, and names none.
        None if i == 0 => s,
        None => Settings { file: Some(i), ..s },
    }
}

#[tactic(auto, unfolding(crate::specs::Words::any_taken))]
fn take_any(s: Settings, i: usize, word: &[u8]) -> Settings
    ensures { result ≡ any_taken s i (word_of word.now) }
{
    match word_of(word) {
        Word::Help => Settings { is_help: true, ..s },
        Word::Csv => Settings { is_csv: true, ..s },
        Word::Reference => Settings {
            has_reference: true,
            ..s
        },
        Word::Log => Settings { is_log: true, ..s },
        Word::Linear => Settings {
            is_linear: true,
            ..s
        },
        Word::Valued(value) => Settings {
            due: Some((value, i)),
            ..s
        },
        Word::Unknown => faulty(s, Fault::Unknown, i),
        Word::File => with_file(s, i),
    }
}

// What is wrong with a word that is no such value.
fn bad(value: Value) -> Fault
    ensures { result ≡ bad value }
{
    match value {
        Value::On | Value::Off | Value::Early => Fault::BadLevel,
        Value::Lengths => Fault::BadLengths,
        Value::Explain => Fault::BadChannel,
        Value::Worst => Fault::BadSpan,
    }
}

// The settings with a value, if the word is one. An early level may be none.
#[tactic(auto, unfolding(crate::specs::Words::value_read))]
fn read_value(mut s: Settings, value: Value, word: &[u8]) -> Option<Settings>
    ensures { result ≡ value_read value s word.now }
{
    s.due = None;
    match value {
        Value::On => s.on = level_of(word)?,
        Value::Off => s.off = level_of(word)?,
        Value::Early if is(word, b"none") => s.early = None,
        Value::Early => s.early = Some(level_of(word)?),
        Value::Lengths => s.lengths = lengths_of(word)?,
        Value::Explain => s.explained = Some(channel_of(word)?),
        Value::Worst => s.worst = Some(span_of(word)?),
    }
    Some(s)
}

#[tactic(auto, unfolding(crate::specs::Words::value_taken))]
fn take_value(s: Settings, i: usize, value: Value, word: &[u8]) -> Settings
    ensures { result ≡ value_taken value s i word.now }
{
    match read_value(s, value, word) {
        Some(with_value) => with_value,
        None => faulty(s, bad(value), i),
    }
}

// The settings after word i. After a fault nothing changes any more.
#[tactic(auto, unfolding(crate::specs::Words::word_taken))]
pub fn take_word(s: Settings, i: usize, word: &[u8]) -> Settings
    ensures { result ≡ word_taken s i word.now }
{
    match (s.fault, s.due) {
        (Some(_), _) => s,
        (None, None) => take_any(s, i, word),
        (None, Some((value, _))) => take_value(s, i, value, word),
    }
}

// The settings after the last word: an option may still lack its value.
#[tactic(auto, unfolding(crate::specs::Words::all_taken))]
pub fn taken(s: Settings) -> Settings
    ensures { result ≡ all_taken s }
{
    match (s.fault, s.due) {
        (None, Some((_, asking))) => faulty(s, Fault::NoValue, asking),
        _ => s,
    }
}
