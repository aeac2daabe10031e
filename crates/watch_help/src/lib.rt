// What the program says of itself, and of a word that it cannot take.
#![tactic(auto)]

use std::env::Env;
use streams::{STDERR, STDOUT};
use watch_words::Fault;

fn say(text: &[u8]) {
    io::write_all(STDOUT, text);
}

pub fn print_help() {
    print_levels();
    print_options();
    print_recording();
    print_log();
    print_report();
}

fn print_levels() {
    say(
        b"watch [OPTIONS] FILE    which channels of a recording or a log are alive; FILE - is standard input\n\n",
    );
    say(
        b"  --on DB        a channel rises at DB over its rise floor in two windows on end   (9)\n",
    );
    say(
        b"  --off DB       it drops below DB over its effective floor                        (6)\n",
    );
    say(
        b"  --early DB     it also rises at once at DB over its effective floor, or: none    (none)\n",
    );
}

fn print_options() {
    say(
        b"  --lengths LIST up to eight window lengths of 1 to 375 hops, with commas   (15,75,375)\n",
    );
    say(
        b"  --reference    adds the spectral reference, a linear power, of each channel that is alive\n",
    );
    say(
        b"  --explain K    in place of the changes: where the floors of channel K come from, a line whenever a rule takes over\n",
    );
    say(b"                 from another or a floor jumps by 1 dB or more\n");
    say(
        b"  --worst W      keeps the worst floor of late: the highest effective floor of the last W slow hops, 1 to 600 (24 s)\n",
    );
    say(b"  --csv          a line per slow hop (every 15th) and channel, for tools/plot.py\n");
    say(b"  --log          FILE is a hop log\n");
    say(b"  --linear       leaves the dB of FILE aside and works them out from its powers\n");
    say(b"  --help         this text\n\n");
}

fn print_recording() {
    say(
        b"Levels are whole eighths of a dB from -100 to 100, as 8, 6.5 or -1.125. 375 hops are a second.\n\n",
    );
    say(
        b"A recording is: n, the number of channels, 1 to 512, in two bytes; then for each hop a flag byte (1: static\n",
    );
    say(
        b"is heard, so the reference and the gate hold; else 0), n dB values (f64) and n linear powers (f32). The lowest\n",
    );
    say(b"byte of each number is first.\n\n");
}

fn print_log() {
    say(
        b"A log keeps only what changed: n as above; then for each hop a map of a bit for each channel, channel 0 in the lowest\n",
    );
    say(
        b"of the first byte, and for each set bit the dB value and the power. It has no flag for static. examples/c/hoplog.c\n",
    );
    say(b"makes a log of a recording, and a recording of a log.\n\n");
}

fn print_report() {
    say(
        b"It prints the settings, a line for each change of a channel's state, and at the end the floors of each channel and\n",
    );
    say(
        b"how long it was alive. What is wrong with FILE goes to standard error, with the hop and the byte, and\n",
    );
    say(b"what came before is still reported.\n");
}

fn words_of(fault: Fault) -> &'static [u8] {
    match fault {
        Fault::Unknown => b" is no option; watch --help lists them\n",
        Fault::BadLevel => b" is no level: whole eighths of a dB from -100 to 100, as 6.5\n",
        Fault::BadLengths =>
            b" is no list of one to eight lengths of 1 to 375 hops, as 15,75,375\n",
        Fault::BadChannel => b" is no channel: a number from 0 to 511\n",
        Fault::BadSpan => b" is no span: a number of slow hops from 1 to 600\n",
        Fault::NoValue => b" is the last word and needs a value\n",
        Fault::SecondFile => b" is a second file; watch takes one\n",
        Fault::TooLong | Fault::Other(_) => b" is too long\n",
    }
}

// Names word i, its number and what is wrong with it.
pub fn print_fault(env: &impl Env, fault: Fault, i: usize) {
    let mut word = io::buffer();
    let len = env.arg(i, &mut word).unwrap_or(0);
    io::write_all(STDERR, b"watch: word ");
    // No From leads from usize to u64.
    io::print_decimal(STDERR, i as u64);
    io::write_all(STDERR, b", ");
    io::write_all(STDERR, &word[..len]);
    io::write_all(STDERR, b",");
    io::write_all(STDERR, words_of(fault));
}
