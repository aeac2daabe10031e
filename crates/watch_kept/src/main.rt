// Further runs of watch that are kept, one after another: a log, an explanation from standard input, the worst floor of late, linear power alone.
#![tactic(auto)]

fn main(rt: HostRuntime) {
    let input = rt.stdin();
    watch_program::run_words(&rt, input, 1, 3);
    watch_program::run_words(&rt, input, 3, 6);
    watch_program::run_words(&rt, input, 6, 9);
    watch_program::run_words(&rt, input, 9, 11);
}
