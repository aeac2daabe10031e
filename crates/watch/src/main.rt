// watch: which channels of a recording or a log are alive; in `rt ci` it is run on the recording that comes with it.
#![tactic(auto)]

fn main(rt: HostRuntime) {
    watch_program::run(&rt, rt.stdin());
}
