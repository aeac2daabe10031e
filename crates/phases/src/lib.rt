// Document 01, "One hop", the phase of a bank: every so many hops, at phase 0, a slow one. A bank update steps it, and a run of hops looks ahead by it.
#![tactic(auto)]

ghost use Rattle.std.specs.Prelude.{◌≡◌, ◌+◌, ◌%◌, ◌<◌};
ghost use Rattle.model.specs.Layout.{decimation_hops};

use model::layout::DECIMATION_HOPS;

// The phase of the hop after one at this phase: a count of hops, as the store has it, and no kind.
pub fn next_phase(phase: u16) -> u16
    requires { phase < decimation_hops }
    ensures { result ≡ (phase + 1) % decimation_hops }
{
    (phase + 1) % DECIMATION_HOPS
}
