// Replays a kept list of calls of a bank and a gate and compares what floor.rs answered to them; tests/compare/README.md says how the list is made.
#![tactic(auto)]

ghost use Rattle.std.specs.Prelude.{◌≡◌, true};
ghost use Rattle.replay_data.specs.Records.{has_room};

use replay_calls::{banks, gates};
use replay_data::state::{GATE_LEN, MOST, MOST_F_LEN, MOST_GATE_F_LEN, MOST_LEN, Replay};
use replay_data::stores::Stores;
use streams::{STDOUT, Source};

// No heap: room for the longest list.
const MOST_BYTES: usize = 600000;

// A record takes two bytes or more, so there are no more turns than bytes; that the loop ends is known by them. A record is replayed on the parts of the
// stores that its bank and its gate take, which are arrays for the largest, since there is no heap. One that takes more ends the list.
fn replay_list(list: &[u8]) -> Replay<'_>
    ensures room { has_room result.n result.floats ≡ true }
{
    let mut bank = [0u16; MOST_LEN];
    let mut bank_f = [0.0f64; MOST_F_LEN];
    let mut gate = [0u16; GATE_LEN];
    let mut gate_f = [0.0f64; MOST_GATE_F_LEN];
    let mut rise = [0u8; MOST];
    let mut drop = [0u8; MOST];
    let mut r = Replay::new(list);
    for _ in 0..list.len() {
        let sized = match r.sized() {
            Some(sized) => sized,
            None => return r,
        };
        let s = Stores {
            bank: &mut bank[..sized.store_len()],
            bank_f: &mut bank_f[..sized.store_f_len()],
            gate: &mut gate,
            gate_f: &mut gate_f[..sized.floats],
            rise: &mut rise[..sized.n],
            drop: &mut drop[..sized.n],
        };
        // Kinds are numbers, here and where a record is read, as they stand in the list: an enum of them would be made of a number only to be matched.
        let next = match sized.byte(0) {
            1 => Some(banks::replay_new(sized, s)),
            2 => Some(banks::replay_update(sized, s)),
            3 => Some(banks::replay_reading(sized, s)),
            4 => Some(banks::replay_stores(sized, s)),
            5 => Some(banks::replay_floors(sized, s)),
            6 => gates::replay_new(sized, s.of_gate()),
            7 => Some(gates::replay_update(sized, s.of_gate())),
            8 => Some(gates::replay_hold(sized, s.of_gate())),
            9 => Some(gates::replay_reading(sized, s.of_gate())),
            10 => Some(gates::replay_stores(sized, s.of_gate())),
            11 => replay_runs::replay_run(sized, s),
            _ => None,
        };
        match next {
            Some(next) => r = next,
            None => return r,
        }
    }
    r
}

fn replay_bytes<'a>(source: &Source, buffer: &'a mut [u8]) -> Replay<'a>
    ensures room { has_room result.n result.floats ≡ true }
{
    let bytes = streams::read_full(source, buffer);
    replay_list(&buffer[..bytes])
}

// On the whole array, whose length needs no proof.
fn replay_input<'a>(source: &Source, buffer: &'a mut [u8; MOST_BYTES]) -> Replay<'a>
    ensures room { has_room result.n result.floats ≡ true }
{
    replay_bytes(source, buffer)
}

fn print_counts(r: Replay) {
    io::write_all(STDOUT, b"replayed ");
    io::print_decimal(STDOUT, r.records);
    io::write_all(STDOUT, b" records, ");
    io::print_decimal(STDOUT, r.differences);
    io::write_all(STDOUT, b" differences\n");
}

fn main(rt: HostRuntime) {
    let mut buffer = [0u8; MOST_BYTES];
    print_counts(replay_input(&Source::Input(rt.stdin()), &mut buffer));
}
