// Which channels are alive. Marks and states are bytes, 1 where set, as the gate writes its marks: one function reads both. Rises and drops come as
// the two slices that the gate's calls write.
#![tactic(auto)]

ghost use Rattle.std.specs.Prelude.{◌≡◌, length};
ghost use Rattle.laws.specs.Lists.{tab};
ghost use Rattle.watch_states.specs.States.{state_after, states_after, counts_after, change_of, change_at, rises_after, events_after, hop_closed, is_set, noted_of};

// What a hop can make of a channel.
#[derive(Clone, Copy, Debug, PartialEq, Eq)]
pub enum Change {
    Rise,
    Drop,
}

// An idle channel with a rise mark becomes alive; an alive one with a drop mark and no rise mark becomes idle.
pub fn state_after(is_alive: bool, is_rise: bool, is_drop: bool) -> bool
    ensures { result ≡ state_after is_alive is_rise is_drop }
{
    is_rise || is_alive && !is_drop
}

pub fn is_set(marks: &[u8], k: usize) -> bool
    ensures { result ≡ is_set marks.now k }
{
    marks.get(k) == Some(&1)
}

// The states after the marks of a hop.
pub fn step_states(alive: &mut [u8], rise: &[u8], drop: &[u8])
    ensures { alive.new ≡ states_after alive.old rise.now drop.now }
{
    for (k, state) in alive.iter_mut().enumerate() {
        *state = u8::from(state_after(*state == 1, is_set(rise, k), is_set(drop, k)));
    }
}

// What a hop changes of a channel that was alive or not, and will be or not.
fn change_between(is_alive: bool, will_be: bool) -> Option<Change>
    ensures { noted_of result ≡ change_of is_alive will_be }
{
    match (is_alive, will_be) {
        (false, true) => Some(Change::Rise),
        (true, false) => Some(Change::Drop),
        _ => None,
    }
}

// The state of channel k after the marks of a hop.
pub fn next_state(alive: &[u8], rise: &[u8], drop: &[u8], k: usize) -> bool
    ensures { result ≡ state_after (is_set alive.now k) (is_set rise.now k) (is_set drop.now k) }
{
    state_after(is_set(alive, k), is_set(rise, k), is_set(drop, k))
}

// What the marks of a hop change of channel k.
pub fn change_at(alive: &[u8], rise: &[u8], drop: &[u8], k: usize) -> Option<Change>
    ensures { noted_of result ≡ change_at alive.now rise.now drop.now k }
{
    change_between(is_set(alive, k), next_state(alive, rise, drop, k))
}

// A change as it is noted among others, by its bit: a channel can come alive and become idle again before the next slow hop.
fn noted(change: Option<Change>) -> u8
    ensures { result ≡ noted_of change }
{
    match change {
        None => 0,
        Some(Change::Rise) => 1,
        Some(Change::Drop) => 2,
    }
}

// One more where a mark is set: hops alive, or rises.
pub fn count_set(counts: &mut [u64], marks: &[u8])
    ensures { counts.new ≡ counts_after counts.old marks.now }
{
    for (k, count) in counts.iter_mut().enumerate() {
        *count = count.wrapping_add(u64::from(is_set(marks, k)));
    }
}

// One more for each channel that comes alive.
pub fn count_rises(counts: &mut [u64], alive: &[u8], rise: &[u8], drop: &[u8])
    ensures { counts.new ≡ rises_after counts.old alive.now rise.now drop.now }
{
    for (k, count) in counts.iter_mut().enumerate() {
        *count = count.wrapping_add(u64::from(
            change_at(alive, rise, drop, k) == Some(Change::Rise),
        ));
    }
}

// Changes are kept, bit by bit, until the next slow hop. A byte holds the set of them.
pub fn add_events(events: &mut [u8], alive: &[u8], rise: &[u8], drop: &[u8])
    ensures { events.new ≡ events_after events.old alive.now rise.now drop.now }
{
    for (k, event) in events.iter_mut().enumerate() {
        *event |= noted(change_at(alive, rise, drop, k));
    }
}

pub fn clear(events: &mut [u8])
    ensures { events.new ≡ tab (length events.old) (λ _. 0) }
{
    events.fill(0);
}

// The end of a hop. A slow hop has told the events.
pub fn close_hop(
    is_slow: bool,
    alive: &mut [u8],
    alive_hops: &mut [u64],
    events: &mut [u8],
    rise: &[u8],
    drop: &[u8],
)
    ensures { (alive.new, alive_hops.new, events.new) ≡ hop_closed is_slow alive.old alive_hops.old events.old rise.now drop.now }
{
    step_states(alive, rise, drop);
    count_set(alive_hops, alive);
    if is_slow {
        clear(events);
    }
}
