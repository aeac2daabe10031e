// What follows on a hop: it is told and counted, or the watch ends.
#![tactic(auto)]

ghost use Rattle.std.specs.Prelude.{◌≡◌, None};
ghost use Rattle.watch_follow.specs.Followed.{after_hop, followed};

use origins::Explanation;
use refusals::Refuses;
use watch_notices::{Watched, faults};
use watch_recording::{Place, Stop};
use watch_report::lines::{Channels, print_hop};
use watch_stores::Seen;
use watch_words::Settings;

// The dB of a hop and its marks.
#[derive(Clone, Copy)]
pub struct Marked<'a> {
    pub db: &'a [f64],
    pub rise: &'a [u8],
    pub drop: &'a [u8],
}

// What became of a hop: told, and if it was taken counted. Where it was not there is no next place. The four lists come, here and
// where a hop is taken, as slices and not as `watch_report::tail::Kept`: the clause would read kept.new.alive.now, and a call that reads one and writes
// another is not covered behind it.
#[tactic(auto, unfolding(crate::specs::Followed::followed))]
pub fn follow<E: Refuses>(
    w: Watched,
    place: Place,
    heard: Result<usize, Stop<E>>,
    before: Explanation,
    stores: Seen,
    hop: Marked,
    alive: &mut [u8],
    alive_hops: &mut [u64],
    events: &mut [u8],
    rises: &mut [u64],
) -> Option<Place>
    ensures { (result, alive.new, alive_hops.new, events.new, rises.new) ≡ followed heard place alive.old alive_hops.old events.old rises.old hop.entry.rise.now hop.entry.drop.now }
{
    match heard {
        Ok(size) => Some(take_hop(
            w.s, size, place, before, stores, hop, alive, alive_hops, events, rises,
        )),
        Err(stop) => print_stop(w, place, stop),
    }
}

// Why no more hops are taken; so there is no next place.
pub fn print_stop<E: Refuses>(w: Watched, place: Place, stop: Stop<E>) -> Option<Place>
    ensures { result ≡ None }
{
    match stop {
        Stop::End => {}
        Stop::Cut(got) => faults::print_cut(w, place, got),
        Stop::BadFlag(flag) => faults::print_bad_flag(w, place, flag),
        Stop::Refused(refusal) => faults::print_refused(w.name, place, refusal),
    }
    None
}

// What the marks of a hop change, told and then taken over.
pub fn take_hop(
    s: Settings,
    size: usize,
    place: Place,
    before: Explanation,
    stores: Seen,
    hop: Marked,
    alive: &mut [u8],
    alive_hops: &mut [u64],
    events: &mut [u8],
    rises: &mut [u64],
) -> Place
    ensures { (result, alive.new, alive_hops.new, events.new, rises.new) ≡ after_hop place size alive.old alive_hops.old events.old rises.old hop.entry.rise.now hop.entry.drop.now }
{
    let Marked { db, rise, drop } = hop;
    watch_states::count_rises(rises, alive, rise, drop);
    watch_states::add_events(events, alive, rise, drop);
    let channels = Channels {
        db,
        alive: &*alive,
        events: &*events,
        rise,
        drop,
    };
    print_hop(place.hop, s, before, stores, channels);
    watch_states::close_hop(
        watch_recording::is_slow(place.hop),
        alive,
        alive_hops,
        events,
        rise,
        drop,
    );
    watch_recording::next_place(place, size)
}
