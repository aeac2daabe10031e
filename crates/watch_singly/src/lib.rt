// The hops of a recording or a log one after another, by single calls: each read, heard, told and counted. The values and the marks of a hop are
// four slices, as the calls that read and hear it take them: a struct of them would be taken apart at each.
#![tactic(auto)]

use watch_follow::{Marked, follow};
use watch_hear::hear;
use watch_notices::Watched;
use watch_recording::{Hop, MOST, Stop};
use watch_report::explanations::explanation_before;
use watch_report::tail::{Kept, print_tail};
use watch_stores::Stores;

// The bit patterns of a log's hop.
#[derive(Drop)]
struct Patterns<'a> {
    bits: &'a mut [u64],
    powers: &'a mut [u32],
}

// Lends each list at the size of what is watched. Before the first hop of a log all bit patterns are zero.
pub fn watch_each(w: Watched, stores: &mut Stores) {
    // No heap: room for the most channels.
    let mut bits = [0u64; MOST];
    let mut powers = [0u32; MOST];
    let mut db = [0.0f64; MOST];
    let mut power = [0.0f32; MOST];
    let mut rise = [0u8; MOST];
    let mut drop = [0u8; MOST];
    let mut alive = [0u8; MOST];
    let mut events = [0u8; MOST];
    let mut alive_hops = [0u64; MOST];
    let mut rises = [0u64; MOST];
    let k = usize::from(w.n).min(MOST);
    let mut patterns = Patterns {
        bits: &mut bits[..k],
        powers: &mut powers[..k],
    };
    let mut kept = Kept {
        alive: &mut alive[..k],
        alive_hops: &mut alive_hops[..k],
        events: &mut events[..k],
        rises: &mut rises[..k],
    };
    watch_all(
        w,
        stores,
        &mut patterns,
        &mut db[..k],
        &mut power[..k],
        &mut rise[..k],
        &mut drop[..k],
        &mut kept,
    );
}

// The next hop as it was kept, in a log or in a recording.
fn read_kept(w: Watched, p: &mut Patterns, db: &mut [f64], power: &mut [f32]) -> Result<Hop, Stop> {
    if w.s.is_log {
        return watch_log::read_hop(w.source, w.n, p.bits, p.powers, db, power);
    }
    watch_read::read_hop(w.source, w.n, db, power)
}

// The next hop, its dB as read or as worked out from its powers (R-13).
fn read_hop(w: Watched, p: &mut Patterns, db: &mut [f64], power: &mut [f32]) -> Result<Hop, Stop> {
    let step = read_kept(w, p, db, power);
    if w.s.is_linear {
        watch_decibels::work_out(db, power);
    }
    step
}

// The next hop, read and heard.
fn hear_next(
    w: Watched,
    stores: &mut Stores,
    patterns: &mut Patterns,
    db: &mut [f64],
    power: &mut [f32],
    rise: &mut [u8],
    drop: &mut [u8],
) -> Result<usize, Stop> {
    let step = read_hop(w, patterns, db, power);
    hear(
        step,
        w.s.worst.is_some(),
        stores.bank,
        stores.bank_f,
        stores.worst,
        stores.worst_f,
        stores.gate,
        stores.gate_f,
        db,
        power,
        rise,
        drop,
    )
}

// Nothing that is watched has as many hops as there are turns: the range has an end since a loop must have one.
fn watch_all(
    w: Watched,
    stores: &mut Stores,
    patterns: &mut Patterns,
    db: &mut [f64],
    power: &mut [f32],
    rise: &mut [u8],
    drop: &mut [u8],
    kept: &mut Kept,
) {
    let mut place = watch_recording::first_place();
    for _ in 0..u64::MAX {
        let before = explanation_before(w.s, stores.seen());
        let heard = hear_next(w, stores, patterns, db, power, rise, drop);
        let hop = Marked {
            db: &*db,
            rise: &*rise,
            drop: &*drop,
        };
        let next = follow(
            w,
            place,
            heard,
            before,
            stores.seen(),
            hop,
            kept.alive,
            kept.alive_hops,
            kept.events,
            kept.rises,
        );
        match next {
            Some(next) => place = next,
            None => break,
        }
    }
    print_tail(w.s, place.hop, stores.seen(), kept);
}
