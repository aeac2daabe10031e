// The hops of a recording a batch at a time: read, received as a run, and then told and counted one by one. No store of the worst floor of late
// (R-6) is kept beside runs.
#![tactic(auto)]

ghost use Rattle.std.specs.Prelude.{◌≡◌, ◌*◌, ◌<◌, ◌≤◌, length};
ghost use Rattle.watch_recording.specs.Recording.{hop_bytes};

use origins::Explanation;
use watch_batch::{
    MOST_BYTES, MOST_HOPS, MOST_VALUES, keep_db, put_db, smooth_hop, started_after, started_of,
};
use watch_follow::{Marked, print_stop, take_hop};
use watch_hear::hear;
use watch_notices::Watched;
use watch_recording::{Hop, MOST, Place, Stop, hop_bytes};
use watch_report::explanations::explanation_before;
use watch_report::tail::{Kept, print_tail};
use watch_stores::Stores;

// What was read and heard of a batch: of each hop its flag, and k values and marks. Where it is written it goes as arrays one by one: no two arrays that a
// struct owns can be lent at once from behind a `&mut`, and of a struct of `&mut` a call that reads one and writes another is not covered.
#[derive(Clone, Copy)]
struct Batch<'a> {
    hold: &'a [u8; MOST_HOPS],
    db: &'a [f64; MOST_VALUES],
    rise: &'a [u8; MOST_VALUES],
    drop: &'a [u8; MOST_VALUES],
}

// How many channels are watched: no more than there is room for.
fn channels(n: u16) -> usize
    ensures { result ≤ 512 }
{
    usize::from(n).min(MOST)
}

// How many values so many hops of k channels have. That there are 15 hops at most is asked here and below, and no type says it: it would be made of what
// `batch_hops` answers, and be a number again in each body.
fn values_of(k: usize, hops: usize) -> usize
    requires { (k ≤ 512) × (hops ≤ 15) }
    ensures { (result ≡ k * hops) × (result ≤ 7680) }
{
    k * hops
}

// Lends what is kept of the channels at the size of what is watched.
pub fn watch_runs(w: Watched, stores: &mut Stores) {
    // No heap, here and below: room for the most hops of a batch, of the most channels.
    let mut bytes = [0u8; MOST_BYTES];
    let mut hold = [0u8; MOST_HOPS];
    let mut db = [0.0f64; MOST_VALUES];
    let mut power = [0.0f32; MOST_VALUES];
    let mut rise = [0u8; MOST_VALUES];
    let mut drop = [0u8; MOST_VALUES];
    let mut alive = [0u8; MOST];
    let mut events = [0u8; MOST];
    let mut alive_hops = [0u64; MOST];
    let mut rises = [0u64; MOST];
    let k = channels(w.n);
    let size = (MOST_HOPS * hop_bytes(w.n)).min(MOST_BYTES);
    let mut kept = Kept {
        alive: &mut alive[..k],
        alive_hops: &mut alive_hops[..k],
        events: &mut events[..k],
        rises: &mut rises[..k],
    };
    watch_all(
        w,
        stores,
        &mut bytes[..size],
        &mut hold,
        &mut db,
        &mut power,
        &mut rise,
        &mut drop,
        &mut kept,
    );
}

// Nothing that is watched has as many batches as there are turns: the range has an end since a loop must have one.
fn watch_all(
    w: Watched,
    stores: &mut Stores,
    bytes: &mut [u8],
    hold: &mut [u8; MOST_HOPS],
    db: &mut [f64; MOST_VALUES],
    power: &mut [f32; MOST_VALUES],
    rise: &mut [u8; MOST_VALUES],
    drop: &mut [u8; MOST_VALUES],
    kept: &mut Kept,
) {
    let mut place = watch_recording::first_place();
    let mut have: usize = 0;
    for _ in 0..u64::MAX {
        have = watch_batch::read_on(w.source, place.hop, w.n, bytes, have);
        let at = watch_batch::start_of(place.hop, w.n).min(have);
        let there = &bytes[at..have];
        match watch_next(w, place, stores, there, hold, db, power, rise, drop, kept) {
            Some(next) => place = next,
            None => break,
        }
    }
    print_tail(w.s, place.hop, stores.seen(), kept);
}

// What has come from where a hop is due: the whole hops in front are a batch. Where there is none the watch ends.
fn watch_next(
    w: Watched,
    place: Place,
    stores: &mut Stores,
    bytes: &[u8],
    hold: &mut [u8; MOST_HOPS],
    db: &mut [f64; MOST_VALUES],
    power: &mut [f32; MOST_VALUES],
    rise: &mut [u8; MOST_VALUES],
    drop: &mut [u8; MOST_VALUES],
    kept: &mut Kept,
) -> Option<Place> {
    match watch_batch::batch_hops(bytes, hop_bytes(w.n)) {
        Ok(hops) => take_batch(
            w, place, hops, stores, bytes, hold, db, power, rise, drop, kept,
        ),
        Err(stop) => print_stop(w, place, stop),
    }
}

// A batch is told as it was heard; where none of its hops was taken the watch ends, and says why. The smoothed dB from before it are kept, to follow
// them hop by hop.
fn take_batch(
    w: Watched,
    place: Place,
    hops: usize,
    stores: &mut Stores,
    bytes: &[u8],
    hold: &mut [u8; MOST_HOPS],
    db: &mut [f64; MOST_VALUES],
    power: &mut [f32; MOST_VALUES],
    rise: &mut [u8; MOST_VALUES],
    drop: &mut [u8; MOST_VALUES],
    kept: &mut Kept,
) -> Option<Place>
    requires { (hops ≤ 15) × (hop_bytes w.n * hops ≤ length bytes.now) }
{
    let before = explanation_before(w.s, stores.seen());
    let started = started_of(stores.gate);
    let mut smooth = [0.0f64; MOST];
    let smooth = &mut smooth[..channels(w.n)];
    keep_db(stores.gate_f, smooth);
    take_values(w, hops, bytes, hold, db, power);
    match hear_batch(w.n, hops, stores, hold, db, power, rise, drop) {
        Ok(taken) => {
            let batch = Batch {
                hold: &*hold,
                db: &*db,
                rise: &*rise,
                drop: &*drop,
            };
            Some(tell_hops(
                w, taken, place, before, started, stores, batch, smooth, kept,
            ))
        }
        Err(stop) => print_stop(w, place, stop),
    }
}

// The values of each hop, its dB as read or as worked out from its powers (R-13).
fn take_values(
    w: Watched,
    hops: usize,
    bytes: &[u8],
    hold: &mut [u8; MOST_HOPS],
    db: &mut [f64; MOST_VALUES],
    power: &mut [f32; MOST_VALUES],
)
    requires { (hops ≤ 15) × (hop_bytes w.n * hops ≤ length bytes.now) }
{
    let k = channels(w.n);
    let long = values_of(k, hops);
    let db = &mut db[..long];
    let power = &mut power[..long];
    watch_batch::take_values(bytes, w.n, k, &mut hold[..hops], db, power);
    if w.s.is_linear {
        watch_decibels::work_out_hops(k, db, power);
    }
}

// A batch is received as one run: how many of its hops were taken. One that is refused did nothing: then its first hop is heard alone, by single
// calls, which says where the refusal stands.
fn hear_batch(
    n: u16,
    hops: usize,
    stores: &mut Stores,
    hold: &[u8; MOST_HOPS],
    db: &[f64; MOST_VALUES],
    power: &[f32; MOST_VALUES],
    rise: &mut [u8; MOST_VALUES],
    drop: &mut [u8; MOST_VALUES],
) -> Result<usize, Stop>
    requires { hops ≤ 15 }
{
    let k = channels(n);
    let long = values_of(k, hops);
    let done = receive::receive(
        stores.bank,
        stores.bank_f,
        stores.gate,
        stores.gate_f,
        &hold[..hops],
        &db[..long],
        &power[..long],
        &mut rise[..long],
        &mut drop[..long],
    );
    if done.is_ok() {
        return Ok(hops);
    }
    let first = Hop {
        is_static: hold[0] == 1,
        size: hop_bytes(n),
    };
    hear(
        Ok(first),
        false,
        stores.bank,
        stores.bank_f,
        stores.worst,
        stores.worst_f,
        stores.gate,
        stores.gate_f,
        &db[..k],
        &power[..k],
        &mut rise[..k],
        &mut drop[..k],
    )?;
    Ok(1)
}

// The hops that were taken, told one by one. Only the first has moved the floors; the smoothed dB that a line shows are put in front of the gate's
// floats as they were after each hop, and after the last they are what was left there.
fn tell_hops(
    w: Watched,
    hops: usize,
    place: Place,
    before: Explanation,
    started: u16,
    stores: &mut Stores,
    batch: Batch,
    smooth: &mut [f64],
    kept: &mut Kept,
) -> Place {
    let Batch {
        hold,
        db,
        rise,
        drop,
    } = batch;
    let k = channels(w.n);
    let size = hop_bytes(w.n);
    let mut next = place;
    let mut shown = before;
    let mut on = started;
    // Over indices: the places in three lists are worked out from i. Chunks of k values would ask for a k above 0, and a zip of all four is no plainer.
    for i in 0..hops.min(MOST_HOPS) {
        let (at, to) = (values_of(k, i), values_of(k, i + 1));
        let hop = Marked {
            db: &db[at..to],
            rise: &rise[at..to],
            drop: &drop[at..to],
        };
        smooth_hop(hold[i], on, smooth, hop.db);
        put_db(stores.gate_f, smooth);
        on = started_after(hold[i], on);
        next = take_hop(
            w.s,
            size,
            next,
            shown,
            stores.seen(),
            hop,
            kept.alive,
            kept.alive_hops,
            kept.events,
            kept.rises,
        );
        shown = explanation_before(w.s, stores.seen());
    }
    next
}
