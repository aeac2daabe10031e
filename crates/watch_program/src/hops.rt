// The hops of a recording or a log: batch by batch, or one after another.
ghost use Rattle.std.specs.Prelude.{◌≡◌, not, ◌&&◌, is_none};

use watch_notices::Watched;
use watch_stores::Stores;
use watch_words::Settings;

// A run doesn't carry the store of the worst floor of late, nor show the spectral reference after each of its hops; and the hops of a log are
// of differing size.
fn is_by_runs(s: Settings) -> bool
    ensures { result ≡ (not s.is_log && (is_none s.worst && not s.has_reference)) }
{
    !s.is_log && s.worst.is_none() && !s.has_reference
}

pub fn watch_hops(w: Watched, stores: &mut Stores) {
    if is_by_runs(w.s) {
        watch_runs::watch_runs(w, stores);
    } else {
        watch_singly::watch_each(w, stores);
    }
}
