// The figures of a report that are neither a reading nor a count.
#![tactic(auto)]

ghost use Rattle.std.specs.Prelude.{◌≡◌, slice_index_or};
ghost use Rattle.std.specs.Float.{nan};
ghost use Rattle.refusals.specs.Numbers.{numbered};
ghost use Rattle.refusals.specs.Readings.{value_or};
ghost use Rattle.watch_figures.specs.Figures.{no_floors, ends_minute, whole_seconds, end_byte};
ghost use Rattle.watch_figures.specs.Figures.{thousandths as figures_thousandths};

use model::Floors;
use refusals::Refusal;

pub fn thousandths(eighths: u16) -> u64
    ensures { result ≡ figures_thousandths eighths }
{
    125 * u64::from(eighths)
}

pub fn ends_minute(hop: u64) -> bool
    ensures { result ≡ ends_minute hop }
{
    hop != 0 && hop % 22500 == 0
}

pub fn whole_seconds(hop: u64) -> u64
    ensures { result ≡ whole_seconds hop }
{
    hop / 375
}

// No recording is so long that the sum wraps.
pub fn end_byte(byte: u64, got: usize) -> u64
    ensures { result ≡ end_byte byte got }
{
    // No From leads from usize to u64.
    byte.wrapping_add(got as u64)
}

pub fn no_number() -> f64
    ensures { result ≡ nan }
{
    f64::NAN
}

// A refused reading shows as no number.
pub fn value(r: Result<f64, Refusal>) -> f64
    ensures { result ≡ value_or nan (numbered r) }
{
    r.unwrap_or(no_number())
}

fn no_floors() -> Floors
    ensures { result ≡ no_floors }
{
    let x = no_number();
    Floors {
        effective: x,
        rise: x,
        raw: x,
    }
}

pub fn floors_of(r: Result<Floors, Refusal>) -> Floors
    ensures { result ≡ value_or no_floors (numbered r) }
{
    r.unwrap_or(no_floors())
}

// Past the end there is no number. `watch_recording::entry_at` says the same of any value: for a line of one call figures would depend on recordings.
pub fn float_at(floats: &[f64], k: usize) -> f64
    ensures { result ≡ slice_index_or floats.now k nan }
{
    floats.get(k).copied().unwrap_or(no_number())
}
