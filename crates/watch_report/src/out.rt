// What lines of hops and of the end have in common.
ghost use Rattle.std.specs.Prelude.{◌≡◌};
ghost use Rattle.model.specs.Readings.{reference_reading};
ghost use Rattle.refusals.specs.Numbers.{numbered};
ghost use Rattle.watch_text.specs.Text.{written, put_all};
ghost use Rattle.watch_report.specs.Shown.{floors_shown, worst_shown, worst_told, reference_column};

use model::Floors;
use refusals::Refusal;
use watch_figures::{floors_of, value};
use watch_floats::put_power;
use watch_text::Line;
use watch_words::Settings;

// The three floors of a channel.
pub fn floors_shown(bank: &[u16], bank_f: &[f64], k: usize) -> Floors
    ensures { result ≡ floors_shown bank.now bank_f.now k }
{
    floors_of(readings::floors(bank, bank_f, k))
}

// The worst floor of late of a channel: where it is not kept nothing is read.
pub fn worst_shown(
    s: Settings,
    bank: &[u16],
    bank_f: &[f64],
    worst: &[u16],
    worst_f: &[f64],
    k: usize,
) -> Option<Result<Option<f64>, Refusal>>
    ensures { worst_told result ≡ worst_shown s.worst bank.now bank_f.now worst.now worst_f.now k }
{
    s.worst
        .map(|_| worst::worst_floor(bank, bank_f, worst, worst_f, k))
}

// The spectral reference of a channel, at the right of a column.
#[tactic(auto, unfolding(watch_text::specs::Text::put_all))]
pub fn put_reference(line: &mut Line, bank: &[u16], bank_f: &[f64], k: usize, is_shown: bool)
    ensures { written line.new ≡ put_all (written line.old) (reference_column is_shown (reference_reading bank.now bank_f.now k)) }
{
    if is_shown {
        let x = value(readings::spectral_reference(bank, bank_f, k));
        put_power(line, x, 11);
    }
}
