// Where the floors of one channel come from, hop by hop (document 02, R-4).
ghost use Rattle.std.specs.Prelude.{◌≡◌};
ghost use Rattle.watch_report.specs.Shown.{explanation_shown, explanation_before};

use origins::Explanation;
use streams::STDOUT;
use watch_lines::explained::put_explain_line;
use watch_origins::{explanation_of, is_news, no_explanation};
use watch_stores::Seen;
use watch_text::{Line, put_text};
use watch_words::Settings;

pub fn explanation_shown(bank: &[u16], bank_f: &[f64], k: usize) -> Explanation
    ensures { result ≡ explanation_shown bank.now bank_f.now k }
{
    explanation_of(explain::explain(bank, bank_f, k))
}

// What a hop is held against: the floors as they are before it is heard. Where nothing is to be explained nothing is worked out, and
// no number stands for it. No Option: it is looked at only where the settings name a channel, and would be asked there a second time.
pub fn explanation_before(s: Settings, stores: Seen) -> Explanation
    ensures { result ≡ explanation_before s.explained stores.entry.bank.now stores.entry.bank_f.now }
{
    match s.explained {
        Some(k) => explanation_shown(stores.bank, stores.bank_f, k),
        None => no_explanation(),
    }
}

// A line at the first hop, and whenever there is news.
pub fn print_explanation(hop: u64, k: usize, before: Explanation, bank: &[u16], bank_f: &[f64]) {
    let now = explanation_shown(bank, bank_f, k);
    if hop == 0 || is_news(before, now) {
        print_line(hop, now);
    }
}

fn print_line(hop: u64, x: Explanation) {
    let mut line = Line::new();
    put_explain_line(&mut line, hop, x);
    put_text(&mut line, b"\n");
    io::write_all(STDOUT, line.text());
}
