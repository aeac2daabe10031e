// Document 01, "Refusals and their order": the refusals of a hop, by its slices alone.
#![tactic(auto)]

ghost use Rattle.std.specs.Prelude.{◌≡◌, ◌≤◌, length};
ghost use Rattle.model.specs.Refusals.{garbled as garbled_by};
ghost use Rattle.refusals.specs.Numbers.{answer};
ghost use Rattle.hop_refusals.specs.Checks.{sharing_of, hop_refusal};

use model::layout::BLOCK_CHANNELS;
use refusals::Refusal;

// How many of n channels share a block with another: all but a last one that has a block of its own.
fn sharing(n: usize) -> usize
    ensures { (result ≡ sharing_of n) × (result ≤ n) }
{
    if n % BLOCK_CHANNELS == 1 {
        return n - 1;
    }
    n
}

// A NaN in a block of two or more channels.
pub fn garbled(power_db: &[f64]) -> bool
    ensures { result ≡ garbled_by (length power_db.now) power_db.now }
{
    let end = sharing(power_db.len());
    power_db[..end].iter().any(|db| db.is_nan())
}

// Whether a hop at this phase suits a bank of n channels. dB and power are two slices, of any lengths: that they are as long as one another is tested
// here and not known before, so no type can say it.
pub fn hop_refusal(n: usize, phase: u16, power_db: &[f64], power: &[f32]) -> Result<(), Refusal>
    ensures { answer result ≡ hop_refusal n phase power_db.now (length power.now) }
{
    if power_db.len() != n || power.len() != n {
        return Err(Refusal::HopSize);
    }
    if phase == 0 && garbled(power_db) {
        return Err(Refusal::Garbled);
    }
    Ok(())
}
