// Document 01, "Readings", the bank's half: what is read of a lent bank, by channel. Each refuses as `stores::read_refusal` does, and then is one
// line: a generic one with that line as a closure would have its contract to state over the closure's, and be longer than the five.
// A bank comes as two slices, as C lends it, and is a `Channel` only once the test has passed.
#![tactic(auto)]

ghost use Rattle.std.specs.Prelude.{◌≡◌};
ghost use Rattle.refusals.specs.Numbers.{numbered};
ghost use Rattle.model.specs.Readings.{raw_reading, effective_reading, rise_reading, reference_reading, floors_reading, ring_start, ring_length, VeryPart};

use channel_readings::Channel;
use model::Floors;
use refusals::Refusal;

// The raw floor, as it is stored.
#[tactic(auto, using(channel_readings::proofs::Places::readable, channel_readings::proofs::Places::raw_is, channel_readings::proofs::Readings::valued, channel_readings::proofs::Readings::refused), unfolding(model::specs::Readings::raw_reading))]
pub fn channel_floor_db(bank: &[u16], bank_f: &[f64], k: usize) -> Result<f64, Refusal>
    ensures { numbered result ≡ raw_reading bank.now bank_f.now k }
{
    stores::read_refusal(bank, bank_f, k)?;
    let raw = bank_f[k];
    Ok(raw)
}

// The effective floor is not stored: it is worked out from the stored usable floor, block floor and seed.
#[tactic(auto, using(channel_readings::proofs::Places::readable, channel_readings::proofs::Places::raw_is, channel_readings::proofs::Readings::valued, channel_readings::proofs::Readings::refused), unfolding(model::specs::Readings::effective_reading))]
pub fn effective_floor_db(bank: &[u16], bank_f: &[f64], k: usize) -> Result<f64, Refusal>
    ensures { numbered result ≡ effective_reading bank.now bank_f.now k }
{
    stores::read_refusal(bank, bank_f, k)?;
    Ok(Channel { bank, bank_f, k }.effective())
}

// The rise floor, as it is stored.
#[tactic(auto, using(channel_readings::proofs::Places::readable, channel_readings::proofs::Places::raw_is, channel_readings::proofs::Readings::valued, channel_readings::proofs::Readings::refused), unfolding(model::specs::Readings::rise_reading))]
pub fn rise_floor_db(bank: &[u16], bank_f: &[f64], k: usize) -> Result<f64, Refusal>
    ensures { numbered result ≡ rise_reading bank.now bank_f.now k }
{
    stores::read_refusal(bank, bank_f, k)?;
    Ok(Channel { bank, bank_f, k }.rise())
}

// The spectral reference, a linear power.
#[tactic(auto, using(channel_readings::proofs::Places::readable, channel_readings::proofs::Places::raw_is, channel_readings::proofs::Readings::valued, channel_readings::proofs::Readings::refused), unfolding(model::specs::Readings::reference_reading))]
pub fn spectral_reference(bank: &[u16], bank_f: &[f64], k: usize) -> Result<f64, Refusal>
    ensures { numbered result ≡ reference_reading bank.now bank_f.now k }
{
    stores::read_refusal(bank, bank_f, k)?;
    Ok(reference::reference_at(&Channel { bank, bank_f, k }))
}

// Effective, rise and raw floor at once.
#[tactic(auto, using(channel_readings::proofs::Places::readable, channel_readings::proofs::Places::raw_is, channel_readings::proofs::Readings::valued, channel_readings::proofs::Readings::refused), unfolding(model::specs::Readings::floors_reading))]
pub fn floors(bank: &[u16], bank_f: &[f64], k: usize) -> Result<Floors, Refusal>
    ensures { numbered result ≡ floors_reading bank.now bank_f.now k }
{
    stores::read_refusal(bank, bank_f, k)?;
    Ok(Channel { bank, bank_f, k }.floors())
}

// The ring of channel k: the very part of the store that it occupies.
pub fn ring<'a>(bank: &'a [u16], bank_f: &[f64], k: usize) -> &'a [u16]
    ensures { VeryPart bank.entry result (ring_start bank.now bank_f.now k) (ring_length bank.now bank_f.now k) }
{
    match stores::read_refusal(bank, bank_f, k) {
        Ok(()) => channel_readings::ring_at(bank, channel_readings::ring_start(bank, k)),
        Err(_) => channel_readings::empty_at_start(bank),
    }
}
