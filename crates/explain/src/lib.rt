// Document 02, R-4: where the floors of a channel of a lent bank come from.
#![tactic(auto)]

ghost use Rattle.std.specs.Prelude.{◌≡◌};
ghost use Rattle.refusals.specs.Numbers.{numbered};
ghost use Rattle.model.specs.Stores.{bank_of};
ghost use Rattle.origins.specs.Origins.{explanation_at, explained};

use channel_readings::Channel;
use origins::Explanation;
use refusals::Refusal;

#[tactic(auto, unfolding(origins::specs::Origins::explanation_at, origins::specs::Origins::of_channel, channel_readings::specs::Sources::sources_at))]
fn explanation_at(channel: &Channel<'_>) -> Explanation
    ensures { result ≡ explanation_at (bank_of channel.now.bank.now channel.now.bank_f.now) channel.now.k }
{
    let x = channel.sources();
    Explanation {
        effective: floor_origins::effective_origin(x),
        rise: floor_origins::rise_origin(x),
    }
}

// Refused as a reading is. The bank comes as two slices, as C lends it, and is a `Channel` only past that test.
#[tactic(auto, using(channel_readings::proofs::Places::readable, channel_readings::proofs::Readings::valued, channel_readings::proofs::Readings::refused), unfolding(origins::specs::Origins::explained))]
pub fn explain(bank: &[u16], bank_f: &[f64], k: usize) -> Result<Explanation, Refusal>
    ensures { numbered result ≡ explained bank.now bank_f.now k }
{
    stores::read_refusal(bank, bank_f, k)?;
    Ok(explanation_at(&Channel { bank, bank_f, k }))
}
