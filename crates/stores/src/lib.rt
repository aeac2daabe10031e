// Document 01, "Stores": the soundness test of a lent bank, and the refusals in their order. A bank's two stores are two slices, as C lends them, and so
// are a hop's two lists: here they are only asked, and a struct of the two would be made at each call and read once.
#![tactic(auto)]

ghost use Rattle.std.specs.Prelude.{◌≡◌, true, ◌≤◌, ◌<◌, length};
ghost use Rattle.laws.specs.Tests.{all_below};
ghost use Rattle.model.specs.Stores.{bank_len};
ghost use Rattle.model.specs.Refusals.{bank_refusal, update_refusal, read_refusal};
ghost use Rattle.refusals.specs.Numbers.{answer};
ghost use Rattle.stores.specs.Checks.{sound_head, sound_seeds, is_sound, sound_channels, sound_store};

use model::layout::{CHANNEL_LEN, DECIMATION_HOPS};
use refusals::Refusal;

fn head_sound(phase: u16, started: u16) -> bool
    ensures { result ≡ sound_head phase started }
{
    phase < DECIMATION_HOPS && started <= 1
}

// A bank's u16 store, as long as its n says.
#[derive(Clone, Copy)]
struct Store<'a> {
    bank: &'a [u16],
    n: usize,
    ghost as_long: { (n ≤ 512) × (length bank.now ≡ bank_len n) },
}

impl Store<'_> {
    fn seeds_sound(&self) -> bool
        ensures { result ≡ sound_seeds self.now.bank.now self.now.n }
    {
        let end = 3 + store_sizes::blocks(self.n);
        self.bank[3..end].iter().all(|&seeds| seeds <= 25)
    }

    #[tactic(auto, using(crate::proofs::Banks::channel_is))]
    fn is_channel_sound(&self, k: usize) -> bool
        requires { k < self.now.n }
        ensures { result ≡ is_sound self.now.bank.now self.now.n k }
    {
        let a = store_sizes::base(self.n) + CHANNEL_LEN * k;
        bank_sound::channel_sound(self.bank[a..a + CHANNEL_LEN].as_array().unwrap())
    }

    // Most channels are found sound by sixteens, which takes less time than one by one.
    fn channels_sound(&self) -> bool
        ensures { result ≡ sound_channels self.now.bank.now self.now.n }
    {
        let start = store_sizes::base(self.n);
        let first = bank_sixteens::sound_sixteens(self.bank, start, self.n);
        (first..self.n).all(|k| self.is_channel_sound(k))
    }

    #[tactic(auto, unfolding(crate::specs::Checks::sound_store))]
    fn is_sound(&self) -> bool
        ensures { result ≡ sound_store self.now.bank.now self.now.n }
    {
        head_sound(self.bank[1], self.bank[2]) && self.seeds_sound() && self.channels_sound()
    }
}

// Whether the lent stores are a bank.
#[tactic(auto, using(crate::proofs::Banks::refusal_is, crate::proofs::Banks::wrong_size, store_sizes::proofs::Sizes::fit))]
pub fn bank_refusal(bank: &[u16], bank_f: &[f64]) -> Result<(), Refusal>
    ensures { answer result ≡ bank_refusal bank.now bank_f.now }
{
    if bank.len() < 3 {
        return Err(Refusal::StoreSize);
    }
    let n = usize::from(bank[0]);
    store_sizes::size_refusal(Refusal::Unsound, bank.len(), bank_f.len(), n)?;
    if !(Store { bank, n }).is_sound() {
        return Err(Refusal::Unsound);
    }
    Ok(())
}

// The same, then whether there is a channel k.
#[tactic(auto, using(crate::proofs::Banks::at_least_three), unfolding(model::specs::Refusals::read_refusal))]
pub fn read_refusal(bank: &[u16], bank_f: &[f64], k: usize) -> Result<(), Refusal>
    ensures { answer result ≡ read_refusal bank.now bank_f.now k }
{
    bank_refusal(bank, bank_f)?;
    if k >= usize::from(bank[0]) {
        return Err(Refusal::Channel);
    }
    Ok(())
}

// Whether a bank takes a hop.
#[tactic(auto, using(crate::proofs::Banks::at_least_three), unfolding(model::specs::Refusals::update_refusal))]
pub fn update_refusal(
    bank: &[u16],
    bank_f: &[f64],
    power_db: &[f64],
    power: &[f32],
) -> Result<(), Refusal>
    ensures { answer result ≡ update_refusal bank.now bank_f.now power_db.now power.now }
{
    bank_refusal(bank, bank_f)?;
    hop_refusals::hop_refusal(usize::from(bank[0]), bank[1], power_db, power)
}
