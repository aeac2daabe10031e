// Document 01, "Readings", the bank's half: what is read of a channel of a sound bank.
#![tactic(auto)]

ghost use Rattle.std.specs.Prelude.{◌≡◌, ◌+◌, ◌*◌, ◌≤◌, ◌<◌, length, get_or};
ghost use Rattle.model.specs.Layout.{ring_len, channel_len};
ghost use Rattle.model.specs.Stores.{base, bank_len, bank_of};
ghost use Rattle.model.specs.Readings.{effective_at, rise_at, floors_at, VeryPart};
ghost use Rattle.channel_readings.specs.Sources.{sources_at};

mod lent;

pub use block::Sources;
pub use lent::Channel;
use model::layout::{BLOCK_CHANNELS, CHANNEL_LEN, RING_LEN};

impl Channel<'_> {
    #[tactic(auto, using(crate::proofs::Places::sound_part))]
    pub fn sources(&self) -> Sources
        ensures { result ≡ sources_at (bank_of self.now.bank.now self.now.bank_f.now) self.now.k }
    {
        let n = usize::from(self.bank[0]);
        let blocks = n.div_ceil(BLOCK_CHANNELS);
        let i = self.k / BLOCK_CHANNELS;
        let a = ring_start(self.bank, self.k);
        let e = a + CHANNEL_LEN;
        let since = ring::since(self.bank[a..e].as_array().unwrap());
        Sources {
            usable: self.bank_f[n + self.k],
            block_floor: self.bank_f[4 * n + i],
            since: since,
            pushes: self.bank[3 + i],
            sum: self.bank_f[4 * n + blocks + i],
        }
    }

    #[tactic(auto, unfolding(model::specs::Readings::effective_at, crate::specs::Sources::sources_at))]
    pub fn effective(&self) -> f64
        ensures { result ≡ effective_at (bank_of self.now.bank.now self.now.bank_f.now) self.now.k }
    {
        block::effective_floor(self.sources())
    }

    #[tactic(auto, using(crate::proofs::Places::rise_is))]
    pub fn rise(&self) -> f64
        ensures { result ≡ rise_at (bank_of self.now.bank.now self.now.bank_f.now) self.now.k }
    {
        let n = usize::from(self.bank[0]);
        self.bank_f[3 * n + self.k]
    }

    #[tactic(auto, using(crate::proofs::Places::raw_is), unfolding(model::specs::Readings::floors_at))]
    pub fn floors(&self) -> model::Floors
        ensures { result ≡ floors_at (bank_of self.now.bank.now self.now.bank_f.now) self.now.k }
    {
        let effective = self.effective();
        let rise = self.rise();
        model::Floors {
            effective: effective,
            rise: rise,
            raw: self.bank_f[self.k],
        }
    }
}

// Where the ring of channel k starts.
pub fn ring_start(bank: &[u16], k: usize) -> usize
    requires { (k < get_or bank.now 0 0) × (get_or bank.now 0 0 ≤ 512) × (length bank.now ≡ bank_len (get_or bank.now 0 0)) }
    ensures { (result ≡ base (get_or bank.now 0 0) + channel_len * k) × (result + ring_len ≤ length bank.now) }
{
    let n = usize::from(bank[0]);
    3 + n.div_ceil(BLOCK_CHANNELS) + CHANNEL_LEN * k
}

pub fn ring_at<'a>(bank: &'a [u16], a: usize) -> &'a [u16]
    requires { a + ring_len ≤ length bank.now }
    ensures { VeryPart bank.entry result a ring_len }
{
    let e = a + RING_LEN;
    &bank[a..e]
}

pub fn empty_at_start<'a>(bank: &'a [u16]) -> &'a [u16]
    ensures { VeryPart bank.entry result 0 0 }
{
    &bank[0..0]
}
