// Document 01, "Readings": the spectral reference of a channel of a sound bank.
#![tactic(auto)]

ghost use Rattle.std.specs.Prelude.{◌≡◌, ◌+◌, ◌*◌, ◌≤◌, ◌<◌, length, get_or};
ghost use Rattle.laws.specs.Lists.{part};
ghost use Rattle.model.specs.Numbers.{f0};
ghost use Rattle.model.specs.Stores.{bank_f_len, bank_of};
ghost use Rattle.model.specs.Readings.{reference_at};

use channel_readings::Channel;

// The smoothed power of channel k of n. It is one of the channels around the `Channel` that is read: one made of each would have to be shown readable
// first, for one number of it.
fn power_at(bank_f: &[f64], n: usize, k: usize) -> f64
    requires { (n ≤ 512) × (length bank_f.now ≡ bank_f_len n) × (k < n) }
    ensures { result ≡ get_or (part (2 * n) n bank_f.now) k f0 }
{
    bank_f[2 * n + k]
}

// Channel k and its next neighbours are left out: a signal in k spills into them.
pub fn reference_at(channel: &Channel<'_>) -> f64
    ensures { result ≡ reference_at (bank_of channel.now.bank.now channel.now.bank_f.now) channel.now.k }
{
    let k = channel.k;
    let n = usize::from(channel.bank[0]);
    // Below 0 the places wrap, and from here no distance leads below it.
    let from = k + 4 * n;
    let mut least = 1.0 / 0.0;
    for place in [from - 4, from - 3, from - 2, k + 2, k + 3, k + 4] {
        least = block::least(least, power_at(channel.bank_f, n, place % n));
    }
    least
}
