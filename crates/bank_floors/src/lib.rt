// The stored floors of a slow hop: what changes the f64 store after the pushes. The loops go by the number of a channel or block: its floor stands in one
// list of the store and is worked out from the same place of others, and from its part of the u16 store, whose place is worked out from the number.
// Two slices, as C lends them, and `Ready`, that they are the stores of one bank, in each contract: a struct that carried it would hold the one by `&mut`,
// since it is written, and a clause would read what lies behind that.
#![tactic(auto)]

ghost use Rattle.std.specs.Prelude.{◌≡◌, ◌≤◌, ◌<◌, length};
ghost use Rattle.model.specs.Bank.{raw_floors};
ghost use Rattle.model.specs.Stores.{bank_floats, bank_len, bank_of, chan_part};
ghost use Rattle.model.specs.GoodBank.{Ready};
ghost use Rattle.bank_stages.specs.Steps.{raw_step, usable_step, block_step, rise_step};

use model::layout::{BLOCK_CHANNELS, CHANNEL_LEN};

// Channel k's part of the store of n channels. The bounds of n and k follow from `Ready` at each call; a type for them would be made there and used here
// alone.
fn channel(bank: &[u16], n: usize, k: usize) -> &[u16; CHANNEL_LEN]
    requires { (n ≤ 512) × (k < n) × (length bank.now ≡ bank_len n) }
    ensures { result.now ≡ chan_part n bank.now k }
{
    let a = 3 + n.div_ceil(BLOCK_CHANNELS) + CHANNEL_LEN * k;
    bank[a..a + CHANNEL_LEN].as_array().unwrap()
}

pub fn raw_floors(bank_f: &mut [f64], bank: &[u16])
    requires { Ready bank.now bank_f.old }
    ensures { bank_f.new ≡ bank_floats (raw_step (bank_of bank.now bank_f.old)) }
{
    let n = usize::from(bank[0]);
    for k in 0..n {
        bank_f[k] = quartile::raw_floor(channel(bank, n, k));
    }
}

pub fn usable_floors(bank_f: &mut [f64], bank: &[u16])
    requires ready { Ready bank.now bank_f.old }
    requires bank_f_value { (bank_of bank.now bank_f.old).raw ≡ raw_floors (bank_of bank.now bank_f.old).n (bank_of bank.now bank_f.old).chans }
    ensures { bank_f.new ≡ bank_floats (usable_step (bank_of bank.now bank_f.old)) }
{
    let n = usize::from(bank[0]);
    for k in 0..n {
        bank_f[n + k] = quartile::usable_floor(channel(bank, n, k), bank_f[k]);
    }
}

pub fn block_floors(bank_f: &mut [f64], bank: &[u16])
    requires { Ready bank.now bank_f.old }
    ensures { bank_f.new ≡ bank_floats (block_step (bank_of bank.now bank_f.old)) }
{
    let n = usize::from(bank[0]);
    let end = n + n;
    for i in 0..n.div_ceil(BLOCK_CHANNELS) {
        let med = median::block_median(&bank_f[n..end], i);
        bank_f[4 * n + i] = med;
    }
}

pub fn rise_floors(bank_f: &mut [f64], bank: &[u16])
    requires { Ready bank.now bank_f.old }
    ensures { bank_f.new ≡ bank_floats (rise_step (bank_of bank.now bank_f.old)) }
{
    let n = usize::from(bank[0]);
    let blocks = n.div_ceil(BLOCK_CHANNELS);
    for k in 0..n {
        let i = k / BLOCK_CHANNELS;
        let since = ring::since(channel(bank, n, k));
        let floor = block::rise_floor(block::Sources {
            usable: bank_f[n + k],
            block_floor: bank_f[4 * n + i],
            since,
            pushes: bank[3 + i],
            sum: bank_f[4 * n + blocks + i],
        });
        bank_f[3 * n + k] = floor;
    }
}
