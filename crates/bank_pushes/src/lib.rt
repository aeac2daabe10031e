// A slow hop's seeds and pushes: what changes the u16 store. Both stores come as C lends them, a slice each: a call writes one or both, and of a
// struct of two `&mut` its clause would have to say what stands behind each field. So `Ready`, that they are one bank's, is a clause, and that a hop's dB
// are as many as its channels.
#![tactic(auto)]

ghost use Rattle.std.specs.Prelude.{◌≡◌, ◌+◌, ◌*◌, ◌<◌, ◌≤◌, length, get_or};
ghost use Rattle.laws.specs.Lists.{part, splice};
ghost use Rattle.model.specs.Layout.{bins, ring_len, channel_len};
ghost use Rattle.model.specs.Ring.{bin_of, push_in};
ghost use Rattle.model.specs.Stores.{chan_u, chan_of, bank_u16s, bank_of};
ghost use Rattle.model.specs.Sound.{Sound};
ghost use Rattle.model.specs.GoodBank.{Ready};
ghost use Rattle.bank_stages.specs.Steps.{Holds, seed_step, push_step};

use model::layout::{BLOCK_CHANNELS, CHANNEL_LEN};

// A channel's part of the store takes a bin. The test of its length goes when this is compiled, since the part is cut with that length: a push takes 68
// instructions on noise, as many as into a slice.
fn push_into(part: &mut [u16], bin: u16, quiet: bool)
    requires part_len { length part.old ≡ channel_len }
    requires sound { Sound ring_len bins (chan_of part.old) }
    requires bin_lt_bins { bin < bins }
    ensures { part.new ≡ chan_u (push_in ring_len quiet (chan_of part.old) bin) }
{
    let Some(chan) = part.as_mut_array() else {
        unreachable!()
    };
    ring::push(chan, bin, quiet);
}

// The channel at `a` takes the bin of p.
fn push_at(bank: &mut [u16], a: usize, p: f64, quiet: bool)
    requires channel_len_in_bounds { a + channel_len ≤ length bank.old }
    requires sound { Sound ring_len bins (chan_of (part a channel_len bank.old)) }
    ensures { bank.new ≡ splice a channel_len bank.old (chan_u (push_in ring_len quiet (chan_of (part a channel_len bank.old)) (bin_of p))) }
{
    let bin = ring::bin_index(p);
    push_into(&mut bank[a..a + CHANNEL_LEN], bin, quiet);
}

// Each channel takes the bin of its dB. Until its block has a seed push, an entry of bin 0 counts as lead.
pub fn push_all(bank: &mut [u16], bank_f: &[f64], power_db: &[f64])
    requires { Ready bank.old bank_f.now × (length power_db.now ≡ get_or bank.old 0 0) }
    ensures { bank.new ≡ bank_u16s (push_step power_db.now (bank_of bank.old bank_f.now)) }
{
    let base = 3 + power_db.len().div_ceil(BLOCK_CHANNELS);
    for (k, p) in power_db.iter().enumerate() {
        let quiet = 0 == bank[3 + k / BLOCK_CHANNELS];
        push_at(bank, base + CHANNEL_LEN * k, *p, quiet);
    }
}

// Each block's median is counted and added to its seed sum, while its seed is young.
pub fn take_seeds(bank: &mut [u16], bank_f: &mut [f64], power_db: &[f64])
    requires { Ready bank.old bank_f.old × (length power_db.now ≡ get_or bank.old 0 0) }
    ensures { Holds (seed_step power_db.now (bank_of bank.old bank_f.old)) bank.new bank_f.new }
{
    let n = power_db.len();
    let blocks = n.div_ceil(BLOCK_CHANNELS);
    let base = 3 + blocks;
    let a = 4 * n + blocks;
    let e = a + blocks;
    block::seeds::seed_blocks(&mut bank[3..base], &mut bank_f[a..e], power_db);
}
