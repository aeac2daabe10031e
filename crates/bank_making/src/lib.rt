// A fresh bank: floors at the bottom, smoothed the literal FRESH_POWER, the rest 0. C lends the two stores one by one, and the call writes both: behind a
// struct of `&mut` its clause would read of what lies behind each field and no longer of bank.new and bank_f.new.
#![tactic(auto)]

ghost use Rattle.std.specs.Prelude.{◌≡◌, ◌≤◌, length};
ghost use Rattle.refusals.specs.Numbers.{answer};
ghost use Rattle.model.specs.Bank.{fresh_bank};
ghost use Rattle.model.specs.Stores.{bank_u16s, bank_floats, bank_len, bank_f_len};
ghost use Rattle.model.specs.Calls.{bank_new_call};

use model::layout::{FRESH_POWER, HIST_MIN_DB};
use refusals::Refusal;

fn fresh_u(bank: &mut [u16], n: u16)
    requires { length bank.old ≡ bank_len n }
    ensures { bank.new ≡ bank_u16s (fresh_bank n) }
{
    bank.fill(0);
    bank[0] = n;
}

// That n is at most 512 is a clause: `bank_new` has just tested it, and a type that says so would be made for this one call.
fn fresh_f(bank_f: &mut [f64], n: usize)
    requires { (n ≤ 512) × (length bank_f.old ≡ bank_f_len n) }
    ensures { bank_f.new ≡ bank_floats (fresh_bank n) }
{
    let b = store_sizes::blocks(n);
    bank_f[..4 * n + b].fill(HIST_MIN_DB);
    bank_f[2 * n..3 * n].fill(FRESH_POWER);
    bank_f[4 * n + b..].fill(0.0);
}

// Makes a fresh bank of n channels in the lent stores.
#[tactic(auto, using(store_sizes::proofs::Sizes::fit), unfolding(model::specs::Calls::bank_new_call, model::specs::Refusals::make_refusal))]
pub fn bank_new(bank: &mut [u16], bank_f: &mut [f64], n: usize) -> Result<(), Refusal>
    ensures { (answer result, bank.new, bank_f.new) ≡ bank_new_call bank.old bank_f.old n }
{
    store_sizes::size_refusal(Refusal::Band, bank.len(), bank_f.len(), n)?;
    // No From leads from usize to u16; that n fits, being at most 512, is proved.
    fresh_u(bank, n as u16);
    fresh_f(bank_f, n);
    Ok(())
}
