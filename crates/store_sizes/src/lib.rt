// Document 01, "Stores": how long the stores of a bank are, and the refusals over sizes. That an n is at most 512 is a clause of two functions and no type:
// n is lent as a number or read from a store, and here the type would be made of it only to be asked for that number.
#![tactic(auto)]

ghost use Rattle.std.specs.Prelude.{◌≡◌, ◌≤◌};
ghost use Rattle.laws.specs.Tests.{within};
ghost use Rattle.model.specs.Bank.{blocks as blocks_of};
ghost use Rattle.model.specs.Stores.{base as base_of};
ghost use Rattle.model.specs.Calls.{bank_len_for, bank_f_len_for};
ghost use Rattle.refusals.specs.Numbers.{answer_by};
ghost use Rattle.store_sizes.specs.Checks.{size_refusal};

use model::layout::{BLOCK_CHANNELS, CHANNEL_LEN};
use refusals::Refuses;

pub fn blocks(n: usize) -> usize
    requires { n ≤ 512 }
    ensures { (result ≡ blocks_of n) × (result ≤ blocks_of 512) }
{
    n.div_ceil(BLOCK_CHANNELS)
}

// Where the channels begin.
pub fn base(n: usize) -> usize
    requires { n ≤ 512 }
    ensures { (result ≡ base_of n) × (result ≤ base_of 512) }
{
    3 + blocks(n)
}

pub fn in_band(n: usize) -> bool
    ensures { result ≡ within 1 512 n }
{
    1 <= n && n <= 512
}

// How many u16 a bank of n channels takes; 0 for an n that no bank has.
pub fn bank_len(n: usize) -> usize
    ensures { result ≡ bank_len_for n }
{
    if !in_band(n) {
        // A length and no Option: C's `wolfcloak_bank_len` answers 0 here.
        return 0;
    }
    base(n) + CHANNEL_LEN * n
}

// How many f64 a bank of n channels takes; 0 for an n that no bank has.
pub fn bank_f_len(n: usize) -> usize
    ensures { result ≡ bank_f_len_for n }
{
    if !in_band(n) {
        // A length and no Option: C's `wolfcloak_bank_f_len` answers 0 here.
        return 0;
    }
    4 * n + blocks(n) + blocks(n)
}

// The refusals over sizes; `band` is the one for an n that no bank has.
pub fn size_refusal<E: Refuses>(band: E, u_len: usize, f_len: usize, n: usize) -> Result<(), E>
    ensures { answer_by E.number result ≡ size_refusal (E.number band) u_len f_len n }
{
    if !in_band(n) {
        return Err(band);
    }
    if u_len != bank_len(n) || f_len != bank_f_len(n) {
        return Err(E::store_size());
    }
    Ok(())
}
