// Document 02, R-12: the test of a lent map of n channels and the refusals in their order. The gate, whose n this is, is the caller's to test. Of n no
// more is asked than that it isn't 0, since the last byte of a group is looked at: a type for that would be made from the gate's first number at each
// call, and taken apart here. So would one of the map and its n: they are what is tested.
#![tactic(auto)]

ghost use Rattle.std.specs.Prelude.{◌≡◌, ◌≤◌, eqb, length, replicate};
ghost use Rattle.std.specs.Int.Bits.{bit_and};
ghost use Rattle.model.specs.Map.{map_long, sound_map};
ghost use Rattle.model.specs.MapCalls.{map_len, map_make_refusal, map_refusal, address_refusal};
ghost use Rattle.refusals.specs.Numbers.{answer};

use refusals::Refusal;

// How long a map of n channels must be: 0 where n is outside 1..512.
#[tactic(auto, unfolding(model::specs::MapCalls::map_len))]
pub fn map_len(n: usize) -> usize
    ensures { result ≡ map_len n }
{
    if n < 1 || 512 < n {
        return 0; // The C interface says 0 where there is no such store.
    }
    3 * n.div_ceil(8)
}

// Whether a map of n channels can be made there.
#[tactic(auto, unfolding(model::specs::MapCalls::map_make_refusal))]
pub fn make_refusal(map: &[u8], n: usize) -> Result<(), Refusal>
    ensures { answer result ≡ map_make_refusal n map.now }
{
    if map.len() != 3 * n.div_ceil(8) {
        return Err(Refusal::StoreSize);
    }
    Ok(())
}

// Whether a byte has no bit but the lowest ones of low.
fn clean(b: u8, low: u8) -> bool
    ensures { result ≡ eqb (bit_and b low) b }
{
    b & low == b
}

// Whether no bit past n is set: the last byte of each group is looked at.
fn map_sound(map: &[u8], n: usize) -> bool
    requires { (1 ≤ n) × (length map.now ≡ map_long n) }
    ensures { result ≡ sound_map n map.now }
{
    let w = n.div_ceil(8);
    let low = bits::low(n - 8 * (w - 1));
    clean(map[w - 1], low) && clean(map[w + w - 1], low) && clean(map[w + w + w - 1], low)
}

// Whether the lent bytes are a map of n channels.
#[tactic(auto, unfolding(model::specs::MapCalls::map_refusal))]
pub fn map_refusal(map: &[u8], n: usize) -> Result<(), Refusal>
    requires { 1 ≤ n }
    ensures { answer result ≡ map_refusal n map.now }
{
    if map.len() != 3 * n.div_ceil(8) {
        return Err(Refusal::StoreSize);
    }
    if !map_sound(map, n) {
        return Err(Refusal::Unsound);
    }
    Ok(())
}

// The same, then the address.
#[tactic(auto, unfolding(model::specs::MapCalls::address_refusal))]
pub fn address_refusal(map: &[u8], n: usize, address: usize) -> Result<(), Refusal>
    requires { 1 ≤ n }
    ensures { answer result ≡ address_refusal n map.now address }
{
    map_refusal(map, n)?;
    if address >= 3 * n.div_ceil(8) {
        return Err(Refusal::Address);
    }
    Ok(())
}

// All 0: a fresh map.
pub fn clear(map: &mut [u8])
    ensures { map.new ≡ replicate (length map.old) 0 }
{
    map.fill(0);
}
