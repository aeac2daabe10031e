// Document 02, R-12: registers for the main processor, in a lent map beside its lent gate: making, read, write, wire. A gate is two slices, as C lends
// them: they are read once a call, to test them, and a struct would be made for that alone. So would a type of the map and its n, which one function
// behind the test writes and one reads: that the map is as long as n asks stands in both.
#![tactic(auto)]

ghost use Rattle.std.specs.Prelude.{◌≡◌, true, ℕ, ◌<◌, length};
ghost use Rattle.laws.specs.Lists.{one};
ghost use Rattle.model.specs.Map.{map_long, wire, sound_map, written};
ghost use Rattle.model.specs.MapCalls.{map_new_call, map_read_call, map_write_call, map_wire_call};
ghost use Rattle.refusals.specs.Numbers.{answer, numbered};
ghost use Rattle.refusals.specs.Readings.{answered};

use refusals::Refusal;

// A fresh map.
#[tactic(auto, using(crate::proofs::Lent::new_made), unfolding(model::specs::MapCalls::map_new_call))]
pub fn map_new(gate: &[u16], gate_f: &[f64], map: &mut [u8]) -> Result<(), Refusal>
    ensures { (answer result, map.new) ≡ map_new_call gate.now gate_f.now map.old }
{
    map_lent::make_refusal(gate, gate_f, map)?;
    map_store::clear(map);
    Ok(())
}

// The byte at an address. What C is given for it is said with what lies behind its reference.
#[tactic(auto, using(crate::proofs::Lent::lent_address), unfolding(model::specs::MapCalls::map_read_call))]
pub fn map_read(gate: &[u16], gate_f: &[f64], map: &[u8], address: usize) -> Result<u8, Refusal>
    ensures { (old : ℕ) → answered old (numbered result) ≡ map_read_call gate.now gate_f.now map.now address old }
{
    map_lent::address_refusal(gate, gate_f, map, address)?;
    Ok(map[address])
}

// A flag byte: the bits written as 1 are cleared. A mask byte: it is replaced, but for bits past n.
fn write(map: &mut [u8], n: usize, address: usize, value: u8)
    requires { (length map.old ≡ map_long n) × (address < map_long n) }
    ensures { map.new ≡ written n map.old address value }
{
    let masks = 2 * n.div_ceil(8);
    if address < masks {
        map[address] &= !value;
        return;
    }
    let used = (n - 8 * (address - masks)).min(8);
    map[address] = value & bits::low(used);
}

#[tactic(auto, using(crate::proofs::Lent::lent_address), unfolding(model::specs::MapCalls::map_write_call))]
pub fn map_write(
    gate: &[u16],
    gate_f: &[f64],
    map: &mut [u8],
    address: usize,
    value: u8,
) -> Result<(), Refusal>
    ensures { (answer result, map.new) ≡ map_write_call gate.now gate_f.now map.old address value }
{
    map_lent::address_refusal(gate, gate_f, map, address)?;
    write(map, usize::from(gate[0]), address, value);
    Ok(())
}

// 1 where some flag and its channel's mask bit are both 1, and 0 otherwise: a byte and no bool, as C reads it. A loop without a way out, so that it is
// compiled to wide steps: a wire that is asked again and again is mostly down.
fn wire(map: &[u8], n: usize) -> u8
    requires { (length map.now ≡ map_long n) × (sound_map n map.now ≡ true) }
    ensures { result ≡ one (wire n map.now) }
{
    let w = n.div_ceil(8);
    let mut up = false;
    for i in 0..w {
        up |= (map[i] | map[w + i]) & map[w + w + i] != 0;
    }
    u8::from(up)
}

#[tactic(auto, using(crate::proofs::Lent::lent_map), unfolding(model::specs::MapCalls::map_wire_call))]
pub fn map_wire(gate: &[u16], gate_f: &[f64], map: &[u8]) -> Result<u8, Refusal>
    ensures { (old : ℕ) → answered old (numbered result) ≡ map_wire_call gate.now gate_f.now map.now old }
{
    map_lent::map_refusal(gate, gate_f, map)?;
    Ok(wire(map, usize::from(gate[0])))
}
