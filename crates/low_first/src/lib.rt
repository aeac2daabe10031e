// Numbers and floats in a list of bytes, the lowest byte first. Beyond the list's end there are zeros.
#![tactic(auto)]

ghost use Rattle.std.specs.Prelude.{◌≡◌, List, ℕ, ◌+◌, ◌<◌, ◌≤◌, length, slice_index};
ghost use Rattle.std.specs.Float.Ieee.{of_bits};
ghost use Rattle.std.specs.Float.{binary32, binary64};
ghost use Rattle.low_first.specs.LowFirst.{byte_at, low_two, low_four, low_eight, double_at, single_at};

// The byte i places after `at`: the sum is never worked out where it could wrap.
pub fn byte_at(list: &[u8], at: usize, i: usize) -> u8
    ensures { result ≡ byte_at list.now (at + i) }
{
    if at < list.len() && i < list.len() - at {
        list[at + i]
    } else {
        0
    }
}

// The N bytes from `at` on.
fn bytes_at<const N: usize>(list: &[u8], at: usize) -> [u8; N]
    ensures { (i : ℕ) → i < N → slice_index result i ≡ byte_at list.now (at + i) }
{
    std::array::from_fn(|i| byte_at(list, at, i))
}

// A number of as many bytes as its type has. Each width has an instance, since from_le_bytes is each type's own and no trait of std has it.
pub trait LowFirst: Copy {
    ghost number_at: { List ℕ → ℕ → Self };

    fn low_first(list: &[u8], at: usize) -> Self
        ensures { result ≡ number_at list.now at };
}

impl LowFirst for u16 {
    ghost number_at = { low_two };

    #[tactic(auto, unfolding(crate::specs::LowFirst::low_two))]
    fn low_first(list: &[u8], at: usize) -> u16 {
        u16::from_le_bytes(bytes_at(list, at))
    }
}

impl LowFirst for u32 {
    ghost number_at = { low_four };

    #[tactic(auto, unfolding(crate::specs::LowFirst::low_four))]
    fn low_first(list: &[u8], at: usize) -> u32 {
        u32::from_le_bytes(bytes_at(list, at))
    }
}

impl LowFirst for u64 {
    ghost number_at = { low_eight };

    #[tactic(auto, unfolding(crate::specs::LowFirst::low_eight, crate::specs::LowFirst::low_four))]
    fn low_first(list: &[u8], at: usize) -> u64 {
        u64::from_le_bytes(bytes_at(list, at))
    }
}

// The instance that logs and recordings ask for most, by a name of its own: their n.
pub fn two_bytes(list: &[u8], at: usize) -> u16
    ensures { result ≡ low_two list.now at }
{
    u16::low_first(list, at)
}

// Four bytes, and below eight, where they are known to be there: nothing is tested, and the compiler may read them at once. Two functions and no method
// of LowFirst: a log's pairs alone are read so, and nobody would ask for the instance of two bytes.
#[tactic(auto, unfolding(crate::specs::LowFirst::low_four))]
pub fn four_within(list: &[u8], at: usize) -> u32
    requires { at + 4 ≤ length list.now }
    ensures { result ≡ low_four list.now at }
{
    u32::from_le_bytes([list[at], list[at + 1], list[at + 2], list[at + 3]])
}

#[tactic(auto, unfolding(crate::specs::LowFirst::low_eight, crate::specs::LowFirst::low_four))]
pub fn eight_within(list: &[u8], at: usize) -> u64
    requires { at + 8 ≤ length list.now }
    ensures { result ≡ low_eight list.now at }
{
    u64::from_le_bytes([
        list[at],
        list[at + 1],
        list[at + 2],
        list[at + 3],
        list[at + 4],
        list[at + 5],
        list[at + 6],
        list[at + 7],
    ])
}

// Bits are made a float only where they are no NaN's; the magnitude bits of every NaN are above those of infinity.
// Two functions, here and below, and no generic one: f32 and f64 have no trait that reads bits, and one of our own would be longer than both.
pub fn double(bits: u64) -> f64
    ensures { result ≡ of_bits binary64 bits }
{
    if bits % 0x8000_0000_0000_0000 > 0x7ff0_0000_0000_0000 {
        f64::NAN
    } else {
        f64::from_bits(bits)
    }
}

pub fn single(bits: u32) -> f32
    ensures { result ≡ of_bits binary32 bits }
{
    if bits % 0x8000_0000 > 0x7f80_0000 {
        f32::NAN
    } else {
        f32::from_bits(bits)
    }
}

// Two functions once more: a generic one would need that trait.
pub fn double_at(list: &[u8], at: usize) -> f64
    ensures { result ≡ double_at list.now at }
{
    double(u64::low_first(list, at))
}

pub fn single_at(list: &[u8], at: usize) -> f32
    ensures { result ≡ single_at list.now at }
{
    single(u32::low_first(list, at))
}
