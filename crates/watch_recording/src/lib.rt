// The bytes of a recording.
#![tactic(auto)]

ghost use Rattle.std.specs.Prelude.{◌≡◌, ◌+◌, ◌*◌, ◌%◌, length, get_or, ◌==◌};
ghost use Rattle.laws.specs.Lists.{tab};
ghost use Rattle.low_first.specs.LowFirst.{double_at, single_at};
ghost use Rattle.watch_recording.specs.Recording.{hop_bytes, place_at, place_after, step_of};
ghost use Rattle.watch_recording.specs.declared.Stop.TheVariants.{Refused};

use refusals::Refusal;

// More channels than a bank takes are refused by the bank; this many fit the buffers.
pub const MOST: usize = 512;

pub const MOST_HOP_BYTES: usize = 6145;

// A whole hop: whether static is heard, and how many bytes it has.
#[derive(Clone, Copy, Debug, PartialEq, Eq)]
pub struct Hop {
    pub is_static: bool,
    pub size: usize,
}

// Why no hop is taken where one is due, refused by a `Refusal` or by another thing that says so.
#[derive(Clone, Copy, Debug, PartialEq, Eq)]
pub enum Stop<E = Refusal> {
    // The recording ends here.
    End,
    // It ends so many bytes into the hop.
    Cut(usize),
    // A flag byte with a bit that means nothing.
    BadFlag(u8),
    // The reader of a log, the bank or the gate refused.
    Refused(E),
}

impl From<Refusal> for Stop {
    ghost from_gives = { λ refusal stop. stop ≡ Refused refusal };

    fn from(refusal: Refusal) -> Stop {
        Stop::Refused(refusal)
    }
}

// How many bytes a hop of n channels takes.
pub fn hop_bytes(n: u16) -> usize
    ensures { result ≡ hop_bytes n }
{
    1 + 12 * usize::from(n)
}

// Where a hop stands: its number and its first byte, from 0.
#[derive(Clone, Copy, Debug, PartialEq, Eq)]
pub struct Place {
    pub hop: u64,
    pub byte: u64,
}

// The first hop stands behind the two bytes of n.
pub fn first_place() -> Place
    ensures { result ≡ place_at 0 2 }
{
    Place { hop: 0, byte: 2 }
}

// The place behind a hop of so many bytes. No recording is so long that a sum wraps.
pub fn next_place(p: Place, size: usize) -> Place
    ensures { result ≡ place_after p size }
{
    Place {
        hop: p.hop.wrapping_add(1),
        // No From leads from usize to u64.
        byte: p.byte.wrapping_add(size as u64),
    }
}

// A slow hop: the bank takes its dB into the rings.
pub fn is_slow(hop: u64) -> bool
    ensures { result ≡ (hop % 15 == 0) }
{
    hop % 15 == 0
}

// What stands where a hop is due: `bytes` is what could be read of one of `size` bytes.
pub fn step_of(bytes: &[u8], size: usize) -> Result<Hop, Stop>
    ensures { result ≡ step_of bytes.now size }
{
    match bytes {
        [] => Err(Stop::End),
        [flag, ..] if *flag > 1 => Err(Stop::BadFlag(*flag)),
        _ if bytes.len() < size => Err(Stop::Cut(bytes.len())),
        [flag, ..] => Ok(Hop {
            is_static: *flag == 1,
            size,
        }),
    }
}

// What stands at place k of a list of values or patterns; past its end there are zeros.
pub fn entry_at<T: Copy>(list: &[T], k: usize, zero: T) -> T
    ensures { result ≡ get_or list.now k zero }
{
    list.get(k).copied().unwrap_or(zero)
}

// The dB values of a hop, behind its flag. This and the next are no one generic function: they differ in where a value stands and in how it is read,
// so it would be lent both, and be longer than the two.
pub fn fill_db(hop: &[u8], db: &mut [f64])
    ensures { db.new ≡ tab (length db.old) (λ k. double_at hop.now (1 + 8 * k)) }
{
    for (k, x) in db.iter_mut().enumerate() {
        *x = low_first::double_at(hop, 1 + 8 * k);
    }
}

// The powers of a hop, behind its n dB values.
pub fn fill_power(hop: &[u8], n: u16, power: &mut [f32])
    ensures { power.new ≡ tab (length power.old) (λ k. single_at hop.now (1 + 8 * n + 4 * k)) }
{
    let first = 1 + 8 * usize::from(n);
    for (k, x) in power.iter_mut().enumerate() {
        *x = low_first::single_at(hop, first + 4 * k);
    }
}
