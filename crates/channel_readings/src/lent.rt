// What a reading is lent. It stands in a file of its own, since the struct may not cite what names it.

ghost use Rattle.channel_readings.specs.Readable.{Readable};

// Channel k of a lent bank that is not refused.
#[derive(Clone, Copy)]
pub struct Channel<'a> {
    pub bank: &'a [u16],
    pub bank_f: &'a [f64],
    pub k: usize,
    pub ghost readable: { Readable bank.now bank_f.now k },
}
