// The stores of a recording, made.
#![tactic(auto)]

ghost use Rattle.std.specs.Prelude.{◌≡◌};
ghost use Rattle.refusals.specs.Numbers.{answer};
ghost use Rattle.watch_stores.specs.Made.{made, worst_made};

use refusals::Refusal;
use watch_levels::{early_signed, signed};
use watch_words::Settings;

// The stores of a bank, of the worst floor of late and of a gate, lent together. Where a function says what it makes of them it takes the slices:
// behind a struct its clause would read stores.new.bank.now for bank.new.
#[derive(Drop)]
pub struct Stores<'a> {
    pub bank: &'a mut [u16],
    pub bank_f: &'a mut [f64],
    pub worst: &'a mut [u16],
    pub worst_f: &'a mut [f64],
    pub gate: &'a mut [u16],
    pub gate_f: &'a mut [f64],
}

// The same, lent to be read alone.
#[derive(Clone, Copy)]
pub struct Seen<'a> {
    pub bank: &'a [u16],
    pub bank_f: &'a [f64],
    pub worst: &'a [u16],
    pub worst_f: &'a [f64],
    pub gate: &'a [u16],
    pub gate_f: &'a [f64],
}

impl<'a> Stores<'a> {
    pub fn seen(&self) -> Seen<'_>
        ensures banks { (result.bank.now ≡ self.now.bank.now) × (result.bank_f.now ≡ self.now.bank_f.now) }
        ensures worsts { (result.worst.now ≡ self.now.worst.now) × (result.worst_f.now ≡ self.now.worst_f.now) }
        ensures gates { (result.gate.now ≡ self.now.gate.now) × (result.gate_f.now ≡ self.now.gate_f.now) }
    {
        Seen {
            bank: self.bank,
            bank_f: self.bank_f,
            worst: self.worst,
            worst_f: self.worst_f,
            gate: self.gate,
            gate_f: self.gate_f,
        }
    }
}

// A fresh bank and a fresh gate. The window lengths stand beside the settings, as any list: a gate refuses those that it can't have, more than eight
// among them, and the settings hold no more than eight.
pub fn make(
    s: Settings,
    lengths: &[u16],
    n: u16,
    bank: &mut [u16],
    bank_f: &mut [f64],
    gate: &mut [u16],
    gate_f: &mut [f64],
) -> Result<(), Refusal>
    ensures { (answer result, bank.new, bank_f.new, gate.new, gate_f.new) ≡ made s lengths.now n bank.old bank_f.old gate.old gate_f.old }
{
    let channels = usize::from(n);
    bank_making::bank_new(bank, bank_f, channels)?;
    gate_making::gate_new(
        gate,
        gate_f,
        channels,
        signed(s.on),
        signed(s.off),
        early_signed(s.early),
        lengths,
    )
}

// Beside them a fresh store of the worst floor of late, where it is to be kept.
#[tactic(auto, unfolding(crate::specs::Made::worst_made))]
pub fn make_worst(
    s: Settings,
    n: u16,
    worst: &mut [u16],
    worst_f: &mut [f64],
) -> Result<(), Refusal>
    ensures { (answer result, worst.new, worst_f.new) ≡ worst_made s.worst n worst.old worst_f.old }
{
    match s.worst {
        Some(span) => worst_store::worst_new(worst, worst_f, usize::from(n), span),
        None => Ok(()),
    }
}
