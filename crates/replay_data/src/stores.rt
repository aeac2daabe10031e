// The stores of a bank and a gate, and the marks of a hop.

ghost use Rattle.std.specs.Prelude.{◌≡◌};

// Taken by value and apart at once by whom it is for: a call that reads one of them and writes another is not covered behind a reference to all.
#[derive(Drop)]
pub struct Stores<'a> {
    pub bank: &'a mut [u16],
    pub bank_f: &'a mut [f64],
    pub gate: &'a mut [u16],
    pub gate_f: &'a mut [f64],
    pub rise: &'a mut [u8],
    pub drop: &'a mut [u8],
}

// The same for a gate's record: of the bank it only reads.
#[derive(Drop)]
pub struct GateStores<'a> {
    pub bank: &'a [u16],
    pub bank_f: &'a [f64],
    pub gate: &'a mut [u16],
    pub gate_f: &'a mut [f64],
    pub rise: &'a mut [u8],
    pub drop: &'a mut [u8],
}

impl<'a> Stores<'a> {
    pub fn of_gate(self) -> GateStores<'a>
        ensures bank { (result.bank.now ≡ self.entry.bank.now) × (result.bank_f.now ≡ self.entry.bank_f.now) }
        ensures gate { (result.gate ≡ self.entry.gate) × (result.gate_f ≡ self.entry.gate_f) }
        ensures marks { (result.rise ≡ self.entry.rise) × (result.drop ≡ self.entry.drop) }
    {
        let Stores {
            bank,
            bank_f,
            gate,
            gate_f,
            rise,
            drop,
        } = self;
        GateStores {
            bank,
            bank_f,
            gate,
            gate_f,
            rise,
            drop,
        }
    }
}
