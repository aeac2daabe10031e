// Document 01, "Block and bank step": one hop that is not refused, over the two lent stores of a sound bank. That they are one's is `Ready`, a
// clause and no type: it is a fact of both slices at once, so a type that carried it would be a struct of two `&mut`. So is that a hop's lists are as long
// as the bank's n.
#![tactic(auto)]

ghost use Rattle.std.specs.Prelude.{◌≡◌, length, get_or};
ghost use Rattle.model.specs.Bank.{hop, bank_step};
ghost use Rattle.model.specs.Stores.{bank_floats, bank_of};
ghost use Rattle.model.specs.GoodBank.{Ready};
ghost use Rattle.bank_stages.specs.Steps.{Holds, Headed, smooth_step, floor_step, advanced};

use phases::next_phase;

// (a) The smoothed powers: the first hop ever starts them, a held one leaves them.
fn smooth_all(bank_f: &mut [f64], bank: &[u16], power: &[f32], hold_reference: bool)
    requires { Ready bank.now bank_f.old × (length power.now ≡ get_or bank.now 0 0) }
    ensures { bank_f.new ≡ bank_floats (smooth_step hold_reference power.now (bank_of bank.now bank_f.old)) }
{
    let n = power.len();
    let a = 2 * n;
    let e = a + n;
    if bank[2] == 0 {
        powers::start_powers(&mut bank_f[a..e], power);
        return;
    }
    if hold_reference {
        return;
    }
    powers::smooth_powers(&mut bank_f[a..e], power);
}

// (b) A slow hop: seeds, pushes, and the floors that follow from them.
fn floor_hop(bank: &mut [u16], bank_f: &mut [f64], power_db: &[f64])
    requires { Ready bank.old bank_f.old × (length power_db.now ≡ get_or bank.old 0 0) }
    ensures { Holds (floor_step power_db.now (bank_of bank.old bank_f.old)) bank.new bank_f.new }
{
    bank_pushes::take_seeds(bank, bank_f, power_db);
    bank_pushes::push_all(bank, bank_f, power_db);
    bank_floors::raw_floors(bank_f, bank);
    bank_floors::usable_floors(bank_f, bank);
    bank_floors::block_floors(bank_f, bank);
    bank_floors::rise_floors(bank_f, bank);
}

// (c) The phase advances, and the bank has started.
fn advance(bank: &mut [u16])
    requires { Headed bank.old }
    ensures { bank.new ≡ advanced bank.old }
{
    bank[1] = next_phase(bank[1]);
    bank[2] = 1;
}

// One hop that is not refused. Here and above two stores and no struct of them: behind a struct of `&mut` fields, passed by value, an ensures reads
// store.exit.0.now. Nor is there one of a hop's two lists: (a) takes the one and (b) the other.
pub fn take_hop(
    bank: &mut [u16],
    bank_f: &mut [f64],
    power_db: &[f64],
    power: &[f32],
    hold_reference: bool,
)
    requires { Ready bank.old bank_f.old × (length power_db.now ≡ get_or bank.old 0 0) × (length power.now ≡ get_or bank.old 0 0) }
    ensures { Holds (bank_step (bank_of bank.old bank_f.old) (hop hold_reference power_db.now power.now)) bank.new bank_f.new }
{
    smooth_all(bank_f, bank, power, hold_reference);
    if bank[1] == 0 {
        floor_hop(bank, bank_f, power_db);
    }
    advance(bank);
}
