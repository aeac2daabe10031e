// The C interface, the row of document 02, R-4.
#![tactic(auto, unfolding(roles::specs::Rights::as_role))]

ghost use Rattle.std.specs.Prelude.{◌≡◌};
ghost use Rattle.roles.specs.Rights.{explain, as_role};
ghost use Rattle.origins.specs.Origins.{explained};
ghost use Rattle.answers.specs.Explained.{explained_answered};

pub fn wolfcloak_explain(
    role: u16,
    bank: &[u16],
    bank_f: &[f64],
    k: usize,
    effective_origin: &mut u8,
    effective: &mut f64,
    rise_origin: &mut u8,
    rise: &mut f64,
) -> u16
    ensures { (result, effective_origin.new, effective.new, rise_origin.new, rise.new) ≡ as_role explain role (λ r. (r, effective_origin.old, effective.old, rise_origin.old, rise.old)) (explained_answered effective_origin.old effective.old rise_origin.old rise.old (explained bank.now bank_f.now k)) }
{
    if !roles::may(roles::EXPLAINING, role) {
        return roles::STOPPED;
    }
    answers::explained::explained_answer(
        explain::explain(bank, bank_f, k),
        effective_origin,
        effective,
        rise_origin,
        rise,
    )
}
