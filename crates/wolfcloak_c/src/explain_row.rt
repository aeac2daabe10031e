// The exports of explain_row.rt of `wolfcloak`.
ghost use Rattle.std.specs.Prelude.{◌≡◌};
ghost use Rattle.roles.specs.Rights.{explain, as_role};
ghost use Rattle.origins.specs.Origins.{explained};
ghost use Rattle.answers.specs.Explained.{explained_answered};

#[unsafe(no_mangle)]
pub extern "C" fn wolfcloak_explain(
    role: u16,
    bank: &[u16],
    bank_f: &[f64],
    k: usize,
    effective_origin: &mut u8,
    effective: &mut f64,
    rise_origin: &mut u8,
    rise: &mut f64,
) -> u16
    ensures { (result, effective_origin.new, effective.new, rise_origin.new, rise.new) ≡ as_role explain role (λ r. (r, effective_origin.old, effective.old, rise_origin.old, rise.old)) (explained_answered effective_origin.old effective.old rise_origin.old rise.old (explained bank.now bank_f.now k)) }
{
    wolfcloak::explain_row::wolfcloak_explain(
        role,
        bank,
        bank_f,
        k,
        effective_origin,
        effective,
        rise_origin,
        rise,
    )
}
