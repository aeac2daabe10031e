// The exports of segment_rows.rt of `wolfcloak`.
ghost use Rattle.std.specs.Prelude.{◌≡◌};
ghost use Rattle.roles.specs.Rights.{dispatch, as_role};
ghost use Rattle.dispatch.specs.Dispatch.{dispatch_of, ticked};

#[unsafe(no_mangle)]
pub extern "C" fn wolfcloak_dispatch(role: u16, count: usize, waiting: u8, last: &mut usize) -> u16
    ensures { (result, last.new) ≡ as_role dispatch role (λ r. (r, last.old)) (ticked last.old (dispatch_of count waiting last.old)) }
{
    wolfcloak::segment_rows::wolfcloak_dispatch(role, count, waiting, last)
}
