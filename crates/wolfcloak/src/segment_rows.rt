// The C interface, R-9: which of several band segments is served next.
#![tactic(auto, unfolding(roles::specs::Rights::as_role))]

ghost use Rattle.std.specs.Prelude.{◌≡◌};
ghost use Rattle.roles.specs.Rights.{dispatch, as_role};
ghost use Rattle.dispatch.specs.Dispatch.{dispatch_of, ticked};

pub fn wolfcloak_dispatch(role: u16, count: usize, waiting: u8, last: &mut usize) -> u16
    ensures { (result, last.new) ≡ as_role dispatch role (λ r. (r, last.old)) (ticked last.old (dispatch_of count waiting last.old)) }
{
    if !roles::may(roles::DISPATCHING, role) {
        return roles::STOPPED;
    }
    dispatch::tick(count, waiting, last)
}
