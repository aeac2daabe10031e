// The C interface, the row of two antennas (document 02, R-8).
#![tactic(auto, unfolding(roles::specs::Rights::as_role))]

ghost use Rattle.std.specs.Prelude.{◌≡◌};
ghost use Rattle.roles.specs.Rights.{log_combine, as_role};
ghost use Rattle.combine_model.specs.Combined.{combined};
ghost use Rattle.log_answers.specs.LogAnswers.{write_answered};

pub fn wolfcloak_log_combine(
    role: u16,
    first: &[u8],
    second: &[u8],
    log: &mut [u8],
    len: &mut usize,
) -> u16
    ensures { (result, len.new, log.new) ≡ as_role log_combine role (λ r. (r, len.old, log.old)) (write_answered len.old (combined first.now second.now log.old)) }
{
    if !roles::may(roles::LOGGING, role) {
        return roles::STOPPED;
    }
    refusals::value_answer(log_combine::log_combine(first, second, log), len)
}
