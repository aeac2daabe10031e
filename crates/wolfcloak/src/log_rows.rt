// The C interface, the rows of the hop log (document 02, R-1). Hops are bit patterns.
#![tactic(auto, unfolding(roles::specs::Rights::as_role))]

ghost use Rattle.std.specs.Prelude.{◌≡◌};
ghost use Rattle.roles.specs.Rights.{log_write, log_channels, log_read, as_role};
ghost use Rattle.log_model.specs.Format.{written};
ghost use Rattle.log_model.specs.Read.{channels, read_hop};
ghost use Rattle.refusals.specs.Readings.{answered};
ghost use Rattle.log_answers.specs.LogAnswers.{write_answered, read_answered};

pub fn wolfcloak_log_write(
    role: u16,
    n: usize,
    db_bits: &[u64],
    power_bits: &[u32],
    log: &mut [u8],
    len: &mut usize,
) -> u16
    ensures { (result, len.new, log.new) ≡ as_role log_write role (λ r. (r, len.old, log.old)) (write_answered len.old (written n db_bits.now power_bits.now log.old)) }
{
    if !roles::may(roles::LOGGING, role) {
        return roles::STOPPED;
    }
    refusals::value_answer(log_write::log_write(n, db_bits, power_bits, log), len)
}

pub fn wolfcloak_log_channels(role: u16, log: &[u8], n: &mut usize) -> u16
    ensures { (result, n.new) ≡ as_role log_channels role (λ r. (r, n.old)) (answered n.old (channels log.now)) }
{
    if !roles::may(roles::LOGGING, role) {
        return roles::STOPPED;
    }
    refusals::value_answer(log_read::log_channels(log), n)
}

pub fn wolfcloak_log_read(
    role: u16,
    log: &[u8],
    position: &mut usize,
    db_bits: &mut [u64],
    power_bits: &mut [u32],
) -> u16
    ensures { (result, position.new, db_bits.new, power_bits.new) ≡ as_role log_read role (λ r. (r, position.old, db_bits.old, power_bits.old)) (read_answered position.old (read_hop log.now position.old db_bits.old power_bits.old)) }
{
    if !roles::may(roles::LOGGING, role) {
        return roles::STOPPED;
    }
    let at = *position;
    log_answers::read_answer(log_read::log_read(log, at, db_bits, power_bits), position)
}
