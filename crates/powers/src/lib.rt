// The smoothed linear powers, one for each channel.
#![tactic(auto)]

ghost use Rattle.std.specs.Prelude.{◌≡◌, length, slice_index_or};
ghost use Rattle.laws.specs.Lists.{tab};
ghost use Rattle.model.specs.Numbers.{f0, power_linear, smoothed};

const GATE_EMA_ALPHA: f64 = 0.0645;

pub fn power_linear(p: f32) -> f64
    ensures { result ≡ power_linear p }
{
    std::num::f32_to_f64_with_nan(p) + 1e-20
}

pub fn smooth_step(s: f64, x: f64) -> f64
    ensures { result ≡ smoothed s x }
{
    s + GATE_EMA_ALPHA * (x - s)
}

// The powers themselves: the bank's on its first hop ever, and the samples of the gate's windows on each. Two loops, here and below: one that took
// what it writes as a closure would still be called by these two functions, whose contracts stay.
pub fn start_powers(smooth: &mut [f64], power: &[f32])
    requires { length power.now ≡ length smooth.old }
    ensures { smooth.new ≡ tab (length smooth.old) (λ k. power_linear (slice_index_or power.now k f0)) }
{
    // By the place, and not by a zip of `iter_mut` with the powers: of what such a zip writes a proof knows nothing.
    for (k, &p) in power.iter().enumerate() {
        smooth[k] = power_linear(p);
    }
}

// Every later hop that is not held.
pub fn smooth_powers(smooth: &mut [f64], power: &[f32])
    requires { length power.now ≡ length smooth.old }
    ensures { smooth.new ≡ tab (length smooth.old) (λ k. smoothed (slice_index_or smooth.old k f0) (power_linear (slice_index_or power.now k f0))) }
{
    // By the place, and not by a zip of `iter_mut` with the powers: of what such a zip writes a proof knows nothing.
    for (k, &p) in power.iter().enumerate() {
        smooth[k] = smooth_step(smooth[k], power_linear(p));
    }
}
