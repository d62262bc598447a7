//! The weights of sigma points.
ghost use Rattle.std.specs.Prelude.{◌≡◌, ◌*◌, ◌≤◌, length, sum_by, unsigned_abs};
ghost use Rattle.std.specs.List.{AllByRecursion};
ghost use Rattle.acas_spec.specs.Model.{weight_of};
ghost use Rattle.acas_spec.specs.Limits.{IsSigma};

use acas_spec::SigmaPoint;
use acas_units::{GREATEST_SIGMAS, GREATEST_WEIGHT};

/// The weight of a sigma point, without its sign.
fn weight_of(sigma: &SigmaPoint) -> u32
    requires { IsSigma sigma.now }
    ensures value { result ≡ weight_of sigma.now }
    ensures high { result ≤ unsigned_abs GREATEST_WEIGHT }
{
    sigma.weight as u32
}

/// The sum of the weights.
pub fn total_weight(sigmas: &[SigmaPoint]) -> u32
    requires weights { AllByRecursion IsSigma sigmas.now }
    requires few { length sigmas.now ≤ GREATEST_SIGMAS }
    ensures value { result ≡ sum_by weight_of sigmas.now }
    ensures high { result ≤ GREATEST_SIGMAS * unsigned_abs GREATEST_WEIGHT }
{
    let mut total = 0;
    for sigma in sigmas {
        total += weight_of(sigma);
    }
    total
}
