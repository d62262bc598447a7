//! The advisories by name.
ghost use Rattle.std.specs.Prelude.{◌≡◌, ◌<◌, length, position, IfSome};
ghost use Rattle.std.specs.Str.{bytes_eq};

use acas_spec::Advisory;

/// The number of the advisory of a name.
pub fn position_of(advisories: &[Advisory], name: &[u8]) -> Option<usize>
    ensures value { result ≡ position (λ a. bytes_eq a.name name.now) advisories.now }
    ensures range { IfSome result (λ k. k < length advisories.now) }
{
    advisories.iter().position(|a| a.name.bytes() == name)
}
