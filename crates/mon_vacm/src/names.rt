//! Octets that name something: a community, a security name, a group or a view.

ghost use Rattle.std.specs.Prelude.{◌≡◌};
ghost use Rattle.std.specs.Str.{bytes_eq};

use mon_ber::Octets;

/// Returns `true` if these are the octets of the name.
pub(crate) fn is_named(name: &Octets, octets: &[u8]) -> bool
    ensures { result ≡ bytes_eq name.now octets.now }
{
    name.as_slice() == octets
}
