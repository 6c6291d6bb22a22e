//! The system's network.

ghost use Rattle.std.specs.Prelude.{◌≡◌};

/// The system's network.
#[derive(Clone, Copy)]
pub struct SystemNetwork<'a, R> {
    /// What opens its sockets, and has its clock.
    pub rt: &'a R,
}

impl<'a, R> SystemNetwork<'a, R> {
    /// Returns the network of the operating system.
    pub fn new(rt: &'a R) -> Self
        ensures { result.rt.now ≡ rt.now }
    {
        SystemNetwork { rt }
    }
}
