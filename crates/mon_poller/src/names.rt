//! Names as they are spelled in datagrams.

ghost use Rattle.std.specs.Prelude.{◌≡◌};

use mon_ber::Octets;
use std::marker::Model;

/// Spelled names, in an order. Contracts see the list of their octets.
#[derive(Drop)]
pub(crate) struct Names {
    items: Vec<Octets>,
}

impl Model for Names {
    ghost use Rattle.std.specs.Prelude.{ℕ, List};

    ghost Value = { List (List ℕ) };

    ghost view = { λ n. n.items.items };
}

impl Names {
    /// These names, in this order.
    pub(crate) fn new(items: Vec<Octets>) -> Self
        ensures { result ≡ items.items }
    {
        Names { items }
    }

    /// The names, in their order.
    pub(crate) fn as_slice(&self) -> &[Octets]
        ensures { result.now ≡ self.now }
    {
        self.items.as_slice()
    }
}
