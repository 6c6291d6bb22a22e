//! Samples that a value owns.

ghost use Rattle.std.specs.Prelude.{◌≡◌};

use mon_sample::Sample;
use std::marker::Model;

/// Samples in an order of their own. Contracts see them as their list.
#[derive(Drop)]
pub struct SampleList {
    items: Vec<Sample>,
}

impl Model for SampleList {
    ghost use Rattle.std.specs.Prelude.{ℕ, List};

    ghost Value = { List ℕ };

    ghost view = { λ s. s.items.items };
}

impl SampleList {
    /// Takes over the samples of a vector. It allocates nothing.
    pub fn new(items: Vec<Sample>) -> Self
        ensures { result ≡ items.items }
    {
        SampleList { items }
    }

    /// The samples, in their order.
    pub fn as_slice(&self) -> &[Sample]
        ensures { result.now ≡ self.now }
    {
        self.items.as_slice()
    }
}
