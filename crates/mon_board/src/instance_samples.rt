ghost use Rattle.std.specs.Prelude.{◌≡◌, ◌∷◌, ◌++◌, [], OnErr, OnOk};

use mon_sample::Sample;
use std::alloc::{AllocError, Global};
use std::marker::Model;

/// Samples in their order, each with the number of its instance. Contracts see them as a list of
/// pairs.
#[derive(Drop)]
pub struct InstanceSamples {
    items: Vec<(u16, Sample)>,
}

impl Model for InstanceSamples {
    ghost use Rattle.std.specs.Prelude.{ℕ, List};

    ghost Value = { List (ℕ × ℕ) };

    ghost view = { λ p. p.items.items };
}

impl InstanceSamples {
    /// Returns no pairs. It allocates nothing.
    pub fn new(alloc: Global) -> Self
        ensures { result ≡ [] }
    {
        InstanceSamples {
            items: Vec::new(alloc),
        }
    }

    /// Adds a pair after the others.
    pub fn push(&mut self, instance: u16, sample: Sample) -> Result<(), AllocError>
        ensures pushed { OnOk result (self.new ≡ self.old ++ (instance, sample) ∷ []) }
        ensures same { OnErr result (self.new ≡ self.old) }
    {
        self.items.push((instance, sample))?;
        Ok(())
    }

    /// The pairs, in their order.
    pub fn as_slice(&self) -> &[(u16, Sample)]
        ensures { result.now ≡ self.now }
    {
        self.items.as_slice()
    }
}
