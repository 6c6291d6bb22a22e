ghost use Rattle.std.specs.Prelude.{◌≡◌, IfOk};

use std::alloc::{AllocError, Global};
use std::marker::Model;

/// Sub-identifiers of 32 bits that a definition owns. Contracts see their list.
#[derive(Debug, Drop)]
pub struct Numbers {
    items: Vec<u32>,
}

impl Model for Numbers {
    ghost use Rattle.std.specs.Prelude.{List, ℕ};

    ghost Value = { List ℕ };

    ghost view = { λ n. n.items.items };
}

impl Numbers {
    /// These numbers.
    pub fn new(items: Vec<u32>) -> Self
        ensures { result ≡ items.items }
    {
        Numbers { items }
    }

    /// These numbers. An `Err` means out of memory.
    pub fn from_slice(alloc: Global, numbers: &[u32]) -> Result<Self, AllocError>
        ensures { IfOk result (λ n. n ≡ numbers.now) }
    {
        Ok(Numbers {
            items: Vec::from_slice(alloc, numbers)?,
        })
    }

    /// The numbers in order.
    pub fn as_slice(&self) -> &[u32]
        ensures { result.now ≡ self.now }
    {
        self.items.as_slice()
    }
}
