ghost use Rattle.std.specs.Prelude.{◌≡◌, IfOk};

use crate::numbers::Numbers;
use crate::word::Word;
use std::alloc::{AllocError, Global};
use std::marker::Model;

/// A value's name with the identifier that it is assigned (RFC 2578 section 3.1): the identifier of
/// its parent, where it has one, and then numbers of its own.
#[derive(Debug)]
pub struct Definition {
    /// The name that is defined.
    pub name: Word,
    /// The name whose identifier comes first.
    pub parent: Option<Word>,
    /// The sub-identifiers after the parent's.
    pub numbers: Numbers,
}

// By hand: where one is let go, a proof has one call and not a drop of each field.
impl Drop for Definition {
    fn drop(self) {
        let Definition {
            name: _,
            parent: _,
            numbers: _,
        } = self;
    }
}

impl Definition {
    /// An equal definition. An `Err` means out of memory.
    pub fn try_clone(&self, alloc: Global) -> Result<Self, AllocError>
        ensures { IfOk result (λ d. d ≡ self.now) }
    {
        let name = self.name.try_clone(alloc)?;
        let parent = match &self.parent {
            Some(parent) => Some(parent.try_clone(alloc)?),
            None => None,
        };
        let numbers = Numbers::from_slice(alloc, self.numbers.as_slice())?;
        Ok(Definition {
            name,
            parent,
            numbers,
        })
    }
}

/// Definitions in the order of their text. Contracts see their list.
#[derive(Debug, Drop)]
pub struct Definitions {
    items: Vec<Definition>,
}

impl Model for Definitions {
    ghost use Rattle.std.specs.Prelude.{List};
    ghost use Rattle.mon_smi.specs.declared.definition.Definition.{Definition};

    ghost Value = { List Definition };

    ghost view = { λ d. d.items.items };
}

impl Definitions {
    /// These definitions.
    pub fn new(items: Vec<Definition>) -> Self
        ensures { result ≡ items.items }
    {
        Definitions { items }
    }

    /// The definitions in order.
    pub fn as_slice(&self) -> &[Definition]
        ensures { result.now ≡ self.now }
    {
        self.items.as_slice()
    }
}

/// A module of definitions (RFC 2578 section 3).
#[derive(Debug)]
pub struct Module {
    /// The name of the module, as `IF-MIB`.
    pub name: Word,
    /// What it defines.
    pub defs: Definitions,
}

// By hand: where one is let go, a proof has one call and not a drop of each field.
impl Drop for Module {
    fn drop(self) {
        let Module { name: _, defs: _ } = self;
    }
}
