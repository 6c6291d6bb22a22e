//! How the names of variables are printed.

use crate::labels::Labels;
use mon_oid::Oid;
use std::alloc::{AllocError, Global};

/// How the names of variables are printed, and the identifiers among their values.
pub trait NameTexts {
    ghost use Rattle.std.specs.Prelude.{◌≡◌, ℕ, List, IfOk, string_bytes};

    // The text of an identifier.
    ghost shown: { Self → List ℕ → List ℕ };

    /// The text of the identifier.
    fn text(&self, alloc: Global, oid: &Oid) -> Result<String, AllocError>
        ensures { IfOk result (λ text. string_bytes text ≡ shown self.now oid.now) };
}

/// In decimal numbers with dots between them, as `1.3.6.1.2.1.1.5.0`.
#[derive(Clone, Copy, Debug, PartialEq, Eq)]
pub struct InNumbers;

impl NameTexts for InNumbers {
    ghost use Rattle.mon_oid.specs.Oid.{dotted};

    ghost shown = { λ _ oid. dotted oid };

    fn text(&self, alloc: Global, oid: &Oid) -> Result<String, AllocError> {
        oid.text(alloc)
    }
}

/// By the nearest name and the rest in numbers, as `sysName.0`.
impl NameTexts for Labels<'_> {
    ghost use Rattle.mon_smi.specs.Labels.{name_text};

    ghost shown = { λ labels oid. name_text labels oid };

    fn text(&self, alloc: Global, oid: &Oid) -> Result<String, AllocError> {
        self.name_of(alloc, oid)
    }
}
