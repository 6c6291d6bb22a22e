//! Labels: what an operator calls a station or a target.

ghost use Rattle.std.specs.Prelude.{◌≡◌, IfOk, map, option_map, string_bytes};

use crate::station_tables::TargetRow;
use std::alloc::{AllocError, Global};
use std::marker::Model;

/// What an operator calls a station or a target, which contracts see as its octets.
pub(crate) struct Label {
    text: String,
}

// By hand: where one is let go, a proof has one call and not a drop of each field.
impl Drop for Label {
    fn drop(self) {
        let Label { text: _ } = self;
    }
}

impl Model for Label {
    ghost use Rattle.std.specs.Prelude.{List, ℕ, string_bytes};

    ghost Value = { List ℕ };

    ghost view = { λ l. string_bytes l.text };
}

impl Label {
    /// Returns the label of this text.
    pub(crate) fn from_str(alloc: Global, text: &str) -> Result<Self, AllocError>
        ensures { IfOk result (λ l. l ≡ text.now) }
    {
        Ok(Label {
            text: String::from_str(alloc, text)?,
        })
    }

    /// Returns the text.
    pub(crate) fn as_str(&self) -> &str
        ensures { result.now ≡ self.now }
    {
        self.text.as_str()
    }

    /// Returns the text, with no copy.
    pub(crate) fn into_string(self) -> String
        ensures { string_bytes result ≡ self }
    {
        let Label { text } = self;
        text
    }
}

/// Returns the texts of the targets' labels, in their order.
pub(crate) fn labels_of(
    alloc: Global,
    targets: &[TargetRow],
) -> Result<Vec<Option<String>>, AllocError>
    ensures { IfOk result (λ v. map (option_map string_bytes) v.items
        ≡ map (λ t. t.label) targets.now) }
{
    let mut labels = Vec::with_capacity(alloc, targets.len())?;
    for target in targets {
        let label = match &target.label {
            None => None,
            Some(label) => Some(String::from_str(alloc, label.as_str())?),
        };
        labels.push(label)?;
    }
    Ok(labels)
}
