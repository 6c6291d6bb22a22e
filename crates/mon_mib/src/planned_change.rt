//! One assignment of a Set.

use crate::change::Change;

/// The assignment that a binding asks for.
#[derive(Debug, Drop)]
pub struct PlannedChange {
    /// Which binding, counted from 1.
    pub index: usize,
    /// What it changes.
    pub change: Change,
}
