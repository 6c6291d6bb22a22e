//! The plan of a Set: what its second phase assigns.

ghost use Rattle.std.specs.Prelude.{◌≡◌, IfOk, IfErr, vec_capacity};
ghost use Rattle.mon_mib.specs.Assignment.{AreApart};

use crate::planned_change::PlannedChange;
use crate::set_fault::SetFault;
use std::alloc::Global;
use std::collections::VecDeque;
use std::marker::Model;

/// The assignments of a Set in their order, with the new texts, and the capacity for undoing them.
/// No two change the same thing. Contracts see the list of the assignments.
#[derive(Drop)]
pub struct SetPlan {
    pub(crate) steps: VecDeque<PlannedChange>,
    pub(crate) undos: Vec<PlannedChange>,
    pub(crate) standing: Vec<usize>,
}

impl Model for SetPlan {
    ghost use Rattle.std.specs.Prelude.{List, vec_capacity};
    ghost use Rattle.mon_mib.specs.declared.planned_change.PlannedChange.{PlannedChange};
    ghost use Rattle.mon_mib.specs.Plan.{HasRoomToUndo};

    ghost Value = { List PlannedChange };

    ghost view = { λ p. p.steps.items };

    ghost invariant = { λ p. HasRoomToUndo p.steps.items p.undos.items p.standing.items
        (vec_capacity p.undos) (vec_capacity p.standing) };
}

impl SetPlan {
    /// The plan of these assignments.
    pub(crate) fn new(alloc: Global, steps: VecDeque<PlannedChange>) -> Result<Self, SetFault>
        requires { AreApart steps.items }
        ensures plan { IfOk result (λ plan. plan ≡ steps.items) }
        ensures memory { IfErr result (λ fault. fault ≡ SetFault.OutOfMemory) }
    {
        let undos = Vec::with_capacity(alloc, steps.len())?;
        let standing = Vec::with_capacity(alloc, steps.len())?;
        Ok(SetPlan {
            steps,
            undos,
            standing,
        })
    }
}
