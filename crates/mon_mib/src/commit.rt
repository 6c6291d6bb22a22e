//! The second phase of a Set: assigning, and undoing what was assigned where one fails (RFC 3416
//! section 4.2.5).

ghost use Rattle.std.specs.Prelude.{◌≡◌, ℕ, ◌+◌, ◌<◌, ◌≤◌, List, [], ◌∷◌, ◌++◌, IfErr, OnOk, OnErr, vec_len, vec_capacity};
ghost use Rattle.mon_mib.specs.declared.planned_change.PlannedChange.{PlannedChange as AnyStep};
ghost use Rattle.mon_mib.specs.Assignment.{AreApart};
ghost use Rattle.mon_mib.specs.Change.{changed, undoing, one_failure};
ghost use Rattle.mon_mib.specs.Commit.{changes, undoings, IsUndone, IsCommitted, failures_by_then, undo_failures};
ghost use Rattle.mon_mib.specs.Held.{Held};
ghost use Rattle.mon_mib.specs.Undone.{IsUndoneOrStands};

use crate::device::Device;
use crate::planned_change::PlannedChange;
use crate::set_plan::SetPlan;

/// What the second phase of a Set has come to.
#[derive(Drop)]
pub enum Commit {
    /// All is assigned.
    Done,
    /// The assignment of the binding of this number failed, and all earlier ones were undone.
    CommitFailed(usize),
    /// An assignment failed, and so did the undoing of some earlier ones.
    UndoFailed {
        /// The number of the binding whose assignment failed.
        failed: usize,
        /// The numbers of the bindings that remain assigned, the last assigned first.
        standing: Vec<usize>,
    },
}

/// Assigns one after another. Where one fails, those before are undone.
pub(crate) fn assign_all<D: Device>(device: &mut D, plan: SetPlan) -> Commit
    ensures outcome { IsCommitted D.held D.refuses plan (D.held device.old) (D.held device.new)
        result }
    ensures failures { D.failed device.new ≡ failures_by_then result (D.failed device.old) }
{
    let SetPlan {
        steps,
        undos,
        standing,
    } = plan;
    let mut steps = steps;
    let mut undos = undos;
    while let Some(step) = steps.pop_front() {
        if let Err(failed) = assign_one(device, step, &mut undos) {
            return undo_all(device, failed, undos, standing);
        }
    }
    Commit::Done
}

/// Assigns, and keeps what undoes it. If that fails, the binding's number is returned.
fn assign_one<D: Device>(
    device: &mut D,
    step: PlannedChange,
    undos: &mut Vec<PlannedChange>,
) -> Result<(), usize>
    requires { vec_len undos.old < vec_capacity undos.old }
    ensures made { OnOk result (D.held device.new ≡ changed step.change (D.held device.old)) }
    ensures undo { OnOk result (undos.new.items ≡ undos.old.items
        ++ record { index = step.index; change = undoing step.change (D.held device.old) } ∷ []) }
    ensures quiet { OnOk result (D.failed device.new ≡ D.failed device.old) }
    ensures kept { OnErr result (D.held device.new ≡ D.held device.old) }
    ensures number { IfErr result (λ failed. failed ≡ step.index) }
    ensures refused { OnErr result (D.refuses device.old step.change) }
    ensures counted { OnErr result (D.failed device.new ≡ one_failure (D.failed device.old)) }
    ensures same { OnErr result (undos.new ≡ undos.old) }
    ensures capacity { vec_capacity undos.old ≤ vec_capacity undos.new }
{
    let PlannedChange { index, change } = step;
    let Ok(undo) = device.apply(change) else {
        return Err(index);
    };
    let undo = PlannedChange {
        index,
        change: undo,
    };
    undos.push(undo).unwrap();
    Ok(())
}

/// Undoes what was assigned, the last first, after an assignment failed.
fn undo_all<D: Device>(
    device: &mut D,
    failed: usize,
    undos: Vec<PlannedChange>,
    standing: Vec<usize>,
) -> Commit
    requires room { vec_len undos ≤ vec_capacity standing }
    requires none { standing.items ≡ [] }
    ensures outcome { (done : List AnyStep) (before : Held) → AreApart done
        → undos.items ≡ undoings done before → D.held device.old ≡ changes done before
        → IsUndone D.held D.refuses done before (D.held device.new) failed result }
    ensures failures { D.failed device.new ≡ undo_failures result (D.failed device.old) }
{
    let mut undos = undos;
    let mut standing = standing;
    while let Some(undo) = undos.pop() {
        undo_one(device, undo, &mut standing);
    }
    if standing.is_empty() {
        Commit::CommitFailed(failed)
    } else {
        Commit::UndoFailed { failed, standing }
    }
}

/// Undoes one assignment, or lists the binding's number.
fn undo_one<D: Device>(device: &mut D, undo: PlannedChange, standing: &mut Vec<usize>)
    requires { vec_len standing.old < vec_capacity standing.old }
    ensures how { IsUndoneOrStands D.held D.refuses D.failed undo device.old device.new
        standing.old.items standing.new.items }
    ensures len { vec_len standing.new ≤ vec_len standing.old + 1 }
    ensures capacity { vec_capacity standing.old ≤ vec_capacity standing.new }
{
    let PlannedChange { index, change } = undo;
    let Err(_) = device.apply(change) else {
        return;
    };
    standing.push(index).unwrap();
}
