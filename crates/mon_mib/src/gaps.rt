//! What a view hides of the variables, as far as the searches for one request have found out.

ghost use Rattle.std.specs.Prelude.{IsTrue, IfSome};
ghost use Rattle.mon_mib.specs.Order.{IsFrom};

use crate::object::Object;
use crate::start::Start;

/// Instances of an object that a view hides: from a start on up to the least one in view, or all
/// where none is.
#[derive(Clone, Copy)]
pub(crate) struct Gap {
    pub object: Object,
    pub start: Start,
    pub least: Option<u32>,
}

impl Gap {
    ghost use Rattle.mon_mib.specs.Gaps.{Covers};

    /// Returns `true` if the object's instances from a start on begin in the gap. Then the gap's
    /// end is the least of them in view too.
    pub(crate) fn covers(&self, object: Object, start: Start) -> bool
        ensures { IsTrue result → Covers object start self.now }
    {
        self.object == object && start.is_after(self.start) && has_end(start, self.least)
    }
}

/// Returns `true` if the end of a gap, if there is one, is from a start on.
fn has_end(start: Start, end: Option<u32>) -> bool
    ensures { IsTrue result → IfSome end (IsFrom start) }
{
    match end {
        Some(instance) => start.has(instance),
        None => true,
    }
}
