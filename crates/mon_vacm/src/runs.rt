//! Neighbours among families that are of one view, so that a search can pass over all of them.

ghost use Rattle.std.specs.Prelude.{◌≡◌, ◌<◌, ◌≤◌, length, take};
ghost use Rattle.mon_vacm.specs.Runs.{AreOfOneView, AreRuns};

use crate::family::ViewTreeFamily;
use crate::names::is_named;
use std::alloc::Global;

/// How many families each run of neighbours of one view has, from the first on. If memory runs out
/// the last runs are missing.
pub(crate) fn runs_of(alloc: Global, families: &[ViewTreeFamily]) -> Vec<usize>
    ensures { AreRuns result.items families.now }
{
    let mut runs = Vec::new(alloc);
    let mut rest = families;
    while !rest.is_empty() {
        let run = run_len(rest);
        if runs.push(run).is_err() {
            return runs;
        }
        rest = rest.split_at(run).1;
    }
    runs
}

/// How many families, from the first on, are of its view.
fn run_len(families: &[ViewTreeFamily]) -> usize
    requires { 0 < length families.now }
    ensures some { 0 < result }
    ensures within { result ≤ length families.now }
    ensures same { AreOfOneView (take result families.now) }
{
    let view = families[0].view_name.as_slice();
    let mut len = 0;
    for family in families {
        if !is_named(&family.view_name, view) {
            return len;
        }
        len += 1;
    }
    len
}
