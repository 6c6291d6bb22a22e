//! Which target is polled for an instance.

ghost use Rattle.std.specs.Prelude.{◌≡◌, ◌==◌, ◌≤◌, IfOk, length};
ghost use Rattle.std.specs.List.{list_any};
ghost use Rattle.mon_rounds.specs.Polled.{polled_targets, polls, target_for};

use mon_config::Core;
use mon_poller::Target;
use std::alloc::{AllocError, Global};

/// Returns of each instance of the watch, in their order, the number of the target that is polled
/// for it, from 0.
pub fn polled_targets(alloc: Global, core: &Core) -> Result<Vec<Option<u16>>, AllocError>
    ensures { IfOk result (λ v. v.items ≡ polled_targets core.now) }
{
    let count = core.watch().instances().len();
    let mut polled = Vec::with_capacity(alloc, count)?;
    for number in 0..count {
        polled.push(target_for(core.targets(), number))?;
    }
    Ok(polled)
}

/// Returns the number of the target that is polled for the instance of this number.
fn target_for(targets: &[Target], instance: usize) -> Option<u16>
    requires { length targets.now ≤ 64 }
    ensures { result ≡ target_for targets.now instance }
{
    for number in 0..targets.len() {
        if polls(&targets[number], instance) {
            return Some(number as u16);
        }
    }
    None
}

/// Returns `true` if a target is polled for the instance of this number.
fn polls(target: &Target, instance: usize) -> bool
    ensures { result ≡ polls instance target.now }
{
    target
        .objects
        .as_slice()
        .iter()
        .any(|object| usize::from(object.instance) == instance)
}
