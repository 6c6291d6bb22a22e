//! Why an instance has no new sample though its target answers.

ghost use Rattle.std.specs.Prelude.{◌≡◌, IfOk, slice_get};
ghost use Rattle.mon_rounds.specs.Explained.{address_for, stale_reason};

use crate::freshness::{Freshness, InstanceAge, TargetAge};
use mon_board::Board;
use mon_reasons::{NewestDatagrams, Reason};
use mon_udp::Addr;
use std::alloc::{AllocError, Global};

/// Returns why the newest message of its target gave the instance of this number no sample newer
/// than the one that the board has. Returns `None` if no such message is known, or no reason is in
/// it.
///
/// # Errors
/// `AllocError` if memory is refused.
pub fn explain_stale(
    alloc: Global,
    latest: &NewestDatagrams,
    freshness: &Freshness,
    board: &Board,
    number: usize,
) -> Result<Option<Reason>, AllocError>
    ensures { IfOk result (λ r. r ≡ stale_reason latest.now.datagrams.items freshness.now board.now
        number) }
{
    let Some(watched) = board.watch().instances().get(number) else {
        return Ok(None);
    };
    let (targets, instances) = (freshness.targets(), freshness.instances());
    let Some(from) = address_for(targets, instances, number) else {
        return Ok(None);
    };
    let newest = board.items(number as u16).last().copied();
    latest.reason(alloc, from, watched, newest)
}

/// Returns the address of the target that is polled for the instance of this number, if there is
/// one.
fn address_for(targets: &[TargetAge], instances: &[InstanceAge], number: usize) -> Option<Addr>
    ensures { result ≡ address_for targets.now (slice_get instances.now number) }
{
    let instance = instances.get(number)?;
    let target = instance.target?;
    match targets.get(usize::from(target)) {
        Some(target) => Some(target.address),
        None => None,
    }
}
