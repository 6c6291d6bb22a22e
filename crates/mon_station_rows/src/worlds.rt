//! Worlds of stations, and steps that are run in one.

use crate::setting::core;
use mon_row_texts::{parsed, put_refused, two};
use mon_world::{Step, World};
use std::alloc::Global;

/// Makes the world of a line `COUNT SHARES`, of COUNT stations, in which the first offers the
/// second what it owes, SHARES times, and each of these datagrams is delivered; the steps are made
/// in one run. Says how many of them were made and how many datagrams were sent, or why there is no
/// such world.
pub fn world(alloc: Global, text: &mut String, line: &str) -> Option<()> {
    let (count, shares) = two(line, ' ')?;
    let (count, shares) = (parsed(count)?, parsed(shares)?);
    let core = core(alloc, "8")?;
    let mut world = match World::new(alloc, &core, count) {
        Ok(world) => world,
        Err(why) => return put_refused(text, why.number(), why.name()),
    };
    let steps = steps(alloc, shares)?;
    let results = world.run(steps.as_slice()).ok()?;
    let (mut made, mut sent) = (0, 0);
    for result in results.as_slice() {
        if let Ok(datagrams) = result {
            made = u64::saturating_add(made, 1);
            sent = u64::saturating_add(sent, datagrams.count);
        }
    }
    write!(text, "{made} made, {sent} sent").ok()
}

/// Makes the shares, and the deliveries of what they send.
fn steps(alloc: Global, shares: u64) -> Option<Vec<Step<'static>>> {
    let mut steps = Vec::new(alloc);
    for _ in 0..shares {
        steps.push(Step::Share(1, 2)).ok()?;
    }
    for place in 0..shares {
        steps.push(Step::Deliver(place.saturating_add(1))).ok()?;
    }
    Some(steps)
}
