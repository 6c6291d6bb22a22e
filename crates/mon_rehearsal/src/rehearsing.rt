//! Rehearsals.

ghost use Rattle.std.specs.Prelude.{◌≡◌, ◌≤◌, List, IfErr, IfOk, OnOk, length};
ghost use Rattle.mon_world.specs.Moves.{Move};
ghost use Rattle.mon_world.specs.Places.{setting_at};
ghost use Rattle.mon_world.specs.Shows.{Shows};
ghost use Rattle.mon_rehearsal.specs.declared.fault.RehearsalFault.TheVariants as fault;
ghost use Rattle.mon_rehearsal.specs.Rehearsed.{HaveBeenMade, IsRehearsal};
ghost use Rattle.mon_rehearsal.specs.Script.{Says, lines_of};
ghost use Rattle.mon_rehearsal.specs.ScriptFault.{IsFaultOfRehearsal};

use crate::fault::RehearsalFault;
use crate::printed::{put_stations, put_step};
use crate::script::{ScriptStep, read_script};
use mon_config::Core;
use mon_world::{World, WorldFault};
use std::alloc::Global;

/// Rehearses a script over a world of this many stations with this core's watch and targets,
/// numbered from 1, on disks in memory. The whole script is read before the first step. A line says
/// of each step what it sent, or why it was refused; then follows of each station its incarnation,
/// what it owes each other station, and its report. Where no step forges a claim, what they say of
/// their debts is true.
///
/// # Errors
/// `BadScript` with the number of the first line that says no step; `World` where the stations were
/// not opened; `OutOfMemory`, also where a step ran out of memory: what is printed never depends on
/// how much there is.
pub fn rehearse(
    alloc: Global,
    core: &Core,
    count: u32,
    script: &[u8],
) -> Result<Vec<u8>, RehearsalFault>
    requires few { count ≤ 16 }
    requires some { 1 ≤ count }
    ensures printed { IfOk result (λ text. IsRehearsal core.now count (lines_of script.now)
        text.items) }
    ensures fault { IfErr result (IsFaultOfRehearsal Says count (lines_of script.now)) }
{
    let steps = read_script(alloc, script)?;
    let mut world = World::new(alloc, core, count)?;
    let mut text = Vec::new(alloc);
    make_steps(alloc, &mut world, steps.as_slice(), &mut text)?;
    mon_world::laws::unforged();
    world.debts();
    put_stations(alloc, &mut text, &world, count)?;
    Ok(text)
}

/// Makes the steps in order, and writes a line of each.
fn make_steps(
    alloc: Global,
    world: &mut World,
    steps: &[ScriptStep],
    text: &mut Vec<u8>,
) -> Result<(), RehearsalFault>
    ensures made { OnOk result ((past : List Move) → Shows world.old.core world.old.stations.items
        world.old.sent.items past
        → HaveBeenMade world.new.core world.new.stations.items world.new.sent.items
        (setting_at world.old.core (length world.old.stations.items))
        (length world.old.stations.items) steps.now past text.old.items text.new.items) }
    ensures core { world.new.core ≡ world.old.core }
    ensures stations { length world.new.stations.items ≡ length world.old.stations.items }
    ensures fault { IfErr result (λ f. f ≡ fault.OutOfMemory) }
{
    let mut number: u64 = 0;
    for step in steps {
        number += 1;
        let result = world.step(step.step());
        if let Err(WorldFault::OutOfMemory) = result {
            return Err(RehearsalFault::OutOfMemory);
        }
        put_step(alloc, text, number, result)?;
    }
    Ok(())
}
