//! The targets that are down, below a table.

ghost use Rattle.std.specs.Prelude.{◌≡◌, ◌++◌, OnOk, string_bytes};
ghost use Rattle.std.specs.List.{flat_map};
ghost use Rattle.mon_table.specs.Table.{down_if, down_line, place_text, reason_text, silence_text};

use mon_page::TargetFigures;
use std::alloc::AllocError;

/// Adds a line for each target that is down.
pub(crate) fn put_down(text: &mut String, targets: &[TargetFigures]) -> Result<(), AllocError>
    ensures { OnOk result (string_bytes text.new ≡ string_bytes text.old
        ++ flat_map down_if targets.now) }
{
    for target in targets {
        if !target.up {
            put_down_line(text, target)?;
        }
    }
    Ok(())
}

/// Adds the line of a target that is down.
#[tactic(auto, unfolding(crate::specs::Table::down_line))]
fn put_down_line(text: &mut String, target: &TargetFigures) -> Result<(), AllocError>
    ensures { OnOk result (string_bytes text.new ≡ string_bytes text.old ++ down_line target.now) }
{
    put_place(text, target)?;
    put_silence(text, target)?;
    put_reason(text, &target.refusal)?;
    text.push_str("\n")
}

/// Adds which target it is, and where its agent is reached.
#[tactic(auto, unfolding(crate::specs::Table::place_text))]
fn put_place(text: &mut String, target: &TargetFigures) -> Result<(), AllocError>
    ensures { OnOk result (string_bytes text.new ≡ string_bytes text.old ++ place_text target.now) }
{
    let (number, address) = (target.number, target.address.as_str());
    write!(text, "target {number} at {address}")
}

/// Adds for how long a target did not answer.
#[tactic(auto, unfolding(crate::specs::Table::silence_text))]
fn put_silence(text: &mut String, target: &TargetFigures) -> Result<(), AllocError>
    ensures { OnOk result (string_bytes text.new
        ≡ string_bytes text.old ++ silence_text target.now) }
{
    let (rounds, seconds) = (target.rounds, target.seconds);
    write!(text, " is down: no answer in {rounds} rounds, {seconds} s")
}

/// Adds why a target's last response was refused, if one was.
fn put_reason(text: &mut String, reason: &Option<String>) -> Result<(), AllocError>
    ensures { OnOk result (string_bytes text.new
        ≡ string_bytes text.old ++ reason_text reason.now) }
{
    match reason {
        None => Ok(()),
        Some(reason) => {
            text.push_str(": ")?;
            text.push_str(reason.as_str())
        }
    }
}
