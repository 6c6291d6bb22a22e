//! The settings of several stations, a file each.

ghost use Rattle.std.specs.Prelude.{◌≡◌, ◌<◌, ◌≤◌, ◌⊎◌, ◌^◌, ◌∷◌, ◌++◌, [], Err, IfErr, IfOk, Ok, OnOk, Some, false, length, string_bytes};
ghost use Rattle.mon_console.specs.Failure.{IsMemory};
ghost use Rattle.mon_client.specs.Network.{agents_by};
ghost use Rattle.mon_host.specs.Log.{GoesOnBy};
ghost use Rattle.mon_settings_commands.specs.Fitting.{AreFitting};
ghost use Rattle.mon_settings_commands.specs.Parts.{AreAbsent, AreParted, AreParts, AreWritten, HasGroups, HasNoCounter, HasNoPlan, IsAbsent, IsNamedWritten, IsPartAbsent, IsPartWritten, part_path};
ghost use Rattle.mon_settings_commands.specs.Settings.{IsSettingsOf};
ghost use Rattle.mon_settings_commands.specs.Source.{IsOfSurvey, source_in};
ghost use Rattle.mon_survey.specs.declared.longest.Drafted.{Drafted as AnyDrafted};

use crate::failing::{survey_failure, taken_failure};
use crate::labelling::write_labels;
use crate::noting::print_noted;
use crate::settings::Input;
use crate::trying::{Wish, fit};
use mon_client::Opens;
use mon_console::{Failure, write_file};
use mon_host::Host;
use mon_survey::{Drafted, SurveyFault, TargetSize, plan};
use std::alloc::{AllocError, Global};

/// The most files that settings are split into.
const MAX_PARTS: u32 = 65_536;

/// Writes the settings of a station for each group into a folder, prints the names of the files,
/// and says of each how long a round takes at most. Nothing is written if one of the files is
/// there, or if the agent does not answer a poll of a target.
pub(crate) fn write_parts<N: Opens, H: Host>(
    alloc: Global,
    host: &mut H,
    net: &N,
    input: &Input<'_, '_>,
    folder: &str,
) -> Result<(), Failure>
    ensures { GoesOnBy (λ log. AreParts (agents_by (N.has_opened net.now) (N.has_failed net.now)
        N.Wire.log)
        (source_in input.now) folder.now log result)
        (H.log host.old) (H.log host.new) }
{
    let parts = parts_of(alloc, net, input)?;
    require_absent(alloc, host, folder, parts.as_slice())?;
    write_labels(alloc, host, input, "")?;
    write_all(alloc, host, folder, parts.as_slice())
}

/// Requires that nothing is at the path of the file of any of these settings.
fn require_absent<H: Host>(
    alloc: Global,
    host: &mut H,
    folder: &str,
    parts: &[Drafted],
) -> Result<(), Failure>
    ensures { GoesOnBy (λ log. AreAbsent folder.now 0 (length parts.now) log result)
        (H.log host.old) (H.log host.new) }
{
    for place in 0..parts.len() {
        require_part_absent(alloc, host, folder, place)?;
    }
    Ok(())
}

/// Requires that nothing is at the path of the file of a place.
fn require_part_absent<H: Host>(
    alloc: Global,
    host: &mut H,
    folder: &str,
    place: usize,
) -> Result<(), Failure>
    requires { place < 2 ^ 63 }
    ensures { GoesOnBy (λ log. IsPartAbsent (part_path folder.now place) log result)
        (H.log host.old) (H.log host.new) }
{
    let path = part_path(alloc, folder, place)?;
    require_nothing_at(alloc, host, path.as_str())
}

/// Requires that nothing is at a path.
pub(crate) fn require_nothing_at<H: Host>(
    alloc: Global,
    host: &mut H,
    path: &str,
) -> Result<(), Failure>
    ensures { GoesOnBy (λ log. IsAbsent path.now log result) (H.log host.old) (H.log host.new) }
{
    match host.is_there(path) {
        Ok(false) => Ok(()),
        Ok(true) => Err(taken_failure(alloc, path)),
        Err(reason) => Err(Failure::stream(alloc, path, reason)),
    }
}

/// Writes a file for each of these settings, in order, prints its name, and says how long a round
/// takes at most.
fn write_all<H: Host>(
    alloc: Global,
    host: &mut H,
    folder: &str,
    parts: &[Drafted],
) -> Result<(), Failure>
    ensures { GoesOnBy (λ log. AreWritten folder.now 0 parts.now log result)
        (H.log host.old) (H.log host.new) }
{
    for place in 0..parts.len() {
        write_part(alloc, host, folder, place, &parts[place])?;
    }
    Ok(())
}

/// Returns the settings of each group, whose polls the agent answers.
fn parts_of<N: Opens>(
    alloc: Global,
    net: &N,
    input: &Input<'_, '_>,
) -> Result<Vec<Drafted>, Failure>
    ensures { AreParted (agents_by (N.has_opened net.now) (N.has_failed net.now) N.Wire.log)
        (source_in input.now) result }
{
    let groups = groups_of(alloc, input)?;
    let mut parts = Vec::new(alloc);
    for group in 0..groups {
        add_part(alloc, net, &mut parts, input, group)?;
    }
    Ok(parts)
}

/// Adds the settings of a group.
fn add_part<N: Opens>(
    alloc: Global,
    net: &N,
    parts: &mut Vec<Drafted>,
    input: &Input<'_, '_>,
    group: u32,
) -> Result<(), Failure>
    requires { group < 65536 }
    ensures added { OnOk result ((part : AnyDrafted) × (parts.new.items
        ≡ parts.old.items ++ part ∷ []) × AreFitting (agents_by (N.has_opened net.now)
        (N.has_failed net.now) N.Wire.log) input.now.asked
        (IsSettingsOf (source_in input.now) (Some group)) (Ok part)) }
    ensures refused { IfErr result (λ failure. IsMemory failure
        ⊎ AreFitting (agents_by (N.has_opened net.now) (N.has_failed net.now) N.Wire.log)
        input.now.asked (IsSettingsOf (source_in input.now) (Some group)) (Err failure)) }
{
    let part = fit(
        alloc,
        net,
        input,
        Wish::New(Some(group)),
        TargetSize::Sixteen,
    )?;
    Ok(parts.push(part)?)
}

/// Returns how many groups of counters there are.
pub(crate) fn groups_of(alloc: Global, input: &Input<'_, '_>) -> Result<u32, Failure>
    ensures few { IfOk result (λ groups. groups ≤ 65536) }
    ensures last { IfOk result (HasGroups (source_in input.now)) }
    ensures refused { IfErr result (HasNoPlan (source_in input.now)) }
{
    for group in 0..MAX_PARTS {
        if !has_group(alloc, input, group)? {
            return Ok(group);
        }
    }
    Ok(MAX_PARTS)
}

/// Returns `true` if a group has counters, which the first one must have.
fn has_group(alloc: Global, input: &Input<'_, '_>, group: u32) -> Result<bool, Failure>
    ensures last { IfOk result (λ has. has ≡ false → HasNoCounter (source_in input.now) group) }
    ensures refused { IfErr result (HasNoPlan (source_in input.now)) }
{
    let Err(fault) = plan(alloc, &input.survey.answers, &input.choice(Some(group))) else {
        return Ok(true);
    };
    no_group(alloc, input.asked.agent.word, group, fault)
}

/// Returns `false` for a group that has no counters, and a failure for one that has no plan.
fn no_group(alloc: Global, agent: &str, group: u32, fault: SurveyFault) -> Result<bool, Failure>
    ensures none { IfOk result (λ _. fault ≡ SurveyFault.NoCounter) }
    ensures refused { IfErr result (IsOfSurvey fault) }
{
    match fault {
        SurveyFault::NoCounter if group > 0 => Ok(false),
        _ => Err(survey_failure(alloc, agent, fault)),
    }
}

/// Writes a file of settings, prints its name, and says how long a round takes at most.
fn write_part<H: Host>(
    alloc: Global,
    host: &mut H,
    folder: &str,
    place: usize,
    part: &Drafted,
) -> Result<(), Failure>
    requires { place < 2 ^ 63 }
    ensures { GoesOnBy (λ log. IsPartWritten (part_path folder.now place) part.now log result)
        (H.log host.old) (H.log host.new) }
{
    let path = part_path(alloc, folder, place)?;
    write_named(alloc, host, path.as_str(), part)
}

/// Returns the path of the file of a place, in a folder.
fn part_path(alloc: Global, folder: &str, place: usize) -> Result<String, AllocError>
    requires { place < 2 ^ 63 }
    ensures { IfOk result (λ path. string_bytes path ≡ part_path folder.now place) }
{
    let number = place + 1;
    format!(in alloc; "{folder}/station-{number}.toml")
}

/// Writes settings to a file, prints its name, and says how long a round takes at most.
fn write_named<H: Host>(
    alloc: Global,
    host: &mut H,
    path: &str,
    part: &Drafted,
) -> Result<(), Failure>
    ensures { GoesOnBy (λ log. IsNamedWritten path.now part.now log result)
        (H.log host.old) (H.log host.new) }
{
    write_file(alloc, host, path, part.text.as_bytes())?;
    let line = format!(in alloc; "{path}\n")?;
    print_noted(alloc, host, line.as_bytes(), path, part.longest)
}
