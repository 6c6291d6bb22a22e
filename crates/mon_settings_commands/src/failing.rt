//! Why there are no settings.

ghost use Rattle.std.specs.Prelude.{◌≡◌, ◌++◌, IfOk, codes, string_bytes};
ghost use Rattle.mon_console.specs.Agents.{status_word};
ghost use Rattle.mon_console.specs.Failure.{IsSaid};
ghost use Rattle.mon_faults.specs.Fault.{innermost_of};
ghost use Rattle.mon_faults.specs.declared.fault.Fault.TheVariants.{App};
ghost use Rattle.mon_survey.specs.Fault.{name_of, number_of};
ghost use Rattle.mon_oid.specs.Oid.{dotted};
ghost use Rattle.mon_settings_commands.specs.Network.{IsOfMachines, machines_words, unported_line};
ghost use Rattle.mon_settings_commands.specs.Parts.{IsTaken};
ghost use Rattle.mon_settings_commands.specs.Settings.{IsOfLabels, labels_words};
ghost use Rattle.mon_settings_commands.specs.Tried.{IsUnpolled, advice_for, first_name, poll_text, refused_line, silent_line};

use crate::noting::form_of;
use mon_app::AppFault;
use mon_console::{Failure, Fault, answer_failure};
use mon_placing::MachinesFault;
use mon_poller::{Object, Target, status_name};
use mon_station::Innermost;
use mon_survey::SurveyFault;
use std::alloc::{AllocError, Global};

/// Why an agent gives no settings.
pub(crate) fn survey_failure(alloc: Global, place: &str, fault: SurveyFault) -> Failure
    ensures part { (innermost_of result.fault).part ≡ codes "mon_survey" }
    ensures number { (innermost_of result.fault).number ≡ number_of fault }
    ensures name { (innermost_of result.fault).name ≡ name_of fault }
{
    Failure::said(survey_fault(fault), format!(in alloc; "{place}: {fault}"))
}

/// Returns a fault of a survey, with its number and its name.
fn survey_fault(fault: SurveyFault) -> Fault
    ensures part { (innermost_of result).part ≡ codes "mon_survey" }
    ensures number { (innermost_of result).number ≡ number_of fault }
    ensures name { (innermost_of result).name ≡ name_of fault }
{
    Fault::Other(Innermost::new("mon_survey", fault.number(), fault.name()))
}

/// Why a file gives no labels. The line names the file.
pub(crate) fn labels_failure(alloc: Global, path: &str, fault: SurveyFault) -> Failure
    ensures { IsOfLabels path.now fault result }
{
    Failure::said(survey_fault(fault), labels_text(alloc, path, fault))
}

/// Returns the line that names a file of labels and what is wrong in it.
fn labels_text(alloc: Global, path: &str, fault: SurveyFault) -> Result<String, AllocError>
    ensures { IfOk result (λ text. string_bytes text ≡ path.now ++ labels_words fault) }
{
    match fault {
        SurveyFault::TooManyInterfaces(count) => {
            format!(in alloc;
                "{path}: {count} interfaces are more than the 4,096 of a file of labels: choose fewer by --match or --up"
            )
        }
        SurveyFault::SameEngine => {
            format!(in alloc;
                "{path}: an interface in it has this agent's engine id: name another file, or remove the agent's"
            )
        }
        SurveyFault::Misread => {
            format!(in alloc; "{path}: the labels are read as others than those that were meant")
        }
        _ => {
            format!(in alloc;
                "{path}: this is no file of labels: a TOML text with [[interface]] tables"
            )
        }
    }
}

/// Why a file lists no machines. The line names the file.
pub(crate) fn machines_failure(alloc: Global, path: &str, fault: MachinesFault) -> Failure
    ensures { IsOfMachines path.now fault result }
{
    match fault {
        MachinesFault::OutOfMemory => Failure::from(AllocError),
        _ => Failure::said(
            Fault::App(AppFault::BadText),
            machines_text(alloc, path, fault),
        ),
    }
}

/// Returns the line that names a file of machines and what is wrong in it. Lines are counted from
/// 1.
fn machines_text(alloc: Global, path: &str, fault: MachinesFault) -> Result<String, AllocError>
    ensures { IfOk result (λ text. string_bytes text ≡ path.now ++ machines_words fault) }
{
    match fault {
        MachinesFault::OutOfMemory => format!(in alloc; "{path}: out of memory"),
        MachinesFault::Malformed(line) => {
            format!(in alloc; "{path}: line {line}: NAME ADDRESS is wanted, as east-1 192.0.2.11")
        }
        MachinesFault::RepeatedName(line) => {
            format!(in alloc; "{path}: line {line}: a machine above has this name")
        }
        MachinesFault::RepeatedAddress(line) => {
            format!(in alloc; "{path}: line {line}: a machine above has this address")
        }
        MachinesFault::TooMany(line) => {
            format!(in alloc; "{path}: line {line}: more than 1,024 machines")
        }
        MachinesFault::NoMachine => format!(in alloc; "{path}: no machine is listed"),
        MachinesFault::TooFew(count) => {
            format!(in alloc; "{path}: machines: {count}, fewer than the stations of a group")
        }
    }
}

/// Returns why a network has no ports for this many groups from its first one on.
pub(crate) fn unported_failure(alloc: Global, first: u32, groups: u32) -> Failure
    ensures { IsSaid (App AppFault.BadText) (unported_line first groups) result }
{
    Failure::said(
        Fault::App(AppFault::BadText),
        format!(in alloc;
            "--first-group {first}: the ports of {groups} groups from it on exceed 65535"
        ),
    )
}

/// Why a poll of a target was not answered as a station needs it: the line names the poll.
pub(crate) fn poll_failure(alloc: Global, agent: &str, target: &Target, fault: AppFault) -> Failure
    ensures fault { result.fault ≡ Fault.App fault }
    ensures more { IsUnpolled agent.now target.now fault result }
{
    match fault {
        AppFault::AgentStatus { status, .. } => {
            Failure::said(
                Fault::App(fault),
                refused_line(alloc, agent, target, status),
            )
        }
        AppFault::Timeout => Failure::said(Fault::App(fault), silent_line(alloc, agent, target)),
        _ => answer_failure(alloc, agent, fault),
    }
}

/// Returns the line of a poll that was answered with an error status.
fn refused_line(
    alloc: Global,
    agent: &str,
    target: &Target,
    status: i32,
) -> Result<String, AllocError>
    ensures { IfOk result (λ text. string_bytes text ≡ refused_line agent.now target.now status) }
{
    let poll = poll_text(alloc, agent, target)?;
    let name = status_word(status);
    let advice = advice_for(status);
    format!(in alloc; "{poll} was answered {name} ({status}): {advice}")
}

/// Returns the name of an error status, or that it has none.
fn status_word<'a>(status: i32) -> &'a str
    ensures { result.now ≡ status_word status }
{
    status_name(status).unwrap_or("an unknown error-status")
}

/// Returns what may be done if an agent answers a poll with an error status; 1 is tooBig.
fn advice_for<'a>(status: i32) -> &'a str
    ensures { result.now ≡ advice_for status }
{
    if status == 1 {
        "let the agent send longer messages"
    } else {
        "choose other counters by --match, --up or --only"
    }
}

/// Returns the line of a poll that was not answered.
fn silent_line(alloc: Global, agent: &str, target: &Target) -> Result<String, AllocError>
    ensures { IfOk result (λ text. string_bytes text ≡ silent_line agent.now target.now) }
{
    let poll = poll_text(alloc, agent, target)?;
    format!(in alloc;
        "{poll} was not answered: try again, or choose fewer counters by --match, --up or --only"
    )
}

/// Returns which poll of an agent it is: of how many objects, and the first one.
fn poll_text(alloc: Global, agent: &str, target: &Target) -> Result<String, AllocError>
    ensures { IfOk result (λ text. string_bytes text ≡ poll_text agent.now target.now) }
{
    let objects = target.objects.as_slice();
    let first = first_name(alloc, objects)?;
    let count = objects.len();
    let noun = form_of(count, " object", " objects");
    format!(in alloc; "{agent}: a poll of {count}{noun} from {first} on")
}

/// Returns the name of the first of some objects, in dotted numbers.
fn first_name(alloc: Global, objects: &[Object]) -> Result<String, AllocError>
    ensures { IfOk result (λ text. string_bytes text ≡ dotted (first_name objects.now)) }
{
    match objects {
        [first, ..] => first.name.text(alloc),
        [] => Ok(String::new(alloc)),
    }
}

/// Why settings that are there are asked for with other options.
pub(crate) fn together_failure(alloc: Global) -> Failure
    ensures { result.fault ≡ Fault.App AppFault.BadText }
{
    let more: Result<String, AllocError> = String::from_str(
        alloc,
        "--append goes with neither --split nor --module: names are shown as in the settings",
    );
    Failure::said(Fault::App(AppFault::BadText), more)
}

/// Why settings that are brought up to date are asked for with other options.
pub(crate) fn apart_failure(alloc: Global) -> Failure
    ensures { result.fault ≡ Fault.App AppFault.BadText }
{
    let more: Result<String, AllocError> = String::from_str(
        alloc,
        "--update goes with neither --append, --split nor --module: names are shown as in the settings",
    );
    Failure::said(Fault::App(AppFault::BadText), more)
}

/// Why a file of settings is not written: something is at its path.
pub(crate) fn taken_failure(alloc: Global, path: &str) -> Failure
    ensures { IsTaken path.now result }
{
    Failure::said(
        Fault::App(AppFault::FileFault),
        format!(in alloc; "{path}: a file is there, and is not replaced"),
    )
}
