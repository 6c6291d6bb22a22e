//! The agent's map, its counters and its device, where no datagram shows them.

use crate::counting;
use crate::rows::put_between;
use crate::small_agent::settings;
use mon_ber::Octets;
use mon_mib::{
    AdminStatus, Change, Column, Counter, Counters, Device, DeviceFault, Interface, Moment, Object,
    OperStatus, Scalar, SetFault, SetStatus, SimDevice, SysTexts, all_objects,
};
use mon_row_texts::{first_word, parsed, put, put_fault, put_name, two};
use mon_settings::AgentSettings;
use std::alloc::Global;

/// Appends the answer to a line, without its first word.
pub(crate) fn answer(alloc: Global, text: &mut String, line: &str) -> Option<()> {
    let (word, rest) = first_word(line);
    match word {
        "next" => counting::row(alloc, text, rest),
        "changes" => changed(alloc, text, rest),
        "objects" => write!(text, "{}", all_objects().len()).ok(),
        "object" => object(alloc, text, rest),
        "admin" => admin(text),
        "oper" => oper(text),
        "moment" => match Moment::new(parsed(rest)?) {
            Some(moment) => write!(text, "{}", moment.hundredths()).ok(),
            None => put(text, "none"),
        },
        "counts" => counted(text, parsed(rest)?),
        "set-faults" => set_faults(text),
        "device-faults" => device_faults(text),
        _ => None,
    }
}

/// Makes the device, without the clauses of the call.
fn device(interfaces: Vec<Interface>, texts: SysTexts) -> Result<SimDevice, DeviceFault> {
    SimDevice::new(interfaces, texts)
}

/// Makes the changes of a line in the device of the small agent. Appends of each the change that
/// undoes it or the fault, and how often the device has failed then.
fn changed(alloc: Global, text: &mut String, line: &str) -> Option<()> {
    let AgentSettings {
        texts,
        interfaces,
        ..
    } = settings(alloc)?;
    let mut device = device(interfaces, texts).ok()?;
    for change in line.split("; ") {
        put_applied(text, &mut device, change_of(alloc, change)?)?;
    }
    Some(())
}

/// Reads a change: `alias INDEX TEXT` or `admin INDEX STATUS SINCE`.
fn change_of(alloc: Global, words: &str) -> Option<Change> {
    let (word, rest) = two(words, ' ')?;
    let (index, rest) = two(rest, ' ')?;
    let index = parsed(index)?;
    match word {
        "alias" => {
            let text = Octets::from_slice(alloc, rest.as_bytes()).ok()?;
            Some(Change::Alias(index, text))
        }
        "admin" => {
            let (status, since) = two(rest, ' ')?;
            Some(Change::Admin {
                index,
                status: status_of(status)?,
                since: parsed(since)?,
            })
        }
        _ => None,
    }
}

fn status_of(word: &str) -> Option<AdminStatus> {
    match word {
        "up" => Some(AdminStatus::Up),
        "down" => Some(AdminStatus::Down),
        "testing" => Some(AdminStatus::Testing),
        _ => None,
    }
}

/// Makes a change, and appends the change that undoes it or the fault, and how often the device has
/// failed then.
fn put_applied(text: &mut String, device: &mut SimDevice, change: Change) -> Option<()> {
    put_between(text, "; ")?;
    let applied = device.apply(change);
    match &applied {
        Ok(undo) => write!(text, "{undo:?}").ok()?,
        Err(why) => put_fault(text, why.number(), why.name())?,
    }
    write!(text, " after {} failures", device.failures()).ok()
}

/// Appends the access and the syntax of the object of a line `NAME INDEX`, and its name at the
/// index.
fn object(alloc: Global, text: &mut String, line: &str) -> Option<()> {
    let (word, index) = two(line, ' ')?;
    let object = match word {
        "ifAlias" => Object::Column(Column::IfAlias),
        "sysServices" => Object::Scalar(Scalar::SysServices),
        _ => return None,
    };
    let (access, syntax) = (object.access(), object.syntax());
    write!(text, "{access:?} {syntax:?} ").ok()?;
    let name = object.name(alloc, parsed(index)?).ok()?;
    put_name(alloc, text, &name)
}

/// Lists the administrative statuses of an interface.
fn admin(text: &mut String) -> Option<()> {
    let statuses = [AdminStatus::Up, AdminStatus::Down, AdminStatus::Testing];
    for status in statuses {
        put_between(text, ", ")?;
        write!(text, "{status:?} {}", status.number()).ok()?;
    }
    Some(())
}

/// Lists the operational statuses of an interface.
fn oper(text: &mut String) -> Option<()> {
    let statuses = [
        OperStatus::Up,
        OperStatus::Down,
        OperStatus::Testing,
        OperStatus::Unknown,
        OperStatus::Dormant,
        OperStatus::NotPresent,
        OperStatus::LowerLayerDown,
    ];
    for status in statuses {
        put_between(text, ", ")?;
        write!(text, "{status:?} {}", status.number()).ok()?;
    }
    Some(())
}

/// Counts a message of another version, where this many were counted, and a message. Appends both
/// counters.
fn counted(text: &mut String, bad_versions: u32) -> Option<()> {
    let mut counters = Counters::new();
    counters.bad_versions = bad_versions;
    counters.count(Counter::BadVersions);
    counters.count(Counter::InPackets);
    let (bad, all) = (
        counters.value(Counter::BadVersions),
        counters.value(Counter::InPackets),
    );
    write!(text, "{bad} {all}").ok()
}

/// Lists the faults of a Set: of a refusal each error-status.
fn set_faults(text: &mut String) -> Option<()> {
    let statuses = [
        SetStatus::NoAccess,
        SetStatus::WrongType,
        SetStatus::WrongLength,
        SetStatus::WrongValue,
        SetStatus::NoCreation,
        SetStatus::NotWritable,
    ];
    let why = SetFault::OutOfMemory;
    put_fault(text, why.number(), why.name())?;
    for status in statuses {
        put_refused(text, status)?;
    }
    Some(())
}

/// Appends the fault of a Set that is refused with an error-status.
fn put_refused(text: &mut String, status: SetStatus) -> Option<()> {
    let why = SetFault::Refused { status, index: 1 };
    let (number, name) = (why.number(), why.name());
    write!(text, ", {number} {name} {status:?} {}", status.number()).ok()
}

/// Lists the faults of a device.
fn device_faults(text: &mut String) -> Option<()> {
    for why in [DeviceFault::BadIndex, DeviceFault::Failed] {
        put_between(text, ", ")?;
        put_fault(text, why.number(), why.name())?;
    }
    Some(())
}
