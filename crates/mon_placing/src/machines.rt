//! The machines that a text lists.

ghost use Rattle.std.specs.Prelude.{◌≡◌, ◌⊎◌, Err, IfErr, IfOk, Ok, OnOk, length, map, option_map};
ghost use Rattle.std.specs.List.{list_all};
ghost use Rattle.mon_placing.specs.Machines.{begins_well, enough, entry_in, has_address, has_name, is_name, is_of_names, listed, machines_in, octets_of, read_line, unrepeated};
ghost use Rattle.mon_placing.specs.declared.fault.MachinesFault.TheVariants.{OutOfMemory};

use crate::fault::MachinesFault;
use std::alloc::Global;
use std::net::Ipv4Addr;

/// The most machines that a text may list.
const MAX_MACHINES: usize = 1_024;

/// A machine that stations run on.
#[derive(Drop)]
pub struct Machine {
    /// The machine's name: letters, digits, `-` and `.`; the first is a letter or a digit.
    pub name: String,
    /// Its IPv4 address.
    pub octets: [u8; 4],
}

/// Returns the machines that a text lists, one a line: `NAME ADDRESS`, with one space or more
/// between them. Lines that are empty or begin with `#` are passed over. There must be at least
/// as many machines as a group has stations, and at most 1,024. All names differ, and all
/// addresses.
///
/// # Errors
/// The first line that is at fault, or too few lines.
pub fn machines_in(alloc: Global, text: &str, stations: u32) -> Result<Vec<Machine>, MachinesFault>
    ensures listed { IfOk result (λ machines. machines_in text.now stations
        ≡ Ok (map listed machines.items)) }
    ensures refused { IfErr result (λ fault. (fault ≡ OutOfMemory)
        ⊎ (machines_in text.now stations ≡ Err fault)) }
{
    let lines: Vec<&str> = text.lines().collect(alloc)?;
    let mut machines = Vec::new(alloc);
    for place in 0..lines.len() {
        add_line(alloc, &mut machines, place + 1, lines[place])?;
    }
    require_enough(machines.as_slice(), stations)?;
    Ok(machines)
}

/// Requires at least one machine, and as many as a group has stations.
fn require_enough(machines: &[Machine], stations: u32) -> Result<(), MachinesFault>
    ensures enough { IfOk result (λ _. enough stations (map listed machines.now)
        ≡ Ok (map listed machines.now)) }
    ensures refused { IfErr result (λ fault. enough stations (map listed machines.now)
        ≡ Err fault) }
{
    if machines.is_empty() {
        return Err(MachinesFault::NoMachine);
    }
    if machines.len() < stations as usize {
        return Err(MachinesFault::TooFew(machines.len()));
    }
    Ok(())
}

/// Adds the machine of a line, if it may be added. A line that is empty or a comment, which begins
/// with `#`, is passed over.
fn add_line(
    alloc: Global,
    machines: &mut Vec<Machine>,
    number: usize,
    line: &str,
) -> Result<(), MachinesFault>
    ensures added { OnOk result (read_line number (map listed machines.old.items) line.now
        ≡ Ok (map listed machines.new.items)) }
    ensures refused { IfErr result (λ fault. (fault ≡ OutOfMemory)
        ⊎ (read_line number (map listed machines.old.items) line.now ≡ Err fault)) }
{
    if matches!(line.as_bytes(), [] | [b'#', ..]) {
        return Ok(());
    }
    let Some(entry) = entry_in(line) else {
        return Err(MachinesFault::Malformed(number));
    };
    let octets = entry.octets;
    require_new(machines.as_slice(), number, entry.name, octets)?;
    let name = String::from_str(alloc, entry.name)?;
    Ok(machines.push(Machine { name, octets })?)
}

/// Requires that a machine may be added: no other has its name or its address, and the list
/// is not full.
fn require_new(
    machines: &[Machine],
    number: usize,
    name: &str,
    octets: [u8; 4],
) -> Result<(), MachinesFault>
    ensures new { IfOk result (λ _. unrepeated number (map listed machines.now) name.now octets
        ≡ Ok tt) }
    ensures refused { IfErr result (λ fault. unrepeated number (map listed machines.now) name.now
        octets ≡ Err fault) }
{
    if has_name(machines, name) {
        return Err(MachinesFault::RepeatedName(number));
    }
    if has_address(machines, octets) {
        return Err(MachinesFault::RepeatedAddress(number));
    }
    if machines.len() >= MAX_MACHINES {
        return Err(MachinesFault::TooMany(number));
    }
    Ok(())
}

/// Returns `true` if a machine has this name.
fn has_name(machines: &[Machine], name: &str) -> bool
    ensures { result ≡ has_name name.now (map listed machines.now) }
{
    let [first, rest @ ..] = machines else {
        return false;
    };
    if first.name.as_str() == name {
        return true;
    }
    has_name(rest, name)
}

/// Returns `true` if a machine has this address.
fn has_address(machines: &[Machine], octets: [u8; 4]) -> bool
    ensures { result ≡ has_address octets (map listed machines.now) }
{
    let [first, rest @ ..] = machines else {
        return false;
    };
    if first.octets == octets {
        return true;
    }
    has_address(rest, octets)
}

/// What a line says of a machine.
#[derive(Clone, Copy)]
struct Entry<'t> {
    name: &'t str,
    octets: [u8; 4],
}

/// Returns the name and the address of a line, if it has both.
fn entry_in(line: &str) -> Option<Entry<'_>>
    ensures { option_map (λ e. (e.name.now, e.octets)) result ≡ entry_in line.now }
{
    let Some((name, rest)) = line.split_once(' ') else {
        return None;
    };
    if !is_name(name) {
        return None;
    }
    match octets_of(rest.trim_ascii_start()) {
        Some(octets) => Some(Entry { name, octets }),
        None => None,
    }
}

/// Returns the IPv4 address that a text writes, in numbers.
fn octets_of(text: &str) -> Option<[u8; 4]>
    ensures { result ≡ octets_of text.now }
{
    match text.parse::<Ipv4Addr>() {
        Ok(address) => Some(address.octets()),
        Err(_) => None,
    }
}

/// Returns `true` if a text is a name: letters, digits, `-` and `.`, of which the first is a letter
/// or a digit.
fn is_name(text: &str) -> bool
    ensures { result ≡ is_name text.now }
{
    let octets = text.as_bytes();
    begins_well(octets) && are_of_names(octets)
}

/// Returns `true` if the first octet is a letter or a digit.
fn begins_well(octets: &[u8]) -> bool
    ensures { result ≡ begins_well octets.now }
{
    match octets {
        [first, ..] => first.is_ascii_alphanumeric(),
        [] => false,
    }
}

/// Returns `true` if each octet may appear in a name.
fn are_of_names(octets: &[u8]) -> bool
    ensures { result ≡ list_all is_of_names octets.now }
{
    octets.iter().all(|octet| is_of_names(*octet))
}

/// Returns `true` if an octet may appear in a name.
fn is_of_names(octet: u8) -> bool
    ensures { result ≡ is_of_names octet }
{
    octet.is_ascii_alphanumeric() || octet == b'-' || octet == b'.'
}
