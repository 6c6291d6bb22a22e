//! How others find the stations of a network: the targets that Prometheus scrapes, and the units
//! that run.

ghost use Rattle.std.specs.Prelude.{◌≡◌, ◌+◌, ◌++◌, IfOk, OnOk, codes, string_bytes};
ghost use Rattle.mon_placing.specs.Network.{ArePlaced, IsSeat, entries_of, entry, host, hosts_of, separator, targets_text, unit_line, units_of, units_text};

use crate::network::{Network, Seat};
use std::alloc::{AllocError, Global};

/// Returns the targets of a network's first `groups` groups, as Prometheus reads them from a file
/// (`file_sd_configs`): an entry for each group, with the addresses at which its stations serve
/// HTTP, and the group's name as the label `group`.
///
/// # Errors
/// `AllocError` if there is no memory for them.
pub fn targets_text(alloc: Global, network: Network<'_>, groups: u32) -> Result<String, AllocError>
    requires { ArePlaced network groups }
    ensures { IfOk result (λ text. string_bytes text ≡ targets_text network.entry groups) }
{
    let mut text = String::new(alloc);
    text.push_str("[\n")?;
    put_entries(&mut text, network, groups)?;
    text.push_str("\n]\n")?;
    Ok(text)
}

/// Appends the entry of each group.
fn put_entries(text: &mut String, network: Network<'_>, groups: u32) -> Result<(), AllocError>
    requires { ArePlaced network groups }
    ensures { OnOk result (string_bytes text.new ≡ string_bytes text.old
        ++ entries_of network.entry groups) }
{
    for part in 0..groups {
        put_entry(text, network, part)?;
    }
    Ok(())
}

/// Appends the entry of a group, after a comma unless it is the first.
fn put_entry(text: &mut String, network: Network<'_>, part: u32) -> Result<(), AllocError>
    requires { ArePlaced network (part + 1) }
    ensures { OnOk result (string_bytes text.new
        ≡ string_bytes text.old ++ (separator part (codes ",\n") ++ entry network.entry part)) }
{
    put_separator(text, part, ",\n")?;
    text.push_str("  {\"targets\": [")?;
    put_hosts(text, network, part)?;
    let group = network.first + part;
    write!(text, "], \"labels\": {{\"group\": \"group-{group}\"}}}}")
}

/// Appends the text between two items, before one that is not the first.
fn put_separator(text: &mut String, place: u32, between: &str) -> Result<(), AllocError>
    ensures { OnOk result (string_bytes text.new ≡ string_bytes text.old
        ++ separator place between.now) }
{
    if place == 0 {
        return Ok(());
    }
    text.push_str(between)
}

/// Appends where the stations of a group serve HTTP.
fn put_hosts(text: &mut String, network: Network<'_>, part: u32) -> Result<(), AllocError>
    requires { ArePlaced network (part + 1) }
    ensures { OnOk result (string_bytes text.new ≡ string_bytes text.old
        ++ hosts_of network.entry part network.entry.stations) }
{
    for station in 0..network.stations {
        put_host(
            text,
            Seat {
                network,
                part,
                station,
            },
        )?;
    }
    Ok(())
}

/// Appends where a station serves HTTP, after a comma unless it is the first.
fn put_host(text: &mut String, seat: Seat<'_>) -> Result<(), AllocError>
    requires { IsSeat seat }
    ensures { OnOk result (string_bytes text.new ≡ string_bytes text.old ++ host seat.entry) }
{
    put_separator(text, seat.station, ", ")?;
    let address = seat.serves();
    write!(text, "\"{address}\"")
}

/// Returns the units of a network's first `groups` groups: for each station a line with the
/// machine that it runs on, what it is called, and where it serves HTTP.
///
/// # Errors
/// `AllocError` if there is no memory for them.
pub fn units_text(alloc: Global, network: Network<'_>, groups: u32) -> Result<String, AllocError>
    requires { ArePlaced network groups }
    ensures { IfOk result (λ text. string_bytes text ≡ units_text network.entry groups) }
{
    let mut text = String::new(alloc);
    for part in 0..groups {
        put_units(&mut text, network, part)?;
    }
    Ok(text)
}

/// Appends the lines of a group.
fn put_units(text: &mut String, network: Network<'_>, part: u32) -> Result<(), AllocError>
    requires { ArePlaced network (part + 1) }
    ensures { OnOk result (string_bytes text.new ≡ string_bytes text.old
        ++ units_of network.entry part network.entry.stations) }
{
    for station in 0..network.stations {
        put_unit(
            text,
            Seat {
                network,
                part,
                station,
            },
        )?;
    }
    Ok(())
}

/// Appends the line of a station.
fn put_unit(text: &mut String, seat: Seat<'_>) -> Result<(), AllocError>
    requires { IsSeat seat }
    ensures { OnOk result (string_bytes text.new ≡ string_bytes text.old ++ unit_line seat.entry) }
{
    let name = seat.machine().name.as_str();
    let group = seat.number();
    let station = seat.station + 1;
    let address = seat.serves();
    write!(text, "{name} group-{group}-station-{station} {address}\n")
}
