//! The section of a device.

ghost use Rattle.std.specs.Prelude.{◌≡◌, ◌++◌, OnOk, length, option_map};
ghost use Rattle.mon_page.specs.Devices.{engine_of, naming_row, newest_stamp};
ghost use Rattle.mon_page.specs.Page.{device_sections, heading_of, interface_table, naming_words, open_word, other_table, section_line, section_start, section_text, sections_from, state_words, up_of, uptime_words};
ghost use Rattle.mon_page.specs.Seats.{interfaces, others};

use crate::devices::{Device, engine_of, naming_row, newest_stamp, targets_of};
use crate::figures::Figures;
use crate::numbers::put_count;
use crate::row::Row;
use crate::seats::{interfaces, others, placed};
use crate::table::{put_interfaces, put_others};
use crate::words::{put_device_words, put_duration, put_engine};
use mon_smi::NameTexts;
use std::alloc::{AllocError, Global};

/// What the heading of a section says after the names of its device.
#[derive(Clone, Copy)]
pub(crate) struct Heading {
    /// The device's number on the page, from 1.
    pub number: usize,
    /// Says whether its content is shown.
    pub is_open: bool,
    /// Says whether the device is up, if there is a station.
    pub up: Option<bool>,
}

/// Returns the class of a section.
fn open_word(is_open: bool) -> &'static [u8]
    ensures { result.now ≡ open_word is_open }
{
    if is_open { b"open" } else { b"closed" }
}

/// Returns whether a device is up in words, if a station says so.
fn state_words(up: Option<bool>) -> &'static [u8]
    ensures { result.now ≡ state_words up }
{
    match up {
        None => b"",
        Some(true) => b"<b class=\"up\">up</b> ",
        Some(false) => b"<b class=\"down\">down</b> ",
    }
}

/// Adds how long the agent of a device was up at its newest sample, if there is one.
fn put_uptime(text: &mut Vec<u8>, device: &[Row]) -> Result<(), AllocError>
    ensures { OnOk result (text.new.items ≡ text.old.items ++ uptime_words
        (newest_stamp 0 device.now)) }
{
    let stamp = newest_stamp(device);
    if stamp == 0 {
        return Ok(());
    }
    text.extend_from_slice(b"agent up ")?;
    put_duration(text, stamp % (1 << 32))
}

/// Adds the text that names a device.
fn put_naming(alloc: Global, text: &mut Vec<u8>, device: &[Row]) -> Result<(), AllocError>
    ensures { OnOk result (text.new.items
        ≡ text.old.items ++ naming_words (naming_row device.now)) }
{
    match naming_row(device) {
        None => Ok(()),
        Some(row) => put_device_words(alloc, text, row),
    }
}

/// Adds the heading of a section.
#[tactic(auto, unfolding(crate::specs::Page::section_start))]
fn put_start(
    alloc: Global,
    text: &mut Vec<u8>,
    heading: Heading,
    device: &[Row],
) -> Result<(), AllocError>
    ensures { OnOk result (text.new.items ≡ text.old.items ++ section_start heading device.now) }
{
    text.extend_from_slice(b"<section id=\"d")?;
    put_count(text, heading.number)?;
    text.extend_from_slice(b"\" class=\"")?;
    text.extend_from_slice(open_word(heading.is_open))?;
    text.extend_from_slice(b"\">\n<h3><a href=\"#d")?;
    put_count(text, heading.number)?;
    text.extend_from_slice(b"\">")?;
    put_naming(alloc, text, device)?;
    text.extend_from_slice(b"</a> <small>")?;
    put_engine(alloc, text, engine_of(device))?;
    text.extend_from_slice(b"</small></h3>\n")
}

/// Adds the line below the heading.
#[tactic(auto, unfolding(crate::specs::Page::section_line))]
fn put_line(text: &mut Vec<u8>, heading: Heading, device: &[Row]) -> Result<(), AllocError>
    ensures { OnOk result (text.new.items ≡ text.old.items ++ section_line heading device.now) }
{
    text.extend_from_slice(b"<p>")?;
    text.extend_from_slice(state_words(heading.up))?;
    put_uptime(text, device)?;
    text.extend_from_slice(b"</p>\n<div>\n")
}

/// Adds the interfaces of a device.
fn put_device_interfaces(
    alloc: Global,
    text: &mut Vec<u8>,
    device: &[Row],
) -> Result<(), AllocError>
    ensures { OnOk result (text.new.items ≡ text.old.items ++ interface_table
        (interfaces device.now)) }
{
    let rows = placed(alloc, device)?;
    let found = interfaces(alloc, rows.as_slice())?;
    put_interfaces(alloc, text, found.as_slice())
}

/// Adds the other instances of a device.
fn put_device_others<S: NameTexts>(
    alloc: Global,
    text: &mut Vec<u8>,
    names: &S,
    device: &[Row],
) -> Result<(), AllocError>
    ensures { OnOk result (text.new.items ≡ text.old.items ++ other_table (S.shown names.now)
        (others device.now)) }
{
    let rows = others(alloc, device)?;
    put_others(alloc, text, names, rows.as_slice())
}

/// Adds the section of a device.
#[tactic(auto, unfolding(crate::specs::Page::section_text))]
fn put_section<S: NameTexts>(
    alloc: Global,
    text: &mut Vec<u8>,
    names: &S,
    heading: Heading,
    device: &[Row],
) -> Result<(), AllocError>
    ensures { OnOk result (text.new.items ≡ text.old.items ++ section_text (S.shown names.now)
        heading device.now) }
{
    put_start(alloc, text, heading, device)?;
    put_line(text, heading, device)?;
    put_device_interfaces(alloc, text, device)?;
    put_device_others(alloc, text, names, device)?;
    text.extend_from_slice(b"</div>\n</section>\n")
}

/// Returns whether a device is up, if there is a station.
fn up_of(station: Option<&Figures>, device: &Device) -> Option<bool>
    ensures { result ≡ up_of (option_map (λ f. f.now) station.entry) device.now }
{
    match station {
        None => None,
        Some(figures) => Some(device.is_up(figures.targets.as_slice())),
    }
}

/// Returns the heading of a device, by how many devices there are.
fn heading_of(station: Option<&Figures>, count: usize, number: usize, device: &Device) -> Heading
    ensures { result ≡ heading_of (option_map (λ f. f.now) station.entry) count number device.now }
{
    Heading {
        number,
        is_open: !(4 < count) || device.is_wrong(targets_of(station)),
        up: up_of(station, device),
    }
}

/// The devices of a page, and what a station says of itself.
#[derive(Clone, Copy)]
pub(crate) struct Sections<'p, 'r, 'a, 'e> {
    pub(crate) station: Option<&'p Figures>,
    pub(crate) devices: &'p [Device<'r, 'a, 'e>],
}

/// Adds the sections of all devices.
fn put_all<S: NameTexts>(
    alloc: Global,
    text: &mut Vec<u8>,
    names: &S,
    page: Sections,
) -> Result<(), AllocError>
    ensures { OnOk result (text.new.items ≡ text.old.items ++ sections_from (S.shown names.now)
        (option_map (λ f. f.now) page.entry.station) (length page.entry.devices.now) 0
        page.entry.devices.now) }
{
    for place in 0..page.devices.len() {
        let device = &page.devices[place];
        let heading = heading_of(page.station, page.devices.len(), place + 1, device);
        put_section(alloc, text, names, heading, device.rows())?;
    }
    Ok(())
}

/// Adds the sections of all devices, with a heading.
#[tactic(auto, unfolding(crate::specs::Page::device_sections))]
pub(crate) fn put_sections<S: NameTexts>(
    alloc: Global,
    text: &mut Vec<u8>,
    names: &S,
    page: Sections,
) -> Result<(), AllocError>
    ensures { OnOk result (text.new.items ≡ text.old.items ++ device_sections (S.shown names.now)
        (option_map (λ f. f.now) page.entry.station) page.entry.devices.now) }
{
    text.extend_from_slice(b"<h2>Devices</h2>\n")?;
    put_all(alloc, text, names, page)
}
