//! The document.

ghost use Rattle.std.specs.Prelude.{◌≡◌, ◌++◌, IfOk, None, OnOk, Some, ◌==◌, option_map};
ghost use Rattle.mon_page.specs.Devices.{devices};
ghost use Rattle.mon_page.specs.Labelled.{labelled};
ghost use Rattle.mon_page.specs.Page.{body_text, counts_of, device_sections, head_text, page_text, refresh_of, refresh_text, start_text};
ghost use Rattle.mon_page.specs.Rows.{rows_of};

use crate::devices::devices_of;
use crate::escape::put_between;
use crate::extras::Extras;
use crate::figures::Figures;
use crate::head::{counts_of, put_counts, put_origin, put_title};
use crate::row::{Row, rows_of};
use crate::section::{Sections, put_sections};
use crate::style::put_style;
use crate::wrong::put_wrong;
use itoa::Buffer;
use mon_report::Entry;
use mon_smi::NameTexts;
use std::alloc::{AllocError, Global};

/// Makes the page of a report: how it is with the station, what is wrong now, and a section for
/// each device. Names of instances are as `names` has them. A browser loads the page of a running
/// station again after the station's interval. The buffer's octets are dropped, and its capacity is
/// used again.
///
/// # Errors
/// `AllocError` if there is no memory for it.
#[tactic(auto, unfolding(crate::specs::Page::page_text))]
pub fn page_report<S: NameTexts>(
    alloc: Global,
    buffer: Vec<u8>,
    names: &S,
    entries: &[Entry],
    extras: Extras<'_>,
) -> Result<Vec<u8>, AllocError>
    ensures { IfOk result (λ text. text.items ≡ page_text (S.shown names.now)
        (labelled extras.entry.labels.now entries.now) (option_map (λ f. f.now)
        extras.entry.station) extras.entry.presentation.now) }
{
    let mut text = buffer;
    text.clear();
    put_head(
        &mut text,
        extras.station,
        extras.presentation.label.as_deref(),
    )?;
    put_body(alloc, &mut text, names, entries, extras)?;
    Ok(text)
}

/// Adds what follows the head.
fn put_body<S: NameTexts>(
    alloc: Global,
    text: &mut Vec<u8>,
    names: &S,
    entries: &[Entry],
    extras: Extras<'_>,
) -> Result<(), AllocError>
    ensures { OnOk result (text.new.items ≡ text.old.items
        ++ body_text (S.shown names.now) (rows_of (option_map (λ f. f.now) extras.entry.station) (labelled extras.entry.labels.now entries.now)) (option_map (λ f. f.now) extras.entry.station) extras.entry.presentation.now.file_age) }
{
    let rows = rows_of(alloc, entries, extras)?;
    put_rows(
        alloc,
        text,
        names,
        rows.as_slice(),
        Origin {
            station: extras.station,
            file_age: extras.presentation.file_age,
        },
    )
}

/// What a page is of: a station, or a file of this age.
#[derive(Clone, Copy)]
struct Origin<'a> {
    station: Option<&'a Figures>,
    file_age: Option<u64>,
}

/// Adds what follows the head, of these instances.
#[tactic(auto, unfolding(crate::specs::Page::body_text))]
fn put_rows<S: NameTexts>(
    alloc: Global,
    text: &mut Vec<u8>,
    names: &S,
    rows: &[Row],
    origin: Origin<'_>,
) -> Result<(), AllocError>
    ensures { OnOk result (text.new.items ≡ text.old.items ++ body_text (S.shown names.now) rows.now
        (option_map (λ f. f.now) origin.entry.station) origin.entry.file_age) }
{
    put_origin(text, origin.station, origin.file_age)?;
    let counts = counts_of(alloc, origin.station, rows)?;
    put_counts(text, origin.station, counts)?;
    put_wrong(alloc, text, names, rows, origin.station)?;
    put_row_sections(alloc, text, names, origin.station, rows)?;
    text.extend_from_slice(b"</body>\n</html>\n")
}

/// Adds the sections of instances' devices.
fn put_row_sections<S: NameTexts>(
    alloc: Global,
    text: &mut Vec<u8>,
    names: &S,
    station: Option<&Figures>,
    rows: &[Row],
) -> Result<(), AllocError>
    ensures { OnOk result (text.new.items ≡ text.old.items ++ device_sections (S.shown names.now)
        (option_map (λ f. f.now) station.entry) (devices rows.now)) }
{
    let found = devices_of(alloc, rows)?;
    put_sections(
        alloc,
        text,
        names,
        Sections {
            station,
            devices: found.as_slice(),
        },
    )
}

/// Returns after how many seconds a browser loads the page again, or `None` if it does not.
fn refresh_of(station: Option<&Figures>) -> Option<u32>
    ensures { result ≡ refresh_of (option_map (λ f. f.now) station.entry) }
{
    let Some(figures) = station else {
        return None;
    };
    if figures.interval == 0 {
        return None;
    }
    Some(figures.interval)
}

/// Adds the head of the document.
#[tactic(auto, unfolding(crate::specs::Page::head_text))]
fn put_head(
    text: &mut Vec<u8>,
    station: Option<&Figures>,
    label: Option<&str>,
) -> Result<(), AllocError>
    ensures { OnOk result (text.new.items ≡ text.old.items ++ head_text
        (option_map (λ f. f.now) station.entry) (option_map (λ l. l.now) label.entry)) }
{
    put_start(text, station)?;
    put_title(text, station, label)?;
    text.extend_from_slice(b"</title>\n<style>")?;
    put_style(text)?;
    text.extend_from_slice(b"</style>\n</head>\n<body>\n<header>\n<h1>")?;
    put_title(text, station, label)?;
    text.extend_from_slice(b"</h1>\n")
}

/// Adds what is before the title.
#[tactic(auto, unfolding(crate::specs::Page::start_text))]
fn put_start(text: &mut Vec<u8>, station: Option<&Figures>) -> Result<(), AllocError>
    ensures { OnOk result (text.new.items ≡ text.old.items ++ start_text
        (option_map (λ f. f.now) station.entry)) }
{
    text.extend_from_slice(
        b"<!DOCTYPE html>\n<html lang=\"en\">\n<head>\n<meta charset=\"utf-8\">\n",
    )?;
    put_refresh(text, station)?;
    text.extend_from_slice(
        b"<meta name=\"viewport\" content=\"width=device-width, initial-scale=1\">\n<title>",
    )
}

/// Adds after how many seconds a browser loads the page again, if it does.
fn put_refresh(text: &mut Vec<u8>, station: Option<&Figures>) -> Result<(), AllocError>
    ensures { OnOk result (text.new.items ≡ text.old.items ++ refresh_text
        (refresh_of (option_map (λ f. f.now) station.entry))) }
{
    let Some(seconds) = refresh_of(station) else {
        return Ok(());
    };
    let mut digits = Buffer::new();
    let number = digits.format(seconds);
    put_between(
        text,
        b"<meta http-equiv=\"refresh\" content=\"",
        number.as_bytes(),
        b"\">\n",
    )
}
