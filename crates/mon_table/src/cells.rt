//! What the cells of a row say.

ghost use Rattle.std.specs.Prelude.{◌≡◌, ◌<◌, ◌^◌, IfOk, slice_get, string_bytes};
ghost use Rattle.mon_page.specs.Cells.{age_cell};
ghost use Rattle.mon_table.specs.Cells.{bits_of, cells_of, count_at, is_either, is_octets, joined_state, name_at, name_of, older, paired_cells, part_at, rate_at, state_at, texts_of, value_at};

use crate::listing::Listing;
use crate::rows::{Row, is_in, is_out};
use mon_display::{Column, Unit, column_of, interface_text, percent_text, rate_text};
use mon_page::{fresh_rate, state_cell};
use mon_report::Entry;
use mon_smi::NameTexts;
use std::alloc::{AllocError, Global};
use std::marker::Model;

/// The cells of a row, which contracts see as their texts.
pub(crate) struct Cells {
    pub(crate) value: String,
    pub(crate) rate: String,
    pub(crate) part: String,
    pub(crate) out: String,
    pub(crate) out_part: String,
    pub(crate) alarm: &'static str,
    pub(crate) samples: String,
    pub(crate) age: String,
    pub(crate) name: String,
}

// By hand: where one is let go, a proof has one call and not a drop of each field.
impl Drop for Cells {
    fn drop(self) {
        let Cells {
            value: _,
            rate: _,
            part: _,
            out: _,
            out_part: _,
            alarm: _,
            samples: _,
            age: _,
            name: _,
        } = self;
    }
}

/// Returns the cells of a row.
pub(crate) fn cells_of<S: NameTexts>(
    alloc: Global,
    names: &S,
    listing: &Listing,
    row: Row,
) -> Result<Cells, AllocError>
    ensures { IfOk result (λ cells. texts_of cells ≡ cells_of (S.shown names.now) listing.now row) }
{
    match row.out {
        None => {
            let place = row.place;
            Ok(Cells {
                value: value_at(alloc, listing, place)?,
                rate: rate_at(alloc, listing, place)?,
                part: part_at(alloc, listing, place)?,
                out: String::new(alloc),
                out_part: String::new(alloc),
                alarm: state_at(alloc, listing, place)?,
                samples: count_at(listing, place).to_string(alloc)?,
                age: age_cell(alloc, listing.age(place))?,
                name: name_of(alloc, names, listing, row)?,
            })
        }
        Some(place) => paired_cells(alloc, names, listing, row, place),
    }
}

/// Returns the cells of a row of In and Out, of which Out is at this place.
fn paired_cells<S: NameTexts>(
    alloc: Global,
    names: &S,
    listing: &Listing,
    row: Row,
    out: usize,
) -> Result<Cells, AllocError>
    ensures { IfOk result (λ cells. texts_of cells ≡ paired_cells (S.shown names.now) listing.now
        row out) }
{
    let place = row.place;
    let (state, other) = (
        state_at(alloc, listing, place)?,
        state_at(alloc, listing, out)?,
    );
    let samples = count_at(listing, place) + count_at(listing, out);
    Ok(Cells {
        value: String::from_str(alloc, "-")?,
        rate: rate_at(alloc, listing, place)?,
        part: part_at(alloc, listing, place)?,
        out: rate_at(alloc, listing, out)?,
        out_part: part_at(alloc, listing, out)?,
        alarm: joined_state(state, other),
        samples: samples.to_string(alloc)?,
        age: age_cell(alloc, older(listing.age(place), listing.age(out)))?,
        name: name_of(alloc, names, listing, row)?,
    })
}

/// Returns the newest value of the instance at a place, or a dash if it has no sample.
fn value_at(alloc: Global, listing: &Listing, place: usize) -> Result<String, AllocError>
    ensures { IfOk result (λ text. string_bytes text ≡ value_at
        (slice_get listing.now.entries place)) }
{
    let Some(entry) = listing.entry(place) else {
        return Ok(String::new(alloc));
    };
    match entry.samples().last() {
        None => String::from_str(alloc, "-"),
        Some(newest) => newest.number().to_string(alloc),
    }
}

/// Returns `true` if a column is one of octets.
fn is_octets(column: Column) -> bool
    ensures { result ≡ is_octets column }
{
    is_in(column) || is_out(column)
}

/// Returns the rate of the instance at a place: of octets in bits; a dash if there is none.
fn rate_at(alloc: Global, listing: &Listing, place: usize) -> Result<String, AllocError>
    ensures { IfOk result (λ text. string_bytes text ≡ rate_at listing.now place
        (slice_get listing.now.entries place)) }
{
    let Some(entry) = listing.entry(place) else {
        return Ok(String::new(alloc));
    };
    let octets = is_octets(column_of(entry.name().parts()));
    match fresh_rate(entry, listing.is_fresh(place)) {
        None => String::from_str(alloc, "-"),
        Some(rate) if octets => rate_text(alloc, Unit::Bits, bits_of(rate)),
        Some(rate) => rate_text(alloc, Unit::Each, rate),
    }
}

/// Returns a rate of octets in bits, at most 2^128 - 1.
fn bits_of(rate: u128) -> u128
    ensures { result ≡ bits_of rate }
{
    rate.saturating_mul(8)
}

/// Returns the rate of the instance at a place as a part of the speed of its interface: nothing
/// unless it is one of octets and both are known.
fn part_at(alloc: Global, listing: &Listing, place: usize) -> Result<String, AllocError>
    ensures { IfOk result (λ text. string_bytes text ≡ part_at listing.now place
        (slice_get listing.now.entries place)) }
{
    let (Some(entry), Some(labels)) = (listing.entry(place), listing.labels(place)) else {
        return Ok(String::new(alloc));
    };
    if !is_octets(column_of(entry.name().parts())) {
        return Ok(String::new(alloc));
    }
    match (labels.speed, fresh_rate(entry, listing.is_fresh(place))) {
        (Some(speed), Some(rate)) => percent_text(alloc, bits_of(rate), speed),
        _ => Ok(String::new(alloc)),
    }
}

/// Returns what is said of the alarms of the instance at a place.
pub(crate) fn state_at(
    alloc: Global,
    listing: &Listing,
    place: usize,
) -> Result<&'static str, AllocError>
    ensures { IfOk result (λ text. text.now ≡ state_at listing.now place
        (slice_get listing.now.entries place)) }
{
    match listing.entry(place) {
        None => Ok("-"),
        Some(entry) => state_cell(alloc, entry, listing.is_fresh(place)),
    }
}

/// Returns `true` if one of two texts is this one.
fn is_either(word: &str, a: &str, b: &str) -> bool
    ensures { result ≡ is_either word.now a.now b.now }
{
    a == word || b == word
}

/// Returns what is said of the alarms of two instances.
fn joined_state(a: &str, b: &str) -> &'static str
    ensures { result.now ≡ joined_state a.now b.now }
{
    if is_either("stale", a, b) {
        return "stale";
    }
    if is_either("RAISED", a, b) {
        return "RAISED";
    }
    if is_either("clear", a, b) {
        return "clear";
    }
    "-"
}

/// Returns how many samples the instance at a place has.
fn count_at(listing: &Listing, place: usize) -> u128
    ensures count { result ≡ count_at (slice_get listing.now.entries place) }
    ensures small { result < 2 ^ 64 }
{
    match listing.entry(place) {
        None => 0,
        Some(entry) => entry.samples().len() as u128,
    }
}

/// Returns the greater of two ages.
fn older(age: Option<u32>, other: Option<u32>) -> Option<u32>
    ensures { result ≡ older age other }
{
    match (age, other) {
        (None, other) => other,
        (Some(age), None) => Some(age),
        (Some(age), Some(other)) => Some(age.max(other)),
    }
}

/// Returns in how many rounds there was no new sample, or a dash.
fn age_cell(alloc: Global, age: Option<u32>) -> Result<String, AllocError>
    ensures { IfOk result (λ text. string_bytes text ≡ age_cell age) }
{
    match age {
        None => String::from_str(alloc, "-"),
        Some(age) => age.to_string(alloc),
    }
}

/// Returns the name of a row, of its interface by the labels and the names of its instances: of two
/// instances the interface, or both names if it has no name.
fn name_of<S: NameTexts>(
    alloc: Global,
    names: &S,
    listing: &Listing,
    row: Row,
) -> Result<String, AllocError>
    ensures { IfOk result (λ text. string_bytes text
        ≡ name_of (S.shown names.now) listing.now row) }
{
    let mut interface = match listing.labels(row.place) {
        None => String::new(alloc),
        Some(labels) => interface_text(
            alloc,
            labels.if_name.as_deref(),
            labels.if_alias.as_deref(),
        )?,
    };
    let mut name = name_at(alloc, names, listing, row.place)?;
    match row.out {
        None => {
            if !interface.is_empty() && !name.is_empty() {
                interface.push_str(" ")?;
            }
            interface.push_str(&name)?;
            Ok(interface)
        }
        Some(_) if !interface.is_empty() => Ok(interface),
        Some(out) => {
            name.push_str(", ")?;
            name.push_str(&name_at(alloc, names, listing, out)?)?;
            Ok(name)
        }
    }
}

/// Returns the name of the instance at a place, as it is shown.
fn name_at<S: NameTexts>(
    alloc: Global,
    names: &S,
    listing: &Listing,
    place: usize,
) -> Result<String, AllocError>
    ensures { IfOk result (λ text. string_bytes text ≡ name_at (S.shown names.now)
        (slice_get listing.now.entries place)) }
{
    match listing.entry(place) {
        None => Ok(String::new(alloc)),
        Some(entry) => names.text(alloc, entry.name()),
    }
}
