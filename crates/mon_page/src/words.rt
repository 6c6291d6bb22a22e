//! The texts of an instance: its value now, its device, its interface; and how long something is.

ghost use Rattle.std.specs.Prelude.{◌≡◌, ◌++◌, OnOk, None, Some, decimal, option_map};
ghost use Rattle.hex.specs.Hex.{encode_lower};
ghost use Rattle.mon_page.specs.Cells.{age_cell, fresh_rate, newest_of, value_cell};
ghost use Rattle.mon_page.specs.Words.{bits_of, counts_octets, device_words, duration_words, interface_words, is_counted, is_labelled, level_words, now_words, rate_or_dash, rate_words, two_units};
ghost use Rattle.mon_display.specs.Rate.{rate_text};
ghost use Rattle.mon_display.specs.Interface.{column_of};
ghost use Rattle.mon_display.specs.declared.rate.Unit.TheVariants.{Bits};

use crate::escape::put_escaped;
use crate::freshness::fresh_rate;
use crate::numbers::{put_large, put_small, put_wide};
use crate::row::Row;
use itoa::Buffer;
use mon_display::{Column, Unit, device_text, rate_text};
use mon_rates::is_counter;
use mon_sample::Sample;
use std::alloc::{AllocError, Global};

/// Returns `true` if the column counts octets.
pub(crate) fn counts_octets(column: Column) -> bool
    ensures { result ≡ counts_octets column }
{
    matches!(column, Column::InOctets | Column::OutOctets)
}

/// Returns bits of octets, both in thousandths a second; of more than 2^124 those of 2^124.
pub(crate) fn bits_of(rate: u128) -> u128
    ensures { result ≡ bits_of rate }
{
    8 * rate.min(1 << 124)
}

/// Adds a rate of this unit.
pub(crate) fn put_rate_text(
    alloc: Global,
    text: &mut Vec<u8>,
    unit: Unit,
    rate: u128,
) -> Result<(), AllocError>
    ensures { OnOk result (text.new.items ≡ text.old.items ++ rate_text unit rate) }
{
    let words = rate_text(alloc, unit, rate)?;
    text.extend_from_slice(words.as_bytes())
}

/// Adds a rate of a column, in thousandths a second: in bits if it counts octets.
pub(crate) fn put_rate(
    alloc: Global,
    text: &mut Vec<u8>,
    column: Column,
    rate: u128,
) -> Result<(), AllocError>
    ensures { OnOk result (text.new.items ≡ text.old.items ++ rate_words column rate) }
{
    if counts_octets(column) {
        put_rate_text(alloc, text, Unit::Bits, bits_of(rate))
    } else {
        put_rate_text(alloc, text, Unit::Each, rate)
    }
}

/// Adds a level of a plot: a counter's rate, else a value that was moved up by 2^63.
pub(crate) fn put_level(
    alloc: Global,
    text: &mut Vec<u8>,
    column: Column,
    counted: bool,
    level: u128,
) -> Result<(), AllocError>
    ensures { OnOk result (text.new.items ≡ text.old.items ++ level_words column counted level) }
{
    if counted {
        return put_rate(alloc, text, column, level);
    }
    if level < 1 << 63 {
        text.extend_from_slice(b"-")?;
        put_wide(text, (1 << 63) - level)
    } else {
        put_wide(text, level - (1 << 63))
    }
}

/// Returns `true` if the samples are a counter's.
pub(crate) fn is_counted(samples: &[Sample]) -> bool
    ensures { result ≡ is_counted (newest_of samples.now) }
{
    let Some(newest) = samples.last() else {
        return false;
    };
    is_counter(newest.kind())
}

/// Adds the value of an instance now.
pub(crate) fn put_now(alloc: Global, text: &mut Vec<u8>, row: &Row) -> Result<(), AllocError>
    ensures { OnOk result (text.new.items ≡ text.old.items ++ now_words row.now) }
{
    if is_counted(row.entry().samples()) {
        put_fresh_rate(alloc, text, row)
    } else {
        put_value(text, row.entry().samples())
    }
}

/// Adds the rate of an instance, with a dash if it has none or is stale.
pub(crate) fn put_fresh_rate(alloc: Global, text: &mut Vec<u8>, row: &Row) -> Result<(), AllocError>
    ensures { OnOk result (text.new.items ≡ text.old.items ++ rate_or_dash
        (column_of row.now.entry.name) (fresh_rate row.now.fresh row.now.entry.items)) }
{
    let Some(rate) = fresh_rate(row.entry(), row.is_fresh()) else {
        return text.extend_from_slice(b"-");
    };
    put_rate(alloc, text, row.column(), rate)
}

/// Adds the newest value, with a dash if there is none.
pub(crate) fn put_value(text: &mut Vec<u8>, samples: &[Sample]) -> Result<(), AllocError>
    ensures { OnOk result (text.new.items ≡ text.old.items ++ value_cell (newest_of samples.now)) }
{
    let Some(newest) = samples.last() else {
        return text.extend_from_slice(b"-");
    };
    let mut digits = Buffer::new();
    text.extend_from_slice(digits.format(newest.number()).as_bytes())
}

/// Adds an age in rounds, with a dash if there is none.
pub(crate) fn put_age(text: &mut Vec<u8>, age: Option<u32>) -> Result<(), AllocError>
    ensures { OnOk result (text.new.items ≡ text.old.items ++ age_cell age) }
{
    match age {
        None => text.extend_from_slice(b"-"),
        Some(age) => put_small(text, age),
    }
}

/// Returns `true` if the address or the label of an instance's device is known.
pub(crate) fn is_labelled(row: &Row) -> bool
    ensures { result ≡ is_labelled row.now }
{
    row.target().is_some() || row.device().is_some()
}

/// Adds the device of an instance: its address and its label, or its engine id if neither is known.
pub(crate) fn put_device_words(
    alloc: Global,
    text: &mut Vec<u8>,
    row: &Row,
) -> Result<(), AllocError>
    ensures { OnOk result (text.new.items ≡ text.old.items ++ device_words row.now) }
{
    if !is_labelled(row) {
        return put_engine(alloc, text, row.entry().engine());
    }
    let words = device_text(alloc, row.target(), row.device())?;
    put_escaped(text, words.as_bytes())
}

/// Adds an engine id in hex digits.
pub(crate) fn put_engine(alloc: Global, text: &mut Vec<u8>, engine: &[u8]) -> Result<(), AllocError>
    ensures { OnOk result (text.new.items ≡ text.old.items ++ encode_lower engine.now) }
{
    let digits = hex::encode(alloc, engine)?;
    text.extend_from_slice(digits.as_bytes())
}

/// Adds an interface: its ifName, or its ifIndex if that is not known.
pub(crate) fn put_interface_words(
    text: &mut Vec<u8>,
    if_name: Option<&str>,
    index: u32,
) -> Result<(), AllocError>
    ensures { OnOk result (text.new.items ≡ text.old.items ++ interface_words
        (option_map (λ n. n.now) if_name.entry) index) }
{
    if let Some(name) = if_name {
        return put_escaped(text, name.as_bytes());
    }
    text.extend_from_slice(b"if ")?;
    put_small(text, index)
}

/// Adds a number of units, and another of smaller units.
#[tactic(auto, unfolding(crate::specs::Words::two_units))]
fn put_two(
    text: &mut Vec<u8>,
    large: u64,
    unit: &[u8],
    small: u64,
    part: &[u8],
) -> Result<(), AllocError>
    ensures { OnOk result (text.new.items ≡ text.old.items ++ two_units large unit.now small
        part.now) }
{
    put_large(text, large)?;
    text.extend_from_slice(unit)?;
    put_large(text, small)?;
    text.extend_from_slice(part)
}

/// Adds a number of units.
fn put_one(text: &mut Vec<u8>, number: u64, unit: &[u8]) -> Result<(), AllocError>
    ensures { OnOk result (text.new.items ≡ text.old.items ++ (decimal number ++ unit.now)) }
{
    put_large(text, number)?;
    text.extend_from_slice(unit)
}

/// Adds how long seconds are.
pub(crate) fn put_duration(text: &mut Vec<u8>, seconds: u64) -> Result<(), AllocError>
    ensures { OnOk result (text.new.items ≡ text.old.items ++ duration_words seconds) }
{
    if seconds < 60 {
        put_one(text, seconds, b" s")
    } else if seconds < 3600 {
        put_one(text, seconds / 60, b" min")
    } else if seconds < 86400 {
        put_two(text, seconds / 3600, b" h ", seconds % 3600 / 60, b" min")
    } else {
        put_two(text, seconds / 86400, b" d ", seconds % 86400 / 3600, b" h")
    }
}
