//! The tables of a device: its interfaces, and its other instances.

ghost use Rattle.std.specs.Prelude.{◌≡◌, ◌++◌, None, OnOk, Some, find, option_map};
ghost use Rattle.std.specs.List.{flat_map};
ghost use Rattle.mon_display.specs.Rate.{percent_text};
ghost use Rattle.mon_page.specs.Cells.{fresh_rate};
ghost use Rattle.mon_page.specs.Page.{alias_words, column_words, fault_of, fault_words, figure_cells, first_of, has_state, interface_lines, interface_row, interface_table, label_if, label_line, label_start, name_cell, name_words, octets_if, octets_words, older, oldest, other_lines, other_row, other_table, percent_of, row_end, row_start, share_if, share_words, worst_state};
ghost use Rattle.mon_page.specs.Seats.{comes_in, goes_out};
ghost use Rattle.mon_page.specs.Words.{bits_of};

use crate::escape::{put_between, put_escaped};
use crate::freshness::fresh_rate;
use crate::numbers::put_wide;
use crate::plot::put_plot;
use crate::row::Row;
use crate::seats::{Interface, comes_in, goes_out};
use crate::words::{
    bits_of, put_age, put_fresh_rate, put_interface_words, put_now, put_rate_text, put_value,
};
use crate::wrong::put_shown;
use mon_display::{Column, Unit, percent_text};
use mon_smi::NameTexts;
use std::alloc::{AllocError, Global};

/// Adds the part of a speed that a rate of octets is, as a percentage and a bar.
#[tactic(auto, unfolding(crate::specs::Page::share_words))]
fn put_share_words(
    alloc: Global,
    text: &mut Vec<u8>,
    rate: u128,
    speed: u64,
) -> Result<(), AllocError>
    ensures { OnOk result (text.new.items ≡ text.old.items ++ share_words rate speed) }
{
    text.extend_from_slice(b" ")?;
    put_percent(alloc, text, rate, speed)?;
    text.extend_from_slice(b"<meter max=\"100\" value=\"")?;
    put_wide(text, percent_of(rate, speed))?;
    text.extend_from_slice(b"\"></meter>")
}

/// Returns what percentage of a speed a rate of octets is, rounded down.
fn percent_of(rate: u128, speed: u64) -> u128
    ensures { result ≡ percent_of rate speed }
{
    bits_of(rate) / (10 * u128::from(speed.max(1)))
}

/// Adds a rate of octets as a percentage of a speed.
fn put_percent(alloc: Global, text: &mut Vec<u8>, rate: u128, speed: u64) -> Result<(), AllocError>
    ensures { OnOk result (text.new.items ≡ text.old.items ++ percent_text (bits_of rate) speed) }
{
    let words = percent_text(alloc, bits_of(rate), speed)?;
    text.extend_from_slice(words.as_bytes())
}

/// Adds the part of its speed that an instance has, if its rate and its speed are known.
fn put_share(alloc: Global, text: &mut Vec<u8>, row: &Row) -> Result<(), AllocError>
    ensures { OnOk result (text.new.items ≡ text.old.items ++ share_if
        (fresh_rate row.now.fresh row.now.entry.items) row.now.labels.speed) }
{
    let Some(rate) = fresh_rate(row.entry(), row.is_fresh()) else {
        return Ok(());
    };
    let Some(speed) = row.speed() else {
        return Ok(());
    };
    put_share_words(alloc, text, rate, speed)
}

/// Adds what the octets of an instance are now, their part of the speed, and their plot, if there
/// is one.
#[tactic(auto, unfolding(crate::specs::Page::octets_words))]
fn put_octets_if(alloc: Global, text: &mut Vec<u8>, row: Option<&Row>) -> Result<(), AllocError>
    ensures { OnOk result (text.new.items ≡ text.old.items ++ octets_if
        (option_map (λ r. r.now) row.entry)) }
{
    let Some(row) = row else {
        return Ok(());
    };
    put_now(alloc, text, row)?;
    put_share(alloc, text, row)?;
    put_plot(alloc, text, row)
}

/// Returns the first instance that came in.
fn first_in<'r, 'a, 'e>(rows: &'r [Row<'a, 'e>]) -> Option<&'r Row<'a, 'e>>
    ensures { option_map (λ r. r.now) result ≡ find comes_in rows.now }
{
    rows.iter().find(|row| comes_in(row))
}

/// Returns the first instance that went out.
fn first_out<'r, 'a, 'e>(rows: &'r [Row<'a, 'e>]) -> Option<&'r Row<'a, 'e>>
    ensures { option_map (λ r. r.now) result ≡ find goes_out rows.now }
{
    rows.iter().find(|row| goes_out(row))
}

/// Returns what a column counts, in words.
fn column_words(column: Column) -> &'static [u8]
    ensures { result.now ≡ column_words column }
{
    match column {
        Column::InOctets => b"",
        Column::OutOctets => b"",
        Column::InErrors => b"in errors ",
        Column::OutErrors => b"out errors ",
        Column::InDiscards => b"in discards ",
        Column::OutDiscards => b"out discards ",
        Column::Other => b"",
    }
}

/// Adds the errors or discards of an instance a second, unless they are 0 or not known. It has none
/// if it counts octets.
#[tactic(auto, unfolding(crate::specs::Page::fault_words))]
fn put_fault(alloc: Global, text: &mut Vec<u8>, row: &Row) -> Result<(), AllocError>
    ensures { OnOk result (text.new.items ≡ text.old.items ++ fault_of row.now) }
{
    if comes_in(row) || goes_out(row) {
        return Ok(());
    }
    let Some(rate) = fresh_rate(row.entry(), row.is_fresh()) else {
        return Ok(());
    };
    if rate == 0 {
        return Ok(());
    }
    text.extend_from_slice(b"<div>")?;
    text.extend_from_slice(column_words(row.column()))?;
    put_rate_text(alloc, text, Unit::Each, rate)?;
    text.extend_from_slice(b"</div>")
}

/// Adds those of all instances of an interface.
fn put_faults(alloc: Global, text: &mut Vec<u8>, rows: &[Row]) -> Result<(), AllocError>
    ensures { OnOk result (text.new.items ≡ text.old.items ++ flat_map fault_of rows.now) }
{
    for row in rows {
        put_fault(alloc, text, row)?;
    }
    Ok(())
}

/// Returns `true` if some instance is in this state.
fn has_state(rows: &[Row], word: &str) -> bool
    ensures { result ≡ has_state rows.now word.now }
{
    rows.iter().any(|row| row.state() == word)
}

/// Returns the state of instances together.
fn worst_state(rows: &[Row]) -> &'static str
    ensures { result.now ≡ worst_state rows.now }
{
    if has_state(rows, "RAISED") {
        "RAISED"
    } else if has_state(rows, "clear") {
        "clear"
    } else if has_state(rows, "-") {
        "-"
    } else {
        "stale"
    }
}

/// Returns the greater of two ages, as far as they are known.
fn older(some: Option<u32>, other: Option<u32>) -> Option<u32>
    ensures { result ≡ older some other }
{
    let Some(age) = some else {
        return other;
    };
    let Some(other) = other else {
        return some;
    };
    Some(age.max(other))
}

/// Returns the greatest age of instances.
fn oldest(rows: &[Row]) -> Option<u32>
    ensures { result ≡ oldest None rows.now }
{
    let mut age = None;
    for row in rows {
        age = older(age, row.age());
    }
    age
}

/// Adds the beginning of a row in this state.
#[tactic(auto, unfolding(crate::specs::Page::row_start))]
fn put_row_start(text: &mut Vec<u8>, state: &str) -> Result<(), AllocError>
    ensures { OnOk result (text.new.items ≡ text.old.items ++ row_start state.now) }
{
    put_between(
        text,
        b"<tr class=\"",
        state.as_bytes(),
        b"\"><th scope=\"row\">",
    )
}

/// Adds the cells of a state and an age, and the end of a row.
#[tactic(auto, unfolding(crate::specs::Page::row_end))]
fn put_row_end(text: &mut Vec<u8>, state: &str, age: Option<u32>) -> Result<(), AllocError>
    ensures { OnOk result (text.new.items ≡ text.old.items ++ row_end state.now age) }
{
    put_between(
        text,
        b"</td><td class=\"s\">",
        state.as_bytes(),
        b"</td><td>",
    )?;
    put_age(text, age)?;
    text.extend_from_slice(b"</td></tr>\n")
}

/// Adds which interface the first of instances is of.
fn put_name(text: &mut Vec<u8>, rows: &[Row]) -> Result<(), AllocError>
    ensures { OnOk result (text.new.items ≡ text.old.items ++ name_words (first_of rows.now)) }
{
    let Some(row) = rows.first() else {
        return Ok(());
    };
    let Some(index) = row.index() else {
        return Ok(());
    };
    put_interface_words(text, row.if_name(), index)
}

/// Adds the ifAlias of the interface of the first of instances, if it is known.
fn put_alias(text: &mut Vec<u8>, rows: &[Row]) -> Result<(), AllocError>
    ensures { OnOk result (text.new.items ≡ text.old.items ++ alias_words (first_of rows.now)) }
{
    let Some(row) = rows.first() else {
        return Ok(());
    };
    let Some(alias) = row.if_alias() else {
        return Ok(());
    };
    put_escaped(text, alias.as_bytes())
}

/// Adds the row of an interface with these instances.
#[tactic(auto, unfolding(crate::specs::Page::interface_row))]
fn put_interface_row(alloc: Global, text: &mut Vec<u8>, rows: &[Row]) -> Result<(), AllocError>
    ensures { OnOk result (text.new.items ≡ text.old.items ++ interface_row rows.now) }
{
    let state = worst_state(rows);
    put_row_start(text, state)?;
    put_name(text, rows)?;
    text.extend_from_slice(b"</th><td class=\"t\">")?;
    put_alias(text, rows)?;
    text.extend_from_slice(b"</td><td>")?;
    put_octets_if(alloc, text, first_in(rows))?;
    text.extend_from_slice(b"</td><td>")?;
    put_octets_if(alloc, text, first_out(rows))?;
    text.extend_from_slice(b"</td><td>")?;
    put_faults(alloc, text, rows)?;
    put_row_end(text, state, oldest(rows))
}

/// Adds the rows of interfaces.
fn put_interface_rows(
    alloc: Global,
    text: &mut Vec<u8>,
    interfaces: &[Interface],
) -> Result<(), AllocError>
    ensures { OnOk result (text.new.items
        ≡ text.old.items ++ flat_map interface_row interfaces.now) }
{
    for interface in interfaces {
        put_interface_row(alloc, text, interface.rows())?;
    }
    Ok(())
}

/// Adds the table of interfaces, if there are any.
#[tactic(auto, unfolding(crate::specs::Page::interface_lines))]
pub(crate) fn put_interfaces(
    alloc: Global,
    text: &mut Vec<u8>,
    interfaces: &[Interface],
) -> Result<(), AllocError>
    ensures { OnOk result (text.new.items ≡ text.old.items ++ interface_table interfaces.now) }
{
    if interfaces.is_empty() {
        return Ok(());
    }
    text.extend_from_slice(
        b"<table class=\"i\">\n<caption>Interfaces</caption>\n<thead><tr><th scope=\"col\">Interface</th><th scope=\"col\">Alias</th><th scope=\"col\">In</th><th scope=\"col\">Out</th><th scope=\"col\">Errors and discards</th><th scope=\"col\">Alarm</th><th scope=\"col\">Age in rounds</th></tr></thead>\n<tbody>\n",
    )?;
    put_interface_rows(alloc, text, interfaces)?;
    text.extend_from_slice(b"</tbody>\n</table>\n")
}

/// Adds the line of a label, if it is known.
fn put_label_if(text: &mut Vec<u8>, title: &[u8], label: Option<&str>) -> Result<(), AllocError>
    ensures { OnOk result (text.new.items ≡ text.old.items ++ label_if title.now
        (option_map (λ n. n.now) label.entry)) }
{
    match label {
        None => Ok(()),
        Some(label) => put_label(text, title, label.as_bytes()),
    }
}

/// Adds the line of a label.
#[tactic(auto, unfolding(crate::specs::Page::label_line, crate::specs::Page::label_start))]
fn put_label(text: &mut Vec<u8>, title: &[u8], label: &[u8]) -> Result<(), AllocError>
    ensures { OnOk result (text.new.items ≡ text.old.items ++ label_line title.now label.now) }
{
    text.extend_from_slice(b"<div style=\"max-width:20rem\">")?;
    text.extend_from_slice(title)?;
    text.extend_from_slice(b" ")?;
    put_escaped(text, label)?;
    text.extend_from_slice(b"</div>")
}

/// Adds the name of an instance, with its ifName and its ifAlias below it.
#[tactic(auto, unfolding(crate::specs::Page::name_cell))]
fn put_name_cell<S: NameTexts>(
    alloc: Global,
    text: &mut Vec<u8>,
    names: &S,
    row: &Row,
) -> Result<(), AllocError>
    ensures { OnOk result (text.new.items
        ≡ text.old.items ++ name_cell (S.shown names.now) row.now) }
{
    put_shown(alloc, text, names, row)?;
    put_label_if(text, b"ifName", row.if_name())?;
    put_label_if(text, b"ifAlias", row.if_alias())
}

/// Adds the cells of a value and a rate.
#[tactic(auto, unfolding(crate::specs::Page::figure_cells))]
fn put_figures(alloc: Global, text: &mut Vec<u8>, row: &Row) -> Result<(), AllocError>
    ensures { OnOk result (text.new.items ≡ text.old.items ++ figure_cells row.now) }
{
    text.extend_from_slice(b"</th><td>")?;
    put_value(text, row.entry().samples())?;
    text.extend_from_slice(b"</td><td>")?;
    put_fresh_rate(alloc, text, row)
}

/// Adds the row of an instance.
#[tactic(auto, unfolding(crate::specs::Page::other_row))]
fn put_other_row<S: NameTexts>(
    alloc: Global,
    text: &mut Vec<u8>,
    names: &S,
    row: &Row,
) -> Result<(), AllocError>
    ensures { OnOk result (text.new.items
        ≡ text.old.items ++ other_row (S.shown names.now) row.now) }
{
    put_row_start(text, row.state())?;
    put_name_cell(alloc, text, names, row)?;
    put_figures(alloc, text, row)?;
    text.extend_from_slice(b"</td><td>")?;
    put_plot(alloc, text, row)?;
    put_row_end(text, row.state(), row.age())
}

/// Adds the rows of instances.
fn put_other_rows<S: NameTexts>(
    alloc: Global,
    text: &mut Vec<u8>,
    names: &S,
    rows: &[Row],
) -> Result<(), AllocError>
    ensures { OnOk result (text.new.items ≡ text.old.items ++ flat_map
        (other_row (S.shown names.now)) rows.now) }
{
    for row in rows {
        put_other_row(alloc, text, names, row)?;
    }
    Ok(())
}

/// Adds the table of other instances, if there are any.
#[tactic(auto, unfolding(crate::specs::Page::other_lines))]
pub(crate) fn put_others<S: NameTexts>(
    alloc: Global,
    text: &mut Vec<u8>,
    names: &S,
    rows: &[Row],
) -> Result<(), AllocError>
    ensures { OnOk result (text.new.items ≡ text.old.items ++ other_table (S.shown names.now)
        rows.now) }
{
    if rows.is_empty() {
        return Ok(());
    }
    text.extend_from_slice(
        b"<table class=\"o\">\n<caption>Other instances</caption>\n<thead><tr><th scope=\"col\">Name</th><th scope=\"col\">Value</th><th scope=\"col\">Rate</th><th scope=\"col\">Window</th><th scope=\"col\">Alarm</th><th scope=\"col\">Age in rounds</th></tr></thead>\n<tbody>\n",
    )?;
    put_other_rows(alloc, text, names, rows)?;
    text.extend_from_slice(b"</tbody>\n</table>\n")
}
