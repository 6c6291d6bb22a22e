//! The lines of a table.

ghost use Rattle.std.specs.Prelude.{◌≡◌, ◌++◌, codes, IfOk, None, OnOk, map, max, option_copied, option_map, string_bytes};
ghost use Rattle.mon_table.specs.Cells.{cells_of, texts_of};
ghost use Rattle.mon_table.specs.Order.{engine_of};
ghost use Rattle.mon_table.specs.Table.{age_if, device_if_new, device_line, device_of, figure_cells, lines_from, rate_title, row_line, title_line, titled, to_left, to_right, to_right_if, widened, widths_of};

use crate::cells::{Cells, cells_of};
use crate::listing::Listing;
use crate::order::engine_of;
use crate::rows::Row;
use mon_display::device_text;
use mon_page::InstanceLabels;
use mon_smi::NameTexts;
use std::alloc::{AllocError, Global};

/// How wide the columns before the alarms are, in octets; a column of width 0 is left out.
#[derive(Clone, Copy)]
pub struct Widths {
    /// That of the values.
    pub value: usize,
    /// That of the rates, of octets in if there is one of octets out.
    pub rate: usize,
    /// That of the parts of the speed.
    pub part: usize,
    /// That of octets out.
    pub out: usize,
    /// That of their parts of the speed.
    pub out_part: usize,
}

/// How a row is printed: in columns of these widths, with a column of ages or without.
#[derive(Clone, Copy)]
pub(crate) struct Shape {
    pub(crate) widths: Widths,
    pub(crate) is_aged: bool,
}

/// Rows, and how each is printed.
#[derive(Clone, Copy)]
pub(crate) struct Lines<'a> {
    pub(crate) rows: &'a [Row],
    pub(crate) shape: Shape,
}

/// Returns the widths of the columns of these rows, with their titles.
pub(crate) fn widths_of<S: NameTexts>(
    alloc: Global,
    names: &S,
    listing: &Listing,
    rows: &[Row],
) -> Result<Widths, AllocError>
    ensures { IfOk result (λ w. w ≡ widths_of (map (cells_of (S.shown names.now) listing.now)
        rows.now)) }
{
    let mut widths = Widths {
        value: 0,
        rate: 0,
        part: 0,
        out: 0,
        out_part: 0,
    };
    for row in rows {
        widths = widened(widths, &cells_of(alloc, names, listing, *row)?);
    }
    Ok(Widths {
        value: titled("VALUE".len(), widths.value),
        rate: titled("RATE".len(), widths.rate),
        part: titled("%".len(), widths.part),
        out: titled("OUT".len(), widths.out),
        out_part: titled("%".len(), widths.out_part),
    })
}

/// Returns widths that are no less than those of a row's cells.
fn widened(widths: Widths, cells: &Cells) -> Widths
    ensures { result ≡ widened widths (texts_of cells.now) }
{
    Widths {
        value: widths.value.max(cells.value.len()),
        rate: widths.rate.max(cells.rate.len()),
        part: widths.part.max(cells.part.len()),
        out: widths.out.max(cells.out.len()),
        out_part: widths.out_part.max(cells.out_part.len()),
    }
}

/// Returns the width of a column whose widest cell has this width.
fn titled(title: usize, width: usize) -> usize
    ensures { result ≡ titled title width }
{
    if width == 0 {
        return 0;
    }
    title.max(width)
}

/// Adds the line of titles.
#[tactic(auto, unfolding(crate::specs::Table::title_cells))]
pub(crate) fn put_title(alloc: Global, text: &mut String, shape: Shape) -> Result<(), AllocError>
    ensures { OnOk result (string_bytes text.new ≡ string_bytes text.old
        ++ title_line shape.widths shape.is_aged) }
{
    put_figure_titles(alloc, text, shape.widths)?;
    put_left(alloc, text, 6, "ALARM")?;
    put_right(alloc, text, 7, "SAMPLES")?;
    put_age_if(alloc, text, shape.is_aged, "AGE")?;
    text.push_str("NAME\n")
}

/// Adds the titles before the alarms: rates are those of octets in if there is a column of octets
/// out.
#[tactic(auto, unfolding(crate::specs::Table::figure_cells))]
fn put_figure_titles(alloc: Global, text: &mut String, widths: Widths) -> Result<(), AllocError>
    ensures { OnOk result (string_bytes text.new ≡ string_bytes text.old
        ++ figure_cells widths (codes "VALUE") (rate_title widths) (codes "%") (codes "OUT") (codes "%")) }
{
    let rate = if widths.out == 0 { "RATE" } else { "IN" };
    put_right_if(alloc, text, widths.value, "VALUE")?;
    put_right_if(alloc, text, widths.rate, rate)?;
    put_right_if(alloc, text, widths.part, "%")?;
    put_right_if(alloc, text, widths.out, "OUT")?;
    put_right_if(alloc, text, widths.out_part, "%")
}

/// Adds the lines of rows, and above those of a device its line.
pub(crate) fn put_lines<S: NameTexts>(
    alloc: Global,
    text: &mut String,
    names: &S,
    listing: &Listing,
    lines: Lines,
) -> Result<(), AllocError>
    ensures { OnOk result (string_bytes text.new ≡ string_bytes text.old
        ++ lines_from (S.shown names.now) listing.now lines.entry.shape.widths lines.entry.shape.is_aged None lines.entry.rows.now) }
{
    let mut before: Option<&[u8]> = None;
    for row in lines.rows {
        put_device_if_new(alloc, text, listing, before, *row)?;
        let cells = cells_of(alloc, names, listing, *row)?;
        put_row(alloc, text, &cells, lines.shape)?;
        before = Some(engine_of(listing, *row));
    }
    Ok(())
}

/// Adds the line of a row's device, unless the row before is of the same one.
fn put_device_if_new(
    alloc: Global,
    text: &mut String,
    listing: &Listing,
    before: Option<&[u8]>,
    row: Row,
) -> Result<(), AllocError>
    ensures { OnOk result (string_bytes text.new ≡ string_bytes text.old
        ++ device_if_new listing.now (option_copied before.entry) row) }
{
    let engine = engine_of(listing, row);
    match before {
        Some(before) if before == engine => Ok(()),
        _ => put_device(alloc, text, listing.labels(row.place), engine),
    }
}

/// Adds the line of a device: its address and its label, if they are known, and its engine id.
#[tactic(auto, unfolding(crate::specs::Table::device_line))]
fn put_device(
    alloc: Global,
    text: &mut String,
    labels: Option<&InstanceLabels>,
    engine: &[u8],
) -> Result<(), AllocError>
    ensures { OnOk result (string_bytes text.new ≡ string_bytes text.old
        ++ device_line (device_of (option_map (λ l. l.now) labels.entry)) engine.now) }
{
    let device = match labels {
        None => String::new(alloc),
        Some(labels) => device_text(alloc, labels.target.as_deref(), labels.device.as_deref())?,
    };
    if !device.is_empty() {
        write!(text, "{device}, ")?;
    }
    let digits = hex::encode(alloc, engine)?;
    writeln!(text, "engine {digits}")
}

/// Adds the line of a row.
#[tactic(auto, unfolding(crate::specs::Table::row_cells))]
fn put_row(alloc: Global, text: &mut String, cells: &Cells, shape: Shape) -> Result<(), AllocError>
    ensures { OnOk result (string_bytes text.new ≡ string_bytes text.old
        ++ row_line shape.widths shape.is_aged (texts_of cells.now)) }
{
    put_figures(alloc, text, cells, shape.widths)?;
    put_left(alloc, text, 6, cells.alarm)?;
    put_right(alloc, text, 7, &cells.samples)?;
    put_age_if(alloc, text, shape.is_aged, &cells.age)?;
    text.push_str(&cells.name)?;
    text.push_str("\n")
}

/// Adds the cells before the alarms.
#[tactic(auto, unfolding(crate::specs::Table::figure_cells))]
fn put_figures(
    alloc: Global,
    text: &mut String,
    cells: &Cells,
    widths: Widths,
) -> Result<(), AllocError>
    ensures { OnOk result (string_bytes text.new ≡ string_bytes text.old
        ++ figure_cells widths (texts_of cells.now).value (texts_of cells.now).rate (texts_of cells.now).part (texts_of cells.now).out (texts_of cells.now).out_part) }
{
    put_right_if(alloc, text, widths.value, &cells.value)?;
    put_right_if(alloc, text, widths.rate, &cells.rate)?;
    put_right_if(alloc, text, widths.part, &cells.part)?;
    put_right_if(alloc, text, widths.out, &cells.out)?;
    put_right_if(alloc, text, widths.out_part, &cells.out_part)
}

/// Adds the cell of an age, if there is a column of ages.
fn put_age_if(alloc: Global, text: &mut String, is_aged: bool, age: &str) -> Result<(), AllocError>
    ensures { OnOk result (string_bytes text.new
        ≡ string_bytes text.old ++ age_if is_aged age.now) }
{
    if !is_aged {
        return Ok(());
    }
    put_right(alloc, text, 5, age)
}

/// Adds a cell at the right end of its column, unless the column is left out.
fn put_right_if(
    alloc: Global,
    text: &mut String,
    width: usize,
    cell: &str,
) -> Result<(), AllocError>
    ensures { OnOk result (string_bytes text.new ≡ string_bytes text.old
        ++ to_right_if width cell.now) }
{
    if width == 0 {
        return Ok(());
    }
    put_right(alloc, text, width, cell)
}

/// Adds a cell at the right end of its column, and the two spaces before the next.
fn put_right(alloc: Global, text: &mut String, width: usize, cell: &str) -> Result<(), AllocError>
    ensures { OnOk result (string_bytes text.new
        ≡ string_bytes text.old ++ to_right width cell.now) }
{
    let spaces = " ".repeat(alloc, width.saturating_sub(cell.len()))?;
    write!(text, "{spaces}{cell}  ")
}

/// Adds a cell at the left end of its column, and the two spaces before the next.
fn put_left(alloc: Global, text: &mut String, width: usize, cell: &str) -> Result<(), AllocError>
    ensures { OnOk result (string_bytes text.new
        ≡ string_bytes text.old ++ to_left width cell.now) }
{
    let spaces = " ".repeat(alloc, width.saturating_sub(cell.len()))?;
    write!(text, "{cell}{spaces}  ")
}
