//! The names that a module defines with the identifiers that they mean, as lines (RFC 2578 section
//! 3).

ghost use Rattle.std.specs.Prelude.{◌≡◌, IfErr, IfOk, map, string_bytes};
ghost use Rattle.std.specs.List.{All, flat_map};
ghost use Rattle.std.specs.List.Sorted.{IsPermutation, IsSorted};
ghost use Rattle.mon_smi.specs.Listing.{IsFaultAt, IsListFault, IsListing, IsMeant, names_in, row_line, seen, shown_cmp, text_cmp};

use crate::definition::Definition;
use crate::fault::NamesFault;
use crate::names::Names;
use mon_oid::Oid;
use std::alloc::{AllocError, AllocFailed, Global};

/// Why names are not listed.
#[derive(Clone, Copy)]
pub enum ListFault<'a> {
    /// Memory was refused.
    OutOfMemory,
    /// This name, the first in the order of bytes that means no identifier, and why.
    Unnamed(&'a str, NamesFault),
}

impl From<AllocError> for ListFault<'_> {
    ghost use Rattle.mon_smi.specs.declared.listing.ListFault.TheVariants.{OutOfMemory};

    ghost from_gives = { λ _ fault. fault ≡ OutOfMemory };

    fn from(_e: AllocError) -> Self {
        ListFault::OutOfMemory
    }
}

impl<T: Drop> From<AllocFailed<T>> for ListFault<'_> {
    ghost use Rattle.mon_smi.specs.declared.listing.ListFault.TheVariants.{OutOfMemory};

    ghost from_gives = { λ _ fault. fault ≡ OutOfMemory };

    fn from(_e: AllocFailed<T>) -> Self {
        ListFault::OutOfMemory
    }
}

/// The names of definitions with the identifiers that they mean, a line each, `NAME IDENTIFIER`, by
/// identifier and then by name.
///
/// # Errors
/// `OutOfMemory`; `Unnamed` where a name means no identifier.
pub fn list<'a>(
    alloc: Global,
    known: &Names,
    definitions: &'a [Definition],
) -> Result<String, ListFault<'a>>
    ensures lines { IfOk result (λ text. IsListing known.now (names_in definitions.now)
        (string_bytes text)) }
    ensures fault { IfErr result (IsListFault known.now (names_in definitions.now)) }
{
    let names = sorted_names(alloc, definitions)?;
    let rows = match rows_of(alloc, known, names.as_slice()) {
        Ok(rows) => rows,
        Err(fault) => return Err(fault),
    };
    Ok(lines_of(alloc, rows.as_slice())?)
}

/// The names of definitions, in the order of bytes.
fn sorted_names<'a>(
    alloc: Global,
    definitions: &'a [Definition],
) -> Result<Vec<&'a str>, AllocError>
    ensures same { IfOk result (λ names. IsPermutation (names_in definitions.now)
        (map (λ n. n.now) names.items)) }
    ensures order { IfOk result (λ names. IsSorted text_cmp names.items) }
{
    let mut names = names_of(alloc, definitions)?;
    names.sort_unstable();
    Ok(names)
}

/// The names of definitions, in their order.
fn names_of<'a>(alloc: Global, definitions: &'a [Definition]) -> Result<Vec<&'a str>, AllocError>
    ensures { IfOk result (λ names. map (λ n. n.now) names.items ≡ names_in definitions.now) }
{
    let mut names = Vec::with_capacity(alloc, definitions.len())?;
    for definition in definitions {
        names.push(definition.name.as_str())?;
    }
    Ok(names)
}

/// Rising names with the identifiers that they mean, by identifier and then by name.
fn rows_of<'a>(
    alloc: Global,
    known: &Names,
    names: &[&'a str],
) -> Result<Vec<(Oid, &'a str)>, ListFault<'a>>
    requires { IsSorted text_cmp names.now }
    ensures same { IfOk result (λ rows. IsPermutation (map (λ n. n.now) names.now)
        (map (λ r. r.1.now) rows.items)) }
    ensures meant { IfOk result (λ rows. All (λ r. IsMeant known.now (seen r)) rows.items) }
    ensures order { IfOk result (λ rows. IsSorted shown_cmp rows.items) }
    ensures fault { IfErr result (IsListFault known.now (map (λ n. n.now) names.now)) }
{
    let mut rows = found_of(alloc, known, names)?;
    rows.sort_unstable();
    Ok(rows)
}

/// Rising names with the identifiers that they mean, in their order.
fn found_of<'a>(
    alloc: Global,
    known: &Names,
    names: &[&'a str],
) -> Result<Vec<(Oid, &'a str)>, ListFault<'a>>
    requires { IsSorted text_cmp names.now }
    ensures same { IfOk result (λ rows. map (λ r. r.1.now) rows.items
        ≡ map (λ n. n.now) names.now) }
    ensures meant { IfOk result (λ rows. All (λ r. IsMeant known.now (seen r)) rows.items) }
    ensures fault { IfErr result (IsListFault known.now (map (λ n. n.now) names.now)) }
{
    let mut rows = Vec::with_capacity(alloc, names.len())?;
    for name in names {
        match known.resolve(alloc, name) {
            Ok(oid) => rows.push((oid, *name))?,
            Err(fault) => return Err(fault_at(name, fault)),
        }
    }
    Ok(rows)
}

/// Returns why names are not listed if this one is not found, for this reason.
fn fault_at(name: &str, fault: NamesFault) -> ListFault<'_>
    ensures { IsFaultAt name.now fault result }
{
    match fault {
        NamesFault::OutOfMemory => ListFault::OutOfMemory,
        NamesFault::Duplicate(_)
        | NamesFault::Formless(_)
        | NamesFault::Unknown
        | NamesFault::Cycle
        | NamesFault::TooDeep
        | NamesFault::BadIdentifier => ListFault::Unnamed(name, fault),
    }
}

/// The lines of rows.
#[tactic(auto, unfolding(crate::specs::Listing::row_line))]
fn lines_of(alloc: Global, rows: &[(Oid, &str)]) -> Result<String, AllocError>
    ensures { IfOk result (λ text. string_bytes text ≡ flat_map (λ r. row_line (seen r)) rows.now) }
{
    let mut lines = String::new(alloc);
    for (oid, name) in rows {
        let dotted = oid.text(alloc)?;
        write!(lines, "{name} {dotted}\n")?;
    }
    Ok(lines)
}
