//! Modules and names: into which tokens a text is cut, what module it is, and what names mean.

use mon_oid::Oid;
use mon_row_texts::{put, put_fault, put_name};
use mon_smi::{Names, read_module, tokens};
use std::alloc::Global;

/// A module of four names, of which two mean each other.
const EX_MIB: &str =
    "EX-MIB DEFINITIONS ::= BEGIN ex OBJECT IDENTIFIER ::= { enterprises 32473 1 } exCount OBJECT-TYPE SYNTAX Counter32 MAX-ACCESS read-only STATUS current DESCRIPTION \"n\" ::= { ex 2 } exLoop OBJECT IDENTIFIER ::= { exPool 1 } exPool OBJECT IDENTIFIER ::= { exLoop 1 } END";

/// Appends the tokens of a text: of each its kind, and where it begins and ends; or the fault.
pub(crate) fn cut(alloc: Global, text: &mut String, words: &str) -> Option<()> {
    let found = match tokens(alloc, words) {
        Ok(found) => found,
        Err(why) => return put_fault(text, why.number(), why.name()),
    };
    for token in found.as_slice() {
        let (kind, start, end) = (token.kind, token.span.start, token.span.end);
        write!(text, " {kind:?} {start}..{end}").ok()?;
    }
    Some(())
}

/// Counts the names that the module of this text defines; or the fault.
pub(crate) fn row(alloc: Global, text: &mut String, words: &str) -> Option<()> {
    match read_module(alloc, words) {
        Ok(module) => write!(text, "{} names", module.defs.as_slice().len()).ok(),
        Err(why) => put_fault(text, why.number(), why.name()),
    }
}

/// Returns the built-in names and those of the module.
fn known(alloc: Global) -> Option<Names> {
    let mut names = Names::new(alloc).ok()?;
    let module = read_module(alloc, EX_MIB).ok()?;
    names.add(alloc, &module).ok()?;
    Some(names)
}

/// Appends the identifier that a text means; or the fault.
pub(crate) fn meant(alloc: Global, text: &mut String, words: &str) -> Option<()> {
    let names = known(alloc)?;
    match names.resolve(alloc, words) {
        Ok(name) => put_name(alloc, text, &name),
        Err(why) => put_fault(text, why.number(), why.name()),
    }
}

/// Appends the name of an identifier.
pub(crate) fn called(alloc: Global, text: &mut String, words: &str) -> Option<()> {
    let names = known(alloc)?;
    let name = Oid::parse(alloc, words).ok()?;
    let called = names.name_of(alloc, &name).ok()?;
    put(text, called.as_str())
}
