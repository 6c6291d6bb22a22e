//! A text whose blocks of an agent name its interfaces as they are now.

ghost use Rattle.std.specs.Prelude.{◌≡◌, ◌≤◌, ℕ, List, Some, ◌++◌, [], ◌∷◌, IfOk, OnOk, codes, decimal, if◌then◌else◌, length, option_copied, string_bytes};
ghost use Rattle.std.specs.List.{concat, find, flat_map};
ghost use Rattle.mon_oid.specs.Oid.{dotted};
ghost use Rattle.mon_survey.specs.Edited.{block_by, block_without, edited_block, edited_line, edited_text, ends_block, ends_line, first_piece, index_text, is_comment, is_emptied, line_at, line_by, line_length, lines_of, only_comment, quoted, renumbered, replaced, spelled_by, spellings, step_skip, step_text, text_without};
ghost use Rattle.mon_survey.specs.Moved.{at_of, index_now};
ghost use Rattle.mon_survey.specs.Plan.{has_part};

use crate::choice::has_part;
use crate::column::Spot;
use crate::comparing::is_own;
use crate::moving::Places;
use mon_ber::Octets;
use mon_board::Watched;
use mon_smi::NameTexts;
use std::alloc::{AllocError, Global};

/// How the name of an interface's counter may be written, and where the interface is now.
pub(crate) struct Spelled {
    /// The name in quotes.
    text: Octets,
    /// The interface's index in the text.
    index: u32,
    /// Its index now; `None` if it is gone.
    place: Option<u32>,
}

// By hand: where one is let go, a proof has one call and not a drop of each field.
impl Drop for Spelled {
    fn drop(self) {
        let Spelled {
            text: _,
            index: _,
            place: _,
        } = self;
    }
}

/// A text in quotes.
pub(crate) fn quoted(alloc: Global, text: &str) -> Result<Octets, AllocError>
    ensures { IfOk result (λ o. o ≡ quoted text.now) }
{
    let quoted = format!(in alloc; "\"{text}\"")?;
    Octets::from_slice(alloc, quoted.as_bytes())
}

/// By which names, and where, a text's names are looked for.
#[derive(Drop)]
pub(crate) struct Spelling<'a, S> {
    pub(crate) alloc: Global,
    pub(crate) names: &'a S,
    pub(crate) places: Places<'a>,
}

/// Adds how a name of an interface may be written: in numbers, or as the settings show names.
fn add_spelled<S: NameTexts>(
    all: &mut Vec<Spelled>,
    spelling: &Spelling<'_, S>,
    watched: &Watched,
    index: u32,
) -> Result<(), AllocError>
    ensures { OnOk result (all.new.items ≡ all.old.items ++ ((record {
      text = quoted (dotted watched.now.instance.name);
      index = index;
      place = index_now
          (at_of spelling.now.places) index;
    }) ∷ (record {
      text = quoted
          (S.shown spelling.now.names.now watched.now.instance.name);
      index = index;
      place = index_now
          (at_of spelling.now.places) index;
    }) ∷ [])) }
{
    let alloc = spelling.alloc;
    let place = spelling.places.index_now(index);
    let name = &watched.instance.name;
    let numbers = name.text(alloc)?;
    let text = quoted(alloc, numbers.as_str())?;
    all.push(Spelled { text, index, place })?;
    let shown = spelling.names.text(alloc, name)?;
    let text = quoted(alloc, shown.as_str())?;
    all.push(Spelled { text, index, place })?;
    Ok(())
}

/// Adds how the name of what is watched may be written, if it is that of an interface of the agent.
fn add_watched<S: NameTexts>(
    all: &mut Vec<Spelled>,
    spelling: &Spelling<'_, S>,
    watched: &Watched,
) -> Result<(), AllocError>
    ensures { OnOk result (all.new.items ≡ all.old.items ++ spelled_by
        (S.shown spelling.now.names.now) (at_of spelling.now.places) watched.now) }
{
    if !is_own(spelling.places.engine, watched) {
        return Ok(());
    }
    match Spot::of(&watched.instance.name) {
        Spot::Cell(_, index) => add_spelled(all, spelling, watched, index),
        Spot::Ragged | Spot::Elsewhere => Ok(()),
    }
}

/// How the names of the agent's interfaces may be written.
pub(crate) fn spellings<S: NameTexts>(
    spelling: &Spelling<'_, S>,
    instances: &[Watched],
) -> Result<Vec<Spelled>, AllocError>
    ensures { IfOk result (λ v. v.items ≡ spellings (S.shown spelling.now.names.now)
        (at_of spelling.now.places) instances.now) }
{
    let mut all = Vec::new(spelling.alloc);
    for watched in instances {
        add_watched(&mut all, spelling, watched)?;
    }
    Ok(all)
}

/// Returns `true` if a line ends with the octet.
fn ends_line(octet: u8) -> bool
    ensures { (before : ℕ) (rest : List ℕ) → result ≡ ends_line before octet rest }
{
    octet == b'\n'
}

/// Returns `true` if a block ends with the octet, after this one and before the rest.
fn ends_block(before: u8, octet: u8, rest: &[u8]) -> bool
    ensures { result ≡ ends_block before octet rest.now }
{
    octet == b'\n' && (rest.starts_with(b"\n[") || (rest.starts_with(b"[") && before != b'\n'))
}

/// How many octets the first block of a text has.
fn block_end(text: &[u8]) -> usize
    ensures number { result ≡ first_piece ends_block 10 text.now }
    ensures within { result ≤ length text.now }
    ensures some { 1 ≤ length text.now → 1 ≤ result }
{
    let mut before = b'\n';
    let mut rest = text;
    let mut count = 0;
    'scan: loop {
        let Some((first, after)) = rest.split_first() else {
            return count;
        };
        count += 1;
        if ends_block(before, *first, after) {
            return count;
        }
        before = *first;
        rest = after;
    }
}

/// How many octets the first line of a text has.
fn line_end(text: &[u8]) -> usize
    ensures number { result ≡ line_length text.now }
    ensures within { result ≤ length text.now }
    ensures some { 1 ≤ length text.now → 1 ≤ result }
{
    let mut rest = text;
    let mut count = 0;
    'scan: loop {
        let Some((first, after)) = rest.split_first() else {
            return count;
        };
        count += 1;
        if *first == b'\n' {
            return count;
        }
        rest = after;
    }
}

/// Returns `true` if a line is only a comment, after spaces and tabs.
fn is_comment(line: &[u8]) -> bool
    ensures { result ≡ is_comment line.now }
{
    let mut rest = line;
    'scan: loop {
        let Some((first, after)) = rest.split_first() else {
            return false;
        };
        if *first != b' ' && *first != b'\t' {
            return *first == b'#';
        }
        rest = after;
    }
}

/// What is put in place of what.
#[derive(Clone, Copy)]
struct Swap<'a> {
    from: &'a [u8],
    to: &'a [u8],
}

/// Adds the first octet of a text, or what is put in place of a part there. Returns how many octets
/// after it are passed over.
fn put_step(out: &mut Vec<u8>, swap: Swap<'_>, first: u8, rest: &[u8]) -> Result<usize, AllocError>
    ensures text { OnOk result (out.new.items ≡ out.old.items
        ++ step_text swap.entry.from.now swap.entry.to.now first rest.now) }
    ensures skip { IfOk result (λ n. n ≡ step_skip swap.entry.from.now rest.now) }
{
    if rest.starts_with(swap.from) {
        out.extend_from_slice(swap.to)?;
        return Ok(swap.from.len().saturating_sub(1));
    }
    out.push(first)?;
    Ok(0)
}

/// A text with another part in place of each that is this one.
fn replaced(alloc: Global, text: &[u8], swap: Swap<'_>) -> Result<Vec<u8>, AllocError>
    ensures { IfOk result (λ v. v.items ≡ replaced swap.entry.from.now swap.entry.to.now 0
        text.now) }
{
    let mut out = Vec::new(alloc);
    let mut rest = text;
    let mut skip = 0;
    'scan: loop {
        let Some((first, after)) = rest.split_first() else {
            return Ok(out);
        };
        if skip > 0 {
            skip -= 1;
        } else {
            skip = put_step(&mut out, swap, *first, rest)?;
        }
        rest = after;
    }
}

/// The end of a name with this index, before this text.
fn index_text(alloc: Global, index: u32, after: &str) -> Result<String, AllocError>
    ensures { IfOk result (λ t. string_bytes t ≡ index_text index after.now) }
{
    format!(in alloc; ".{index}{after}")
}

/// A text with another index before this text.
fn reindexed(
    alloc: Global,
    text: &[u8],
    index: u32,
    now: u32,
    after: &str,
) -> Result<Vec<u8>, AllocError>
    ensures { IfOk result (λ v. v.items ≡ replaced (index_text index after.now)
        (index_text now after.now) 0 text.now) }
{
    let from = index_text(alloc, index, after)?;
    let to = index_text(alloc, now, after)?;
    replaced(
        alloc,
        text,
        Swap {
            from: from.as_bytes(),
            to: to.as_bytes(),
        },
    )
}

/// The first of the names that is in a line.
fn spelled_in<'a>(names: &'a [Spelled], line: &[u8]) -> Option<&'a Spelled>
    ensures { option_copied result ≡ find (λ s. has_part s.text line.now) names.now }
{
    names.iter().find(|one| has_part(line, one.text.as_slice()))
}

/// Adds a line of the agent's blocks. A comment and a line of no interface stay as they are. One of
/// an interface is left out if that is gone; else it gets the index of now, at the end of names in
/// quotes and of the name in the comment.
fn put_line(
    alloc: Global,
    out: &mut Vec<u8>,
    names: &[Spelled],
    line: &[u8],
) -> Result<(), AllocError>
    ensures { OnOk result (out.new.items ≡ out.old.items ++ edited_line names.now line.now) }
{
    if is_comment(line) {
        return out.extend_from_slice(line);
    }
    let Some(spelled) = spelled_in(names, line) else {
        return out.extend_from_slice(line);
    };
    let index = spelled.index;
    let Some(now) = spelled.place else {
        return Ok(());
    };
    if index == now {
        return out.extend_from_slice(line);
    }
    let named = reindexed(alloc, line, index, now, "\"")?;
    let moved = reindexed(alloc, &named, index, now, ":")?;
    out.extend_from_slice(&moved)
}

/// Adds the lines of a block of the agent.
fn put_lines(
    alloc: Global,
    out: &mut Vec<u8>,
    names: &[Spelled],
    block: &[u8],
) -> Result<(), AllocError>
    ensures { OnOk result (out.new.items ≡ out.old.items ++ flat_map (edited_line names.now)
        (lines_of block.now)) }
{
    let mut rest = block;
    while !rest.is_empty() {
        let (line, after) = rest.split_at(line_end(rest));
        put_line(alloc, out, names, line)?;
        rest = after;
    }
    Ok(())
}

/// Adds a line if it is only a comment.
fn put_comment(out: &mut Vec<u8>, line: &[u8]) -> Result<(), AllocError>
    ensures { OnOk result (out.new.items ≡ out.old.items ++ only_comment line.now) }
{
    if is_comment(line) {
        out.extend_from_slice(line)
    } else {
        Ok(())
    }
}

/// Adds the lines of a block that are only comments.
fn put_comments(out: &mut Vec<u8>, block: &[u8]) -> Result<(), AllocError>
    ensures { OnOk result (out.new.items ≡ out.old.items ++ flat_map only_comment
        (lines_of block.now)) }
{
    let mut rest = block;
    while !rest.is_empty() {
        let (line, after) = rest.split_at(line_end(rest));
        put_comment(out, line)?;
        rest = after;
    }
    Ok(())
}

/// Names of an agent's interfaces, and what is in its blocks only.
#[derive(Clone, Copy)]
pub(crate) struct Edits<'a> {
    pub(crate) alloc: Global,
    pub(crate) names: &'a [Spelled],
    pub(crate) own: &'a [u8],
}

impl Edits<'_> {
    /// Adds a block. Of one of the agent's in which no name is left only the comments stay.
    fn put_block(&self, out: &mut Vec<u8>, block: &[u8]) -> Result<(), AllocError>
        ensures { OnOk result (out.new.items ≡ out.old.items
            ++ edited_block self.now.names.now self.now.own.now block.now) }
    {
        if !has_part(block, self.own) {
            return out.extend_from_slice(block);
        }
        let mut lines = Vec::new(self.alloc);
        put_lines(self.alloc, &mut lines, self.names, block)?;
        if has_part(block, b"name = \"") && !has_part(&lines, b"name = \"") {
            put_comments(out, block)
        } else {
            out.extend_from_slice(&lines)
        }
    }

    /// The text with its blocks of the agent as they are now.
    pub(crate) fn edited(&self, text: &[u8]) -> Result<Vec<u8>, AllocError>
        ensures { IfOk result (λ v. v.items ≡ edited_text self.now.names.now self.now.own.now
            text.now) }
    {
        let mut out = Vec::new(self.alloc);
        let mut rest = text;
        while !rest.is_empty() {
            let (block, after) = rest.split_at(block_end(rest));
            self.put_block(&mut out, block)?;
            rest = after;
        }
        Ok(out)
    }
}

/// The text without the blocks that have this part, but with the comments in them.
pub(crate) fn text_without(alloc: Global, own: &[u8], text: &[u8]) -> Result<Vec<u8>, AllocError>
    ensures { IfOk result (λ v. v.items ≡ text_without own.now text.now) }
{
    let mut out = Vec::new(alloc);
    let mut rest = text;
    while !rest.is_empty() {
        let (block, after) = rest.split_at(block_end(rest));
        put_rest(&mut out, own, block)?;
        rest = after;
    }
    Ok(out)
}

/// Adds a block, or its comments if it has this part.
fn put_rest(out: &mut Vec<u8>, own: &[u8], block: &[u8]) -> Result<(), AllocError>
    ensures { OnOk result (out.new.items ≡ out.old.items ++ block_without own.now block.now) }
{
    if has_part(block, own) {
        put_comments(out, block)
    } else {
        out.extend_from_slice(block)
    }
}
