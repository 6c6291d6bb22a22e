//! Reading modules.

ghost use Rattle.std.specs.Prelude.{◌≡◌, Ok, ◌++◌, ℕ, List, option_to_list, map, length, slice_index, ◌<◌, ◌≤◌, IfOk, IfErr, OnOk, IsOkUnless};
ghost use Rattle.mon_smi.specs.declared.definition.Definition.{Definition as AnyDefinition};
ghost use Rattle.mon_smi.specs.Names.{AreDistinct};
ghost use Rattle.mon_smi.specs.Grammar.{Derives};
ghost use Rattle.mon_smi.specs.ModuleFaults.{AllBegin, IsTwice, IsBrokenOff, IsFaultOfReading, IsFaultOfTokensRead, IsFaultOfModule};
ghost use Rattle.mon_smi.specs.declared.text_fault.TextFault.TheVariants.{OutOfMemory};
ghost use Rattle.mon_smi.specs.Reading.{Gives, ends_module, imported_at, imports_at, definitions_at, module_body_at, module_at};

use crate::assignments::{assignment_at, up_to};
use crate::definition::{Definition, Definitions, Module};
use crate::kind::TokenKind;
use crate::lexeme::{Lexeme, begins_capital, lexemes};
use crate::lexer::tokens;
use crate::places::first_twice;
use crate::read_fault::ReadFault;
use crate::rules::{begins_word, last, punctuation_at, word_at};
use crate::text_fault::TextFault;
use crate::token::Token;
use crate::word::Word;
use std::alloc::{AllocError, Global};

/// Returns `true` if END comes next, as the last token.
fn ends_module(ls: &[Lexeme]) -> bool
    ensures { result ≡ ends_module ls.now }
{
    let [last] = ls else {
        return false;
    };
    last.is_word("END")
}

/// What is imported, up to the semicolon.
#[tactic(auto, unfolding(crate::specs::Reading::imported_at))]
fn imported_at<'a, 's>(ls: &'a [Lexeme<'s>]) -> Result<&'a [Lexeme<'s>], ReadFault<'a, 's>>
    ensures { Gives (λ rest. rest.now) result (imported_at ls.now) }
{
    let rest = up_to(TokenKind::Semicolon, ls)?;
    punctuation_at(TokenKind::Semicolon, rest)
}

/// What is imported, or nothing.
#[tactic(auto, unfolding(crate::specs::Reading::imports_at))]
fn imports_at<'a, 's>(ls: &'a [Lexeme<'s>]) -> Result<&'a [Lexeme<'s>], ReadFault<'a, 's>>
    ensures { Gives (λ rest. rest.now) result (imports_at ls.now) }
{
    if begins_word("IMPORTS", ls) {
        return imported_at(ls);
    }
    Ok(ls)
}

/// What a module defines, and how many tokens are left where each definition begins.
#[derive(Drop)]
struct Body {
    defs: Vec<Definition>,
    starts: Vec<usize>,
}

/// Adds a definition that begins with this many tokens left, where there is one.
fn keep(body: &mut Body, definition: Option<Definition>, left: usize) -> Result<(), AllocError>
    ensures kept { OnOk result (body.new.defs.items ≡ body.old.defs.items
        ++ option_to_list definition) }
    ensures starts { OnOk result (body.new.starts.items ≡ body.old.starts.items
        ++ map (λ d. left) (option_to_list definition)) }
{
    if let Some(definition) = definition {
        body.defs.push(definition)?;
        body.starts.push(left)?;
    }
    Ok(())
}

/// The definitions up to END.
fn definitions_at<'a, 's>(alloc: Global, ls: &'a [Lexeme<'s>]) -> Result<Body, ReadFault<'a, 's>>
    ensures gives { Gives (λ body. body.defs.items) result (definitions_at ls.now) }
    ensures starts { IfOk result (λ body. AllBegin ls.now body.starts.items body.defs.items) }
{
    let mut body = Body {
        defs: Vec::new(alloc),
        starts: Vec::new(alloc),
    };
    let mut left = ls.len();
    while !ends_module(last(ls, left)) {
        let (definition, rest) = assignment_at(alloc, last(ls, left))?;
        keep(&mut body, definition, left)?;
        left = rest.len();
    }
    Ok(body)
}

/// A module after its name.
#[tactic(auto, unfolding(crate::specs::Reading::module_body_at))]
fn module_body_at<'a, 's>(alloc: Global, ls: &'a [Lexeme<'s>]) -> Result<Body, ReadFault<'a, 's>>
    ensures gives { Gives (λ body. body.defs.items) result (module_body_at ls.now) }
    ensures starts { IfOk result (λ body. AllBegin ls.now body.starts.items body.defs.items) }
{
    let rest = word_at("DEFINITIONS", ls)?;
    let rest = punctuation_at(TokenKind::Assign, rest)?;
    let rest = word_at("BEGIN", rest)?;
    let rest = imports_at(rest)?;
    definitions_at(alloc, rest)
}

/// A module of these tokens, and how many are left where each definition begins.
#[tactic(auto, unfolding(crate::specs::Reading::module_at))]
fn module_at<'a, 's>(
    alloc: Global,
    ls: &'a [Lexeme<'s>],
) -> Result<(Module, Vec<usize>), ReadFault<'a, 's>>
    ensures gives { Gives (λ read. (read.0.name, read.0.defs)) result (module_at ls.now) }
    ensures starts { IfOk result (λ read. AllBegin ls.now read.1.items read.0.defs) }
{
    let [first, rest @ ..] = ls else {
        return Err(ReadFault::BrokenOff(ls));
    };
    let Some(name) = first.word() else {
        return Err(ReadFault::BrokenOff(ls));
    };
    if !begins_capital(name) {
        return Err(ReadFault::BrokenOff(ls));
    }
    let body = module_body_at(alloc, rest)?;
    let defs = Definitions::new(body.defs);
    let name = Word::from_str(alloc, name)?;
    Ok((Module { name, defs }, body.starts))
}

/// The module, unless it defines a name twice.
fn distinct(
    alloc: Global,
    read: Module,
    starts: &[usize],
    tokens: &[Token],
) -> Result<Module, TextFault>
    requires len { length starts.now ≡ length read.defs }
    requires within { (i : ℕ) → i < length read.defs → (0 < slice_index starts.now i)
        × (slice_index starts.now i ≤ length tokens.now) }
    ensures found { IfOk result (λ m. (m ≡ read) × AreDistinct m.defs) }
    ensures fault { IfErr result (λ e. IsTwice e tokens.now starts.now read.defs) }
{
    if let Some(i) = first_twice(alloc, read.defs.as_slice())? {
        let first = tokens[tokens.len() - starts[i]];
        return Err(TextFault::Duplicate(first.span));
    }
    Ok(read)
}

/// Why these tokens are no module where this many of them are left.
fn broken_off(tokens: &[Token], left: usize) -> TextFault
    ensures { IsBrokenOff result tokens.now left }
{
    if left == 0 || tokens.len() < left {
        return TextFault::Unclosed;
    }
    let first = tokens[tokens.len() - left];
    TextFault::Unexpected(first.span)
}

/// Why these tokens are no module.
fn fault_of(tokens: &[Token], fault: ReadFault) -> TextFault
    ensures { IsFaultOfReading result tokens.now fault.entry }
{
    match fault {
        ReadFault::OutOfMemory => TextFault::OutOfMemory,
        ReadFault::BrokenOff(rest) => broken_off(tokens, rest.len()),
    }
}

/// A module of these tokens, how many are left where each definition begins, and where they are no
/// module the fault of the text.
fn read_tokens(
    alloc: Global,
    tokens: &[Token],
    ls: &[Lexeme],
) -> Result<(Module, Vec<usize>), TextFault>
    ensures gives { IfOk result (λ read. module_at ls.now ≡ Ok (read.0.name, read.0.defs)) }
    ensures starts { IfOk result (λ read. AllBegin ls.now read.1.items read.0.defs) }
    ensures fault { IfErr result (λ e. IsFaultOfTokensRead e tokens.now ls.now) }
{
    match module_at(alloc, ls) {
        Ok(read) => Ok(read),
        Err(fault) => Err(fault_of(tokens, fault)),
    }
}

/// The module that a text is.
fn module_of(alloc: Global, text: &str) -> Result<Module, TextFault>
    ensures found { IfOk result (λ m. Derives text.now m.name m.defs × AreDistinct m.defs) }
    ensures fault { IfErr result (λ e. IsFaultOfModule e text.now) }
{
    let tokens = tokens(alloc, text)?;
    let lexemes = lexemes(alloc, text.as_bytes(), tokens.as_slice())?;
    let (read, starts) = read_tokens(alloc, tokens.as_slice(), lexemes.as_slice())?;
    distinct(alloc, read, starts.as_slice(), tokens.as_slice())
}

/// The module that a text is (RFC 2578 section 3): its name, and what its value assignments define,
/// in order. What is imported is passed over, and so are types and all clauses but an identifier's
/// value. `Unclosed` where the text ends inside a string or before END, `Unexpected` at a place
/// where no token begins or another token than a module has there, `Duplicate` where a value name
/// is defined that was defined before. The whole text is cut into tokens before the first one is
/// read.
pub fn read_module(alloc: Global, text: &str) -> Result<Module, TextFault>
    // The text derives the module, whose value names are distinct.
    ensures found { IfOk result (λ m. Derives text.now m.name m.defs × AreDistinct m.defs) }
    // A text that derives distinct definitions is read, unless memory runs out.
    ensures accepted { (name : List ℕ) (defs : List AnyDefinition) → Derives text.now name defs
        → AreDistinct defs → IsOkUnless result OutOfMemory }
    // Duplicate is for a module with a name twice and says where it is defined again, the other
    // faults are for a text that derives no module.
    ensures fault { IfErr result (λ e. IsFaultOfModule e text.now) }
{
    module_of(alloc, text)
}
