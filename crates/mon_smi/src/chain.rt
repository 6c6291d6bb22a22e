//! The chain of a word's parents.

ghost use Rattle.mon_oid.specs.Oid.{IsOid};
ghost use Rattle.std.specs.Prelude.{◌≡◌, ℕ, List, ◌≤◌, ◌++◌, map, length, Some, None, IfOk, IfErr, IfSome, IfNone};
ghost use Rattle.mon_smi.specs.Names.{AreDistinct, Leads, chain_numbers, StandsFor, EndsAt, EndsUndefined, IsFaultOfWord, IsFaultOfJoining, IsFaultOfName};
ghost use Rattle.mon_smi.specs.Places.{AreFound};

use crate::definition::Definition;
use crate::fault::NamesFault;
use crate::places::position;
use mon_oid::{Oid, OidFault};
use std::alloc::Global;
use std::collections::{BTreeMap, BTreeSet};

/// The definitions that lead from the word to one with no parent.
fn chain<'a>(
    alloc: Global,
    places: &BTreeMap<String, usize>,
    defs: &'a [Definition],
    word: &'a str,
) -> Result<Vec<&'a Definition>, NamesFault>
    requires { AreFound places.now defs.now }
    ensures found { IfOk result (λ v. Leads defs.now (Some word.now) (map (λ d. d.now) v.items)
        None) }
    ensures fault { IfErr result (λ e. IsFaultOfWord e defs.now word.now) }
{
    let mut passed = BTreeSet::new(alloc);
    let mut chain = Vec::new(alloc);
    let mut name = word;
    loop {
        let Some(place) = position(places, defs, name) else {
            return Err(NamesFault::Unknown);
        };
        if !passed.insert(place)? {
            return Err(NamesFault::Cycle);
        }
        let definition = &defs[place];
        chain.push(definition)?;
        match &definition.parent {
            Some(parent) => name = parent.as_str(),
            None => return Ok(chain),
        }
    }
}

/// Returns the name that has no definition at which the chain of the word's parents ends.
pub(crate) fn undefined_end<'a>(
    places: &BTreeMap<String, usize>,
    defs: &'a [Definition],
    word: &'a str,
) -> Option<&'a str>
    requires distinct { AreDistinct defs.now }
    requires found { AreFound places.now defs.now }
    ensures some { IfSome result (λ p. EndsAt defs.now word.now p.now) }
    ensures none { IfNone result (¬ (EndsUndefined defs.now word.now)) }
{
    let mut name = word;
    // A chain that ends has each definition at most once.
    let mut left = defs.len();
    loop {
        let Some(place) = position(places, defs, name) else {
            return Some(name);
        };
        let Some(parent) = &defs[place].parent else {
            return None;
        };
        if left == 0 {
            return None;
        }
        name = parent.as_str();
        left -= 1;
    }
}

/// The numbers of a chain, with others after them.
fn join_parents(
    alloc: Global,
    mut chain: Vec<&Definition>,
    rest: &[u32],
) -> Result<Vec<u32>, NamesFault>
    ensures found { IfOk result (λ v. (v.items ≡ chain_numbers (map (λ d. d.now) chain.entry.items)
        ++ rest.now) × (length v.items ≤ 128)) }
    ensures fault { IfErr result (λ e. IsFaultOfJoining e (chain_numbers
        (map (λ d. d.now) chain.entry.items) ++ rest.now)) }
{
    if rest.len() > 128 {
        return Err(NamesFault::TooDeep);
    }
    let room = 128 - rest.len();
    let mut numbers = Vec::new(alloc);
    while let Some(definition) = chain.pop() {
        let part = definition.numbers.as_slice();
        if part.len() > room - numbers.len() {
            return Err(NamesFault::TooDeep);
        }
        numbers.extend_from_slice(part)?;
    }
    numbers.extend_from_slice(rest)?;
    Ok(numbers)
}

/// Returns what a word with numbers after it means.
pub(crate) fn identifier_of(
    alloc: Global,
    places: &BTreeMap<String, usize>,
    defs: &[Definition],
    word: &str,
    rest: &[u32],
) -> Result<Oid, NamesFault>
    requires { AreFound places.now defs.now }
    ensures found { IfOk result (λ oid. IsOid oid × ((known : List ℕ)
        × StandsFor defs.now word.now known × (oid ≡ known ++ rest.now))) }
    ensures fault { IfErr result (λ e. IsFaultOfName e defs.now word.now rest.now) }
{
    let parents = chain(alloc, places, defs, word)?;
    let numbers = join_parents(alloc, parents, rest)?;
    match Oid::from_parts(alloc, numbers.as_slice()) {
        Ok(oid) => Ok(oid),
        Err(OidFault::OutOfMemory) => Err(NamesFault::OutOfMemory),
        Err(_) => Err(NamesFault::BadIdentifier),
    }
}
