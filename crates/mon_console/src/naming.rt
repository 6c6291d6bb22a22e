//! Names by the modules that are given.

ghost use Rattle.std.specs.Prelude.{◌≡◌, ◌++◌, IfErr, IfOk, OnOk, false, length, map, nat_le, option_map, string_bytes};
ghost use Rattle.mon_console.specs.Clashing.{clash_end, clash_line, name_at, owner_of};
ghost use Rattle.mon_console.specs.Naming.{AreBuiltIn, AreJoinedFromAll, AreKnown, AreNames, IsAddedFile, IsUnaddable, IsUnnamed, is_among, left, names_in, others};
ghost use Rattle.mon_host.specs.Log.{GoesOnBy};
ghost use Rattle.mon_oid.specs.Oid.{IsOid};
ghost use Rattle.mon_smi.specs.BuiltIn.{built_in};
ghost use Rattle.mon_smi.specs.Names.{AreDistinct, IsFaultOfNameText, MeansNumbers};

use crate::failure::Failure;
use crate::files::read_text;
use mon_faults::Fault;
use mon_host::Host;
use mon_oid::Oid;
use mon_smi::{Clash, Definition, Module, Names, NamesFault, Position, TextFault, read_module};
use std::alloc::{AllocError, Global};

/// The built-in names and those of modules, and which module defines which.
pub struct KnownNames {
    names: Names,
    /// Of each module its name, and how many definitions there are up to its end.
    ends: Vec<(String, usize)>,
}

// By hand: where one is let go, a proof has one call and not a drop of each field.
impl Drop for KnownNames {
    fn drop(self) {
        let KnownNames { names: _, ends: _ } = self;
    }
}

impl KnownNames {
    /// The built-in names.
    pub fn new(alloc: Global) -> Result<Self, NamesFault>
        ensures known { IfOk result (λ known. known.names ≡ built_in) }
        ensures refused { IfErr result (λ fault. fault ≡ NamesFault.OutOfMemory) }
    {
        Ok(KnownNames {
            names: Names::new(alloc)?,
            ends: Vec::new(alloc),
        })
    }

    /// The names.
    pub fn names(&self) -> &Names
        ensures { result.now ≡ self.now.names }
    {
        &self.names
    }

    /// The names, without which module defines which.
    pub fn into_names(self) -> Names
        ensures { result ≡ self.names }
    {
        let KnownNames { names, ends: _ } = self;
        names
    }

    /// Adds the names of the module in a file.
    pub fn add_file<H: Host>(
        &mut self,
        alloc: Global,
        host: &mut H,
        path: &str,
    ) -> Result<(), Failure>
        ensures { GoesOnBy (λ log. IsAddedFile path.now self.old.names self.new.names log result)
            (H.log host.old) (H.log host.new) }
    {
        let text = read_text(alloc, host, path)?;
        match read_module(alloc, text.as_str()) {
            Ok(module) => self.add(alloc, path, &module),
            Err(fault) => Err(no_module(alloc, path, text.as_str(), fault)),
        }
    }

    /// Adds the names of the modules in files, in order.
    pub fn add_files<H: Host>(
        &mut self,
        alloc: Global,
        host: &mut H,
        files: &[String],
    ) -> Result<(), Failure>
        ensures { GoesOnBy (λ log. AreJoinedFromAll self.old.names (map string_bytes files.now)
            log (left self.new.names result)) (H.log host.old) (H.log host.new) }
    {
        for file in files {
            self.add_file(alloc, host, file.as_str())?;
        }
        Ok(())
    }

    /// Adds the names of a module that was read from this file.
    pub fn add(&mut self, alloc: Global, path: &str, added: &Module) -> Result<(), Failure>
        ensures added { OnOk result (self.new.names ≡ self.old.names ++ added.now.defs) }
        ensures distinct { OnOk result (AreDistinct (self.old.names ++ added.now.defs)) }
        ensures refused { IfErr result (IsUnaddable self.old.names added.now.defs) }
    {
        let name = String::from_str(alloc, added.name.as_str())?;
        match self.names.add(alloc, added) {
            Ok(()) => {
                self.ends.push((name, self.names.definitions().len()))?;
                Ok(())
            }
            Err(fault) => {
                let line = match fault {
                    NamesFault::Duplicate(clash) => self.clash_text(alloc, path, added, clash),
                    _ => format!(in alloc; "{path}: {fault}"),
                };
                Err(Failure::said(Fault::Names(fault), line))
            }
        }
    }

    /// Says where a name that a module defines is defined already.
    fn clash_text(
        &self,
        alloc: Global,
        path: &str,
        added: &Module,
        clash: Clash,
    ) -> Result<String, AllocError>
        ensures { IfOk result (λ text. string_bytes text
            ≡ clash_line path.now added.now.name (name_at added.now.defs clash.added)
            (clash_end (nat_le (length self.now.names) clash.earlier)
            (owner_of self.now.ends.items clash.earlier))) }
    {
        let own = added.name.as_str();
        let name = name_at(added.defs.as_slice(), clash.added);
        if clash.earlier >= self.names.definitions().len() {
            return format!(in alloc; "{path}: {own} defines {name} twice");
        }
        match owner_of(self.ends.as_slice(), clash.earlier) {
            Some(other) => format!(in alloc;
                "{path}: {own} defines {name}, which {other} defines too"
            ),
            None => format!(in alloc; "{path}: {own} defines {name}, which is a built-in name"),
        }
    }
}

/// Returns the name of the definition at a place.
fn name_at(definitions: &[Definition], place: usize) -> &str
    ensures { result.now ≡ name_at definitions.now place }
{
    match definitions.get(place) {
        Some(definition) => definition.name.as_str(),
        None => "a name",
    }
}

/// Returns the module of the definition at a place: the first one that ends after it.
fn owner_of(ends: &[(String, usize)], place: usize) -> Option<&str>
    ensures { option_map (λ o. o.now) result ≡ owner_of ends.now place }
{
    match ends.iter().find(|(_, end)| place < *end) {
        Some((owner, _)) => Some(owner.as_str()),
        None => None,
    }
}

/// Returns the built-in names, and those of the modules in files, in this order.
pub fn known_names<H: Host>(
    alloc: Global,
    host: &mut H,
    files: &[&str],
) -> Result<KnownNames, Failure>
    ensures { GoesOnBy (λ log. AreKnown (map (λ f. f.now) files.now) log result)
        (H.log host.old) (H.log host.new) }
{
    let known = built_in_names(alloc)?;
    add_others(alloc, host, known, files, &[])
}

/// Returns the names of `known_names`, of files with owned paths.
pub fn known_names_in<H: Host>(
    alloc: Global,
    host: &mut H,
    files: &[String],
) -> Result<KnownNames, Failure>
    ensures { GoesOnBy (λ log. AreKnown (map string_bytes files.now) log result)
        (H.log host.old) (H.log host.new) }
{
    let mut known = built_in_names(alloc)?;
    known.add_files(alloc, host, files)?;
    Ok(known)
}

/// Returns the built-in names.
fn built_in_names(alloc: Global) -> Result<KnownNames, Failure>
    ensures { AreBuiltIn (names_in result) }
{
    match KnownNames::new(alloc) {
        Ok(known) => Ok(known),
        Err(fault) => Err(Failure::from(fault)),
    }
}

/// Returns the names of `known_names`, without which module defines which.
pub fn names_of<H: Host>(alloc: Global, host: &mut H, files: &[&str]) -> Result<Names, Failure>
    ensures { GoesOnBy (λ log. AreNames (map (λ f. f.now) files.now) log result)
        (H.log host.old) (H.log host.new) }
{
    Ok(known_names(alloc, host, files)?.into_names())
}

/// Returns these names and those of the modules at paths, of which those are passed over that are
/// among the files.
pub(crate) fn add_others<H: Host>(
    alloc: Global,
    host: &mut H,
    known: KnownNames,
    paths: &[&str],
    files: &[String],
) -> Result<KnownNames, Failure>
    ensures { GoesOnBy (λ log. AreJoinedFromAll known.names
        (others files.now (map (λ p. p.now) paths.now)) log (names_in result))
        (H.log host.old) (H.log host.new) }
{
    let mut known = known;
    for path in paths {
        if !is_among(files, path) {
            known.add_file(alloc, host, path)?;
        }
    }
    Ok(known)
}

/// Returns `true` if one of the files is this one.
fn is_among(files: &[String], path: &str) -> bool
    ensures { result ≡ is_among files.now path.now }
{
    files.iter().any(|file| file.as_str() == path)
}

/// Why a file holds no module: where in it, and by which word.
pub fn no_module(alloc: Global, path: &str, text: &str, fault: TextFault) -> Failure
    ensures fault { result.fault ≡ Fault.Text fault }
    ensures whole { result.is_cut ≡ false }
{
    match fault {
        TextFault::Unexpected(span) | TextFault::Duplicate(span) => {
            let Position { line, column } = Position::of(text, span.start);
            let word = span.slice(text).unwrap_or("");
            Failure::said(
                Fault::Text(fault),
                format!(in alloc; "{path}: line {line}, column {column}: {fault}: {word}"),
            )
        }
        TextFault::OutOfMemory | TextFault::Unclosed => {
            Failure::at(alloc, path, Fault::Text(fault))
        }
    }
}

/// The identifier that a word of the command line means. Where its name is not defined, the fault
/// says what would define it.
pub fn asked_for(alloc: Global, names: &Names, word: &str) -> Result<Oid, Failure>
    ensures found { IfOk result (λ oid. IsOid oid × MeansNumbers names.now word.now oid) }
    ensures refused { IfErr result (λ failure. (fault : NamesFault)
        × (failure.fault ≡ Fault.Names fault) × IsFaultOfNameText fault names.now word.now) }
    ensures more { IfErr result (λ failure.
        (fault : NamesFault) × IsUnnamed names.now word.now fault failure) }
{
    match names.resolve(alloc, word) {
        Ok(oid) => Ok(oid),
        Err(fault) => Err(name_failure(alloc, names, word, fault)),
    }
}

/// Why a word means no identifier by these names.
pub fn name_failure(alloc: Global, names: &Names, word: &str, fault: NamesFault) -> Failure
    ensures fault { result.fault ≡ Fault.Names fault }
    ensures more { IsUnnamed names.now word.now fault result }
{
    match fault {
        NamesFault::Unknown => {
            let missing = names.missing(word).unwrap_or(word);
            Failure::said(
                Fault::Names(fault),
                format!(in alloc;
                    "{word}: {missing} is not defined; --module FILE gives the names of a module"
                ),
            )
        }
        _ => Failure::at(alloc, word, Fault::Names(fault)),
    }
}
