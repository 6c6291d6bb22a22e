ghost use Rattle.std.specs.Prelude.{◌≡◌, ◌++◌, ℕ, List, string_bytes, IfOk, IfErr, IfSome, IfNone, OnOk, OnErr, IsOkUnless};
ghost use Rattle.mon_oid.specs.Oid.{IsOid, Spells};
ghost use Rattle.mon_smi.specs.BuiltIn.{built_in};
ghost use Rattle.mon_smi.specs.Names.{AreDistinct, IsNamed, MeansNumbers, EndsAt, EndsUndefined, IsFaultOfAdding, IsFaultOfNameText, form_fault};
ghost use Rattle.mon_smi.specs.Nearest.{IsNameOf};
ghost use Rattle.mon_smi.specs.Places.{AreFound};

use crate::built_in::built_in;
use crate::chain::{identifier_of, undefined_end};
use crate::definition::{Definition, Module};
use crate::fault::{FormFault, NamesFault};
use crate::labels::Labels;
use crate::places::{add_places, first_clash};
use crate::text::is_word;
use mon_oid::{Oid, OidFault, dotted_numbers};
use std::alloc::{AllocError, Global};
use std::collections::BTreeMap;
use std::marker::Model;

/// The names that are defined, which contracts see as the list of their definitions.
pub struct Names {
    defs: Vec<Definition>,
    // The place of each definition by its name. An add that failed may leave more, of which nothing
    // is believed.
    places: BTreeMap<String, usize>,
}

// By hand: where one is let go, a proof has one call and not a drop of each field.
impl Drop for Names {
    fn drop(self) {
        let Names { defs: _, places: _ } = self;
    }
}

impl Model for Names {
    ghost use Rattle.std.specs.Prelude.{List};
    ghost use Rattle.mon_smi.specs.declared.definition.Definition.{Definition};
    ghost use Rattle.mon_smi.specs.Names.{AreDistinct};
    ghost use Rattle.mon_smi.specs.Places.{AreFound};

    ghost Value = { List Definition };

    ghost view = { λ n. n.defs.items };

    ghost invariant = { λ n. AreDistinct n.defs.items × AreFound n.places n.defs.items };
}

impl Names {
    /// Returns the names that are defined without any module, as `enterprises` (RFC 2578 section
    /// 2).
    pub fn new(alloc: Global) -> Result<Self, AllocError>
        ensures { IfOk result (λ n. n ≡ built_in) }
    {
        let defs = built_in(alloc)?;
        let mut places = BTreeMap::new(alloc);
        add_places(alloc, &mut places, &[], defs.as_slice())?;
        Ok(Names { defs, places })
    }

    /// Adds a module's definitions: `Duplicate` where one of its value names is defined already,
    /// or twice in the module, with the places of the first such definition and of the earlier one
    /// of its name. An `Err` changes nothing.
    pub fn add(&mut self, alloc: Global, added: &Module) -> Result<(), NamesFault>
        ensures ok { OnOk result (self.new ≡ self.old ++ added.now.defs) }
        ensures distinct { OnOk result (AreDistinct (self.old ++ added.now.defs)) }
        ensures err { OnErr result (self.new ≡ self.old) }
        ensures fault { IfErr result (λ e. IsFaultOfAdding e self.old added.now.defs) }
    {
        let known = self.defs.as_slice();
        let defs = added.defs.as_slice();
        if let Some(clash) = first_clash(alloc, &self.places, known, defs)? {
            return Err(NamesFault::Duplicate(clash));
        }
        let mut copies = copies(alloc, defs)?;
        add_places(alloc, &mut self.places, known, copies.as_slice())?;
        self.defs.append(&mut copies)?;
        Ok(())
    }

    /// The definitions, in the order in which they were added. The built-in ones come first.
    pub fn definitions(&self) -> &[Definition]
        ensures { result.now ≡ self.now }
    {
        self.defs.as_slice()
    }

    /// No name is defined twice. It does nothing: the clause holds of all names, and is here for
    /// whoever needs it.
    pub fn invariants(&self)
        ensures { AreDistinct self.now }
    {
        // Proof: the invariant of the definitions.
        let _ = self.defs.as_slice();
    }

    /// The identifier that a text means: numbers with dots between them, a name, or a name with
    /// numbers after it, as `ifInOctets.1`. `Formless` where the text has another form, `Unknown`
    /// where the chain of parents ends at a name that is not defined, `Cycle` where the chain comes
    /// to a name that it has passed, `TooDeep` above 128 sub-identifiers, `BadIdentifier` where
    /// they are no identifier.
    pub fn resolve(&self, alloc: Global, text: &str) -> Result<Oid, NamesFault>
        ensures found { IfOk result (λ oid. IsOid oid × MeansNumbers self.now text.now oid) }
        ensures accepted { (q : List ℕ) → MeansNumbers self.now text.now q → IsOid q
            → IsOkUnless result NamesFault.OutOfMemory }
        ensures fault { IfErr result (λ e. IsFaultOfNameText e self.now text.now) }
        // No name is defined twice.
        ensures distinct { AreDistinct self.now }
    {
        mon_oid::laws::one_reading();
        resolve_in(alloc, &self.places, self.defs.as_slice(), text)
    }

    /// The name that is missing where `resolve` answers `Unknown`: the one at which the chain of
    /// the parents of the text's name ends, and which has no definition. `None` if there is no such
    /// name. Of a text that is no name it says nothing.
    pub fn missing<'a>(&'a self, text: &'a str) -> Option<&'a str>
        ensures some { IfSome result (λ p. (w rest : List ℕ) → IsNamed text.now w rest
            → EndsAt self.now w p.now) }
        ensures none { IfNone result ((w rest : List ℕ) → IsNamed text.now w rest
            → ¬ (EndsUndefined self.now w)) }
    {
        undefined_end(&self.places, self.defs.as_slice(), name_in(text))
    }

    /// The name with the longest identifier that the other one begins with (of equal ones the least
    /// by bytes) and the rest with dots, as `ifInOctets.1`. Without such a name all of it with
    /// dots. It goes over all definitions: for the names of many identifiers see `labels`.
    pub fn name_of(&self, alloc: Global, oid: &Oid) -> Result<String, AllocError>
        ensures { IfOk result (λ text. IsNameOf self.now oid.now (string_bytes text)) }
    {
        self.labels(alloc)?.name_of(alloc, oid)
    }

    /// The names by their identifiers. Made once, they find each name without going over all
    /// definitions.
    pub fn labels(&self, alloc: Global) -> Result<Labels<'_>, AllocError>
        ensures { IfOk result (λ labels. labels ≡ self.now) }
    {
        Labels::new(alloc, &self.places, self.defs.as_slice())
    }
}

/// The identifier that a text means.
fn resolve_in(
    alloc: Global,
    places: &BTreeMap<String, usize>,
    defs: &[Definition],
    text: &str,
) -> Result<Oid, NamesFault>
    requires { AreFound places.now defs.now }
    ensures found { IfOk result (λ oid. IsOid oid × MeansNumbers defs.now text.now oid) }
    ensures fault { IfErr result (λ e. IsFaultOfNameText e defs.now text.now) }
{
    match Oid::parse(alloc, text) {
        Ok(oid) => Ok(oid),
        Err(OidFault::OutOfMemory) => Err(NamesFault::OutOfMemory),
        Err(OidFault::TooLong) => Err(NamesFault::TooDeep),
        Err(OidFault::BadText) => named(alloc, places, defs, text),
        Err(OidFault::TooShort | OidFault::BadFirst) => Err(NamesFault::BadIdentifier),
    }
}

/// The identifier that a text means which does not spell numbers.
fn named(
    alloc: Global,
    places: &BTreeMap<String, usize>,
    defs: &[Definition],
    text: &str,
) -> Result<Oid, NamesFault>
    requires found { AreFound places.now defs.now }
    requires no_numbers { (q : List ℕ) → ¬ (Spells text.now q) }
    ensures found { IfOk result (λ oid. IsOid oid × MeansNumbers defs.now text.now oid) }
    ensures fault { IfErr result (λ e. IsFaultOfNameText e defs.now text.now) }
{
    let Some((word, rest)) = text.split_once('.') else {
        if !is_word(text) {
            return Err(NamesFault::Formless(form_fault(text)));
        }
        return identifier_of(alloc, places, defs, text, &[]);
    };
    if !is_word(word) {
        return Err(NamesFault::Formless(form_fault(text)));
    }
    match dotted_numbers(alloc, rest) {
        Ok(rest) => identifier_of(alloc, places, defs, word, rest.as_slice()),
        Err(OidFault::BadText) => Err(NamesFault::Formless(form_fault(text))),
        Err(_) => Err(NamesFault::OutOfMemory),
    }
}

/// Returns what is wrong with the form of a text that is neither a name nor numbers.
fn form_fault(text: &str) -> FormFault
    ensures { result ≡ form_fault text.now }
{
    let octets = text.as_bytes();
    if !octets.is_empty() && octets[0] == b'.' {
        return FormFault::LeadingDot;
    }
    if octets.contains(&b':') {
        return FormFault::Colon;
    }
    FormFault::Other
}

/// Returns the part of a text before its first dot, or all of it if it has none.
fn name_in(text: &str) -> &str
    ensures { (w rest : List ℕ) → IsNamed text.now w rest → result.now ≡ w }
{
    match text.split_once('.') {
        Some((word, _)) => word,
        None => text,
    }
}

/// Copies of the definitions.
fn copies(alloc: Global, defs: &[Definition]) -> Result<Vec<Definition>, AllocError>
    ensures { IfOk result (λ v. v.items ≡ defs.now) }
{
    let mut copies = Vec::new(alloc);
    for definition in defs {
        copies.push(definition.try_clone(alloc)?)?;
    }
    Ok(copies)
}
