//! The names of identifiers, found by the identifiers.

ghost use Rattle.std.specs.Prelude.{◌≡◌, ◌↔◌, ◌≤◌, ◌++◌, ℕ, List, length, Option, Some, None, false, true, string_bytes, IfOk, IfSome, IfNone, OnOk};
ghost use Rattle.std.specs.Option.{option_copied, option_map};
ghost use Rattle.mon_oid.specs.Oid.{IsOid, dotted};
ghost use Rattle.mon_smi.specs.Names.{AreDistinct};
ghost use Rattle.mon_smi.specs.Parents.{numbers_of};
ghost use Rattle.mon_smi.specs.Places.{AreFound};
ghost use Rattle.mon_smi.specs.Nearest.{IsNameOf, dotted_after};
ghost use Rattle.mon_smi.specs.Labels.{AreLabels, AreWithin, IsAdded, IsPut, is_known, label_of, longest, name_text};

use crate::chain::identifier_of;
use crate::definition::Definition;
use crate::fault::NamesFault;
use crate::laws;
use itoa::Buffer;
use mon_oid::Oid;
use std::alloc::{AllocError, Global};
use std::collections::BTreeMap;
use std::marker::Model;

/// The names of identifiers, in an order that finds them fast. Contracts see the definitions of the
/// names.
#[derive(Drop)]
pub struct Labels<'a> {
    defs: &'a [Definition],
    // By an identifier the least, by bytes, of the names that mean it.
    by_identifier: BTreeMap<Vec<u32>, &'a str>,
    // No identifier in the map has more numbers.
    longest: usize,
}

impl<'a> Model for Labels<'a> {
    ghost use Rattle.std.specs.Prelude.{List};
    ghost use Rattle.mon_smi.specs.declared.definition.Definition.{Definition};
    ghost use Rattle.mon_smi.specs.Names.{AreDistinct};
    ghost use Rattle.mon_smi.specs.Labels.{AreLabels, AreWithin};

    ghost Value = { List Definition };

    ghost view = { λ l. l.defs.now };

    ghost invariant = { λ l. AreDistinct l.defs.now
        × AreLabels l.defs.now l.defs.now l.by_identifier × AreWithin l.longest l.by_identifier };
}

impl<'a> Labels<'a> {
    /// Returns the names of these definitions that mean an identifier, with the places of the
    /// definitions.
    pub(crate) fn new(
        alloc: Global,
        places: &BTreeMap<String, usize>,
        defs: &'a [Definition],
    ) -> Result<Self, AllocError>
        requires distinct { AreDistinct defs.now }
        requires found { AreFound places.now defs.now }
        ensures { IfOk result (λ labels. labels ≡ defs.now) }
    {
        let mut by_identifier = BTreeMap::new(alloc);
        let mut longest = 0;
        for definition in defs {
            let name = definition.name.as_str();
            let len = add_label(alloc, places, defs, &mut by_identifier, name)?;
            if len > longest {
                longest = len;
            }
        }
        Ok(Labels {
            defs,
            by_identifier,
            longest,
        })
    }

    /// The definitions of the names, in their order.
    pub fn definitions(&self) -> &'a [Definition]
        ensures { result.now ≡ self.now }
    {
        self.defs
    }

    /// The name with the longest identifier that the other one begins with (of equal ones the least
    /// by bytes) and the rest with dots, as `ifInOctets.1`. Without such a name all of it with
    /// dots.
    pub fn name_of(&self, alloc: Global, oid: &Oid) -> Result<String, AllocError>
        ensures name { IfOk result (λ text. IsNameOf self.now oid.now (string_bytes text)) }
        ensures text { IfOk result (λ text. string_bytes text ≡ name_text self.now oid.now) }
    {
        let mut text = String::new(alloc);
        self.put_name(&mut text, oid)?;
        Ok(text)
    }

    /// Adds the name, as `name_of` gives it, to the text.
    fn put_name(&self, text: &mut String, oid: &Oid) -> Result<(), AllocError>
        ensures text { OnOk result (string_bytes text.new ≡ string_bytes text.old
            ++ name_text self.now oid.now) }
        ensures name { IsNameOf self.now oid.now (name_text self.now oid.now) }
    {
        laws::one_text();
        let parts = oid.parts();
        match self.nearest(parts) {
            Some((name, len)) => {
                text.push_str(name)?;
                put_numbers(text, &parts[len..])
            }
            None => put_dotted(text, parts),
        }
    }

    /// The name of the longest beginning that has one, with its length.
    fn nearest(&self, parts: &[u32]) -> Option<(&'a str, usize)>
        requires { IsOid parts.now }
        ensures longest { option_map (λ b. (b.0.now, b.1)) result
            ≡ longest (label_of self.now) parts.now (length parts.now) }
        ensures within { IfSome result (λ b. b.1 ≤ length parts.now) }
        ensures distinct { AreDistinct self.now }
    {
        let mut len = parts.len().min(self.longest);
        while len >= 2 {
            if let Some(name) = self.by_identifier.get(&parts[..len]) {
                return Some((*name, len));
            }
            len -= 1;
        }
        None
    }
}

/// Returns the identifier that a name means.
fn identify(
    alloc: Global,
    places: &BTreeMap<String, usize>,
    defs: &[Definition],
    name: &str,
) -> Result<Option<Oid>, AllocError>
    requires distinct { AreDistinct defs.now }
    requires found { AreFound places.now defs.now }
    ensures found { IfOk result (λ oid. IfSome oid (λ q. IsOid q
        × (numbers_of defs.now name.now ≡ Some q))) }
    ensures none { IfOk result (λ oid. IfNone oid ((q : List ℕ) → IsOid q
        → numbers_of defs.now name.now ≡ Some q → ⊥)) }
{
    match identifier_of(alloc, places, defs, name, &[]) {
        Ok(oid) => Ok(Some(oid)),
        Err(fault) => match fault {
            NamesFault::OutOfMemory => Err(AllocError),
            _ => Ok(None),
        },
    }
}

/// Puts a name into the map if it means an identifier. Returns how many numbers that has, or 0.
fn add_label<'a>(
    alloc: Global,
    places: &BTreeMap<String, usize>,
    defs: &[Definition],
    by_identifier: &mut BTreeMap<Vec<u32>, &'a str>,
    name: &'a str,
) -> Result<usize, AllocError>
    requires distinct { AreDistinct defs.now }
    requires found { AreFound places.now defs.now }
    ensures added { OnOk result (IsAdded defs.now name.now by_identifier.old by_identifier.new) }
    ensures within { IfOk result (λ len. (n : ℕ) → len ≤ n → AreWithin n by_identifier.old
        → AreWithin n by_identifier.new) }
{
    match identify(alloc, places, defs, name)? {
        Some(oid) => {
            put_label(alloc, by_identifier, &oid, name)?;
            Ok(oid.parts().len())
        }
        None => Ok(0),
    }
}

/// Puts a name into the map, unless one is known for the identifier that is no greater.
fn put_label<'a>(
    alloc: Global,
    by_identifier: &mut BTreeMap<Vec<u32>, &'a str>,
    oid: &Oid,
    name: &'a str,
) -> Result<(), AllocError>
    ensures { OnOk result (IsPut oid.now name.now by_identifier.old by_identifier.new) }
{
    if is_known(by_identifier.get(oid.parts()).copied(), name) {
        return Ok(());
    }
    by_identifier.insert(Vec::from_slice(alloc, oid.parts())?, name)?;
    Ok(())
}

/// Returns `true` if a name is known that is no greater.
fn is_known(known: Option<&str>, name: &str) -> bool
    ensures { result ≡ is_known (option_map (λ w. w.now) known.entry) name.now }
{
    match known {
        Some(known) => known.cmp(name).is_le(),
        None => false,
    }
}

/// Adds the numbers with a dot before each.
fn put_numbers(text: &mut String, numbers: &[u32]) -> Result<(), AllocError>
    ensures { OnOk result (string_bytes text.new ≡ string_bytes text.old
        ++ dotted_after numbers.now) }
{
    for number in numbers {
        text.push('.')?;
        text.push_str(Buffer::new().format(*number))?;
    }
    Ok(())
}

/// Adds the numbers with dots between them.
fn put_dotted(text: &mut String, numbers: &[u32]) -> Result<(), AllocError>
    ensures { OnOk result (string_bytes text.new ≡ string_bytes text.old ++ dotted numbers.now) }
{
    let [first, rest @ ..] = numbers else {
        return Ok(());
    };
    text.push_str(Buffer::new().format(*first))?;
    put_numbers(text, rest)
}
