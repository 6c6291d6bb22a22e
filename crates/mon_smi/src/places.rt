//! Where definitions are, by their names.

ghost use Rattle.std.specs.Prelude.{◌≡◌, ◌++◌, IfOk, OnOk, IfSome, IfNone};
ghost use Rattle.mon_smi.specs.Names.{IsAt, IsUndefined, AreDistinct, IsFirstClash};
ghost use Rattle.mon_smi.specs.Places.{AreFound, IsAgain};
ghost use Rattle.mon_smi.specs.declared.definition.Definition.{Definition as AnyDefinition};

use crate::definition::Definition;
use crate::fault::Clash;
use std::alloc::{AllocError, Global};
use std::collections::BTreeMap;

/// The place of the first definition whose name an earlier one has.
pub(crate) fn first_twice(alloc: Global, defs: &[Definition]) -> Result<Option<usize>, AllocError>
    ensures some { IfOk result (λ found. IfSome found (λ i. (d : AnyDefinition)
        × IsAgain defs.now i d)) }
    ensures none { IfOk result (λ found. IfNone found (AreDistinct defs.now)) }
{
    let mut places = BTreeMap::new(alloc);
    for (i, definition) in defs.iter().enumerate() {
        if places.insert(definition.name.as_str(), i)?.is_some() {
            return Ok(Some(i));
        }
    }
    Ok(None)
}

/// The first definition whose name is known or an earlier one of these has, with the place of the
/// earlier one.
pub(crate) fn first_clash(
    alloc: Global,
    places: &BTreeMap<String, usize>,
    known: &[Definition],
    defs: &[Definition],
) -> Result<Option<Clash>, AllocError>
    requires distinct { AreDistinct known.now }
    requires found { AreFound places.now known.now }
    ensures some { IfOk result (λ found. IfSome found (λ clash. IsFirstClash known.now defs.now
        clash)) }
    ensures none { IfOk result (λ found. IfNone found (AreDistinct (known.now ++ defs.now))) }
{
    let mut passed = BTreeMap::new(alloc);
    for (added, definition) in defs.iter().enumerate() {
        let name = definition.name.as_str();
        if let Some(earlier) = position(places, known, name) {
            return Ok(Some(Clash { added, earlier }));
        }
        if let Some(before) = passed.insert(name, added)? {
            let earlier = known.len() + before;
            return Ok(Some(Clash { added, earlier }));
        }
    }
    Ok(None)
}

/// Adds the places of these definitions after those that are known.
pub(crate) fn add_places(
    alloc: Global,
    places: &mut BTreeMap<String, usize>,
    known: &[Definition],
    defs: &[Definition],
) -> Result<(), AllocError>
    requires found { AreFound places.old known.now }
    requires distinct { AreDistinct (known.now ++ defs.now) }
    ensures found { OnOk result (AreFound places.new (known.now ++ defs.now)) }
    ensures kept { AreFound places.new known.now }
{
    for (i, definition) in defs.iter().enumerate() {
        let name = String::from_str(alloc, definition.name.as_str())?;
        places.insert(name, known.len() + i)?;
    }
    Ok(())
}

/// Where the name is defined.
pub(crate) fn position(
    places: &BTreeMap<String, usize>,
    defs: &[Definition],
    name: &str,
) -> Option<usize>
    requires { AreFound places.now defs.now }
    ensures found { IfSome result (λ i. (d : AnyDefinition) × IsAt defs.now i d
        × (d.name ≡ name.now)) }
    ensures none { IfNone result (IsUndefined defs.now name.now) }
{
    let Some(place) = places.get(name) else {
        return None;
    };
    let Some(definition) = defs.get(*place) else {
        return None;
    };
    if definition.name.as_str() != name {
        return None;
    }
    Some(*place)
}
