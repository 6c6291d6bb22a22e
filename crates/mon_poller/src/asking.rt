//! The datagram that asks for a target's objects. The names in it are written once, since only the
//! request-id changes from poll to poll.

ghost use Rattle.std.specs.Prelude.{◌≡◌, ◌∷◌, ◌++◌, [], ◌<◌, ◌≤◌, ◌^◌, ◌+◌, ◌*◌, IfOk, OnOk, length, map};
ghost use Rattle.std.specs.List.{AllByRecursion, flat_map};
ghost use Rattle.mon_poller.specs.Stamp.{engine_id_name, engine_boots_name, engine_time_name};
ghost use Rattle.mon_poller.specs.Target.{IsAsked, IsTarget, SpellNames, poll_names, spelled_name, unspecified, object_names, poll_message, poll_octets};
ghost use Rattle.mon_pdu.specs.Sizes.{with_bindings};
ghost use Rattle.mon_ber.specs.declared.value.Value.TheVariants.{Name};
ghost use Rattle.mon_ber.specs.Grammar.{Spells};
ghost use Rattle.mon_ber.specs.Writing.{written};
ghost use Rattle.mon_pdu.specs.Writing.{list_contents, written_binding};

use crate::names::Names;
use crate::stamp::{ENGINE_BOOTS, ENGINE_ID, ENGINE_TIME};
use crate::target::{Object, Target};
use mon_ber::writing::{name_size, put_object_identifier};
use mon_ber::{Octets, Value};
use mon_oid::Oid;
use mon_pdu::{
    Binding, Bindings, Body, Message, Pdu, PduFault, PduKind, write_bindings, write_with,
};
use std::alloc::{AllocError, Global};

/// The variable bindings of a target's polls: the stamp's names and then each object's, directly
/// followed by its discontinuity's where it has one, each without a value (RFC 3416 section 4.2.1).
/// It fails only for memory, since a target within its limits is asked for no more than can be
/// written.
pub(crate) fn asked_octets(alloc: Global, target: &Target) -> Result<Octets, AllocError>
    requires { IsTarget target.now }
    ensures { IfOk result (IsAsked target.now) }
{
    let bindings = asked_bindings(alloc, target)?;
    match write_bindings(alloc, bindings.as_slice()) {
        Ok(octets) => Ok(Octets::new(octets)),
        Err(PduFault::OutOfMemory) => Err(AllocError),
        Err(_) => unreachable!(),
    }
}

/// Returns the names that a poll of a target asks for, in their order: the stamp's, and then each
/// object's, directly followed by its discontinuity's if it has one.
///
/// # Errors
/// `AllocError` if there is no memory for them.
pub fn poll_names(alloc: Global, target: &Target) -> Result<Vec<Oid>, AllocError>
    ensures { IfOk result (λ names. names.items ≡ poll_names target.now) }
{
    let bindings = asked_bindings(alloc, target)?;
    names_of(alloc, bindings.as_slice())
}

/// Returns the names of these bindings.
fn names_of(alloc: Global, bindings: &[Binding]) -> Result<Vec<Oid>, AllocError>
    ensures { IfOk result (λ names. names.items ≡ map (λ b. b.name) bindings.now) }
{
    let mut names = Vec::with_capacity(alloc, bindings.len())?;
    for binding in bindings {
        names.push(binding.name.try_clone(alloc)?)?;
    }
    Ok(names)
}

/// The names of a target's polls, each as it is spelled in a datagram.
pub(crate) fn spelled_names(alloc: Global, target: &Target) -> Result<Names, AllocError>
    ensures { IfOk result (λ names. SpellNames names (poll_names target.now)) }
{
    let bindings = asked_bindings(alloc, target)?;
    spelled(alloc, bindings.as_slice())
}

/// The names of these bindings, each as it is spelled in a datagram.
fn spelled(alloc: Global, bindings: &[Binding]) -> Result<Names, AllocError>
    ensures names { IfOk result (λ names. names ≡ map (λ b. spelled_name b.name) bindings.now) }
    ensures spells { IfOk result (λ _. AllByRecursion (λ b. Spells (spelled_name b.name)
        (Name b.name)) bindings.now) }
{
    let mut names = Vec::with_capacity(alloc, bindings.len())?;
    for binding in bindings {
        names.push(spelled_name(alloc, &binding.name)?)?;
    }
    Ok(Names::new(names))
}

/// A name as it is spelled in a datagram.
fn spelled_name(alloc: Global, name: &Oid) -> Result<Octets, AllocError>
    ensures octets { IfOk result (λ octets. octets ≡ spelled_name name.now) }
    ensures spells { IfOk result (λ octets. Spells octets (Name name.now)) }
{
    mon_ber::laws::written();
    // Proof: a name is an identifier.
    let _parts = name.parts();
    let mut octets = Vec::with_capacity(alloc, name_size(name))?;
    put_object_identifier(&mut octets, name);
    Ok(Octets::new(octets))
}

/// Writes the datagram of a poll: a Get of the target's names, which `list` holds as they are
/// written. It fails only for memory.
pub(crate) fn poll_octets(
    alloc: Global,
    target: &Target,
    list: &[u8],
    id: u32,
) -> Result<Octets, AllocError>
    requires target { IsTarget target.now }
    requires list { IsAsked target.now list.now }
    requires id { id < 2 ^ 31 }
    ensures { IfOk result (λ o. o ≡ poll_octets target.now id) }
{
    let message = empty_request(alloc, target, id)?;
    match write_with(alloc, &message, list) {
        Ok(octets) => Ok(Octets::new(octets)),
        Err(PduFault::OutOfMemory) => Err(AllocError),
        Err(_) => unreachable!(),
    }
}

/// A poll that asks for nothing.
fn empty_request(alloc: Global, target: &Target, id: u32) -> Result<Message, AllocError>
    requires { id < 2 ^ 31 }
    ensures { IfOk result (λ m. m ≡ with_bindings (poll_message target.now id) []) }
{
    Ok(Message {
        community: target.community.try_clone(alloc)?,
        body: Body::Pdu(Pdu {
            kind: PduKind::Get,
            request_id: id as i32,
            error_status: 0,
            error_index: 0,
            bindings: Bindings::new(Vec::new(alloc)),
        }),
    })
}

/// The names of a poll, none with a value yet.
fn asked_bindings(alloc: Global, target: &Target) -> Result<Vec<Binding>, AllocError>
    ensures bindings { IfOk result (λ v. v.items ≡ map unspecified (poll_names target.now)) }
    ensures short { IfOk result (λ v. length (list_contents v.items)
        ≤ 1989 + 1326 * length target.now.objects) }
{
    let mut bindings = stamp_bindings(alloc)?;
    for object in target.objects.as_slice() {
        ask_for(alloc, &mut bindings, object)?;
    }
    Ok(bindings)
}

/// The names of a stamp.
fn stamp_bindings(alloc: Global) -> Result<Vec<Binding>, AllocError>
    ensures bindings { IfOk result (λ v. v.items ≡ unspecified engine_id_name
        ∷ unspecified engine_boots_name ∷ unspecified engine_time_name ∷ []) }
    ensures short { IfOk result (λ v. length (list_contents v.items) ≤ 1989) }
{
    let mut bindings = Vec::new(alloc);
    bindings.push(name_binding(stamp_name(alloc, &ENGINE_ID)?))?;
    bindings.push(name_binding(stamp_name(alloc, &ENGINE_BOOTS)?))?;
    bindings.push(name_binding(stamp_name(alloc, &ENGINE_TIME)?))?;
    Ok(bindings)
}

/// Asks for an object too, and for its discontinuity.
fn ask_for(alloc: Global, bindings: &mut Vec<Binding>, object: &Object) -> Result<(), AllocError>
    ensures bindings { OnOk result (bindings.new.items ≡ bindings.old.items
        ++ map unspecified (object_names object.now)) }
    ensures short { OnOk result (length (list_contents bindings.new.items)
        ≤ length (list_contents bindings.old.items) + 1326) }
{
    bindings.push(name_binding(object.name.try_clone(alloc)?))?;
    if let Some(discontinuity) = &object.discontinuity {
        bindings.push(name_binding(discontinuity.try_clone(alloc)?))?;
    }
    Ok(())
}

/// The name of an object of the stamp.
fn stamp_name(alloc: Global, parts: &[u32; 11]) -> Result<Oid, AllocError>
    ensures { IfOk result (λ name. name ≡ parts.now) }
{
    match Oid::from_parts(alloc, parts) {
        Ok(name) => Ok(name),
        Err(_) => Err(AllocError),
    }
}

/// A name whose value is asked for (`unSpecified`, RFC 3416 section 3).
fn name_binding(name: Oid) -> Binding
    ensures binding { result ≡ unspecified name }
    ensures short { length (written_binding result) ≤ 663 }
{
    look_at_name(&name);
    Binding {
        name,
        value: Value::Null,
    }
}

/// A name is written in at most 651 octets.
fn look_at_name(name: &Oid)
    ensures { length (written (Name name.now)) ≤ 651 }
{
    // Proof: the contract of `name_size`.
    let _size = name_size(name);
}
