//! A Set in two phases: which bindings are refused and what the others change, and then the changes
//! (RFC 3416 section 4.2.5).

ghost use Rattle.std.specs.Prelude.{◌≡◌, ℕ, ◌↔◌, ◌++◌, ◌∷◌, [], ◌^◌, ◌<◌, ◌≤◌, length, IfOk, IfErr, IfSome, IfNone, IsSomeAnd, IsTrue, All, Contains};
ghost use Rattle.mon_mib.specs.declared.binding_fault.BindingFault.{BindingFault as AnyFault};
ghost use Rattle.mon_mib.specs.declared.object.Object.{Object as AnyObject};
ghost use Rattle.mon_mib.specs.declared.object.Object.TheVariants as served;
ghost use Rattle.mon_mib.specs.declared.column.Column.TheVariants.{IfAdminStatus, IfAlias};
ghost use Rattle.mon_mib.specs.Assignment.{scalar_of, IsSetPlan};
ghost use Rattle.mon_mib.specs.Commit.{IsCommitted, failures_by_then};
ghost use Rattle.mon_mib.specs.Held.{facts_at};
ghost use Rattle.mon_mib.specs.LastPlaces.{AreLastPlaces, place_of};
ghost use Rattle.mon_mib.specs.Objects.{prefix_of};
ghost use Rattle.mon_mib.specs.Refusal.{IsWritable, IsAccepted, IsSetFault};
ghost use Rattle.mon_mib.specs.Tried.{object_of, IsTried, IsJudged, fault_at};
ghost use Rattle.mon_vacm.specs.Borrowed.{view_of};
ghost use Rattle.mon_vacm.specs.View.{IsInView};

use crate::binding_fault::BindingFault;
use crate::change::Change;
use crate::commit::{Commit, assign_all};
use crate::device::Device;
use crate::facts::{Facts, SysText};
use crate::mib::{Mib, find_object};
use crate::moment::Moment;
use crate::planned_change::PlannedChange;
use crate::set_fault::SetFault;
use crate::set_plan::SetPlan;
use crate::set_status::SetStatus;
use crate::writable::{Writable, read_status, read_text};
use mon_ber::{Octets, Value};
use mon_oid::Oid;
use mon_pdu::Binding;
use mon_vacm::{Access, Policy};
use std::alloc::{AllocError, Global};
use std::collections::{BTreeMap, VecDeque};

/// The most octets of a text of the system group (RFC 3418 section 2).
const SYS_TEXT_MAX: usize = 255;

/// The most octets of an ifAlias (RFC 2863 section 6).
const ALIAS_MAX: usize = 64;

impl<D: Device + Drop> Mib<D> {
    ghost use Rattle.mon_mib.specs.Map.{known_by, map_counters, map_device, map_settings};

    /// What a Set of these bindings is to assign, or the first of its bindings that is refused (RFC
    /// 3416 section 4.2.5). For each binding in order: `NoAccess` for a name outside the view,
    /// `NotWritable` for one under no object that a Set may change, `WrongType`, `WrongLength` and
    /// `WrongValue` for the value, `NoCreation` for a name with no such instance. Of several
    /// bindings of one name only the last is assigned. The plan owns the new texts and the capacity
    /// for undoing.
    pub fn test_set(
        &self,
        alloc: Global,
        policy: &Policy,
        access: Access<'_>,
        bindings: &[Binding],
        moment: Moment,
    ) -> Result<SetPlan, SetFault>
        ensures plan { let known = known_by D.held self.now moment in
            IfOk result (λ plan. IsSetPlan known bindings.now plan) }
        ensures accepted { let known = known_by D.held self.now moment in
            IfOk result (λ _. All (IsAccepted known (IsInView policy.now.families (view_of access.entry))) bindings.now) }
        ensures refused { let known = known_by D.held self.now moment in
            IfErr result (IsSetFault known (IsInView policy.now.families (view_of access.entry)) bindings.now) }
    {
        let places = last_places(alloc, bindings)?;
        let mut steps = VecDeque::new(alloc);
        for (i, binding) in bindings.iter().enumerate() {
            let index = i + 1;
            let change = self.assign_at(alloc, policy, access, index, binding, moment)?;
            if !is_named_after(&places, i, &binding.name) {
                steps.push_back(PlannedChange { index, change })?;
            }
        }
        SetPlan::new(alloc, steps)
    }

    /// Makes the assignments of a plan in their order. If one fails, all earlier ones are undone,
    /// the last first. If an undoing fails too, the others are still undone. It allocates nothing:
    /// the plan has the capacity.
    pub fn commit(&mut self, plan: SetPlan) -> Commit
        ensures outcome { IsCommitted D.held D.refuses plan (D.held (map_device self.old))
            (D.held (map_device self.new)) result }
        ensures failures { D.failed (map_device self.new) ≡ failures_by_then result
            (D.failed (map_device self.old)) }
        ensures settings { map_settings self.new ≡ map_settings self.old }
        ensures counters { map_counters self.new ≡ map_counters self.old }
    {
        assign_all(&mut self.device, plan)
    }

    /// The change that the binding of a number asks for, or why it is refused.
    fn assign_at(
        &self,
        alloc: Global,
        policy: &Policy,
        access: Access<'_>,
        index: usize,
        binding: &Binding,
        moment: Moment,
    ) -> Result<Change, SetFault>
        ensures made { let known = known_by D.held self.now moment in
            IfOk result (λ change. IsJudged known (IsInView policy.now.families (view_of access.entry)) binding.now (Ok change)) }
        ensures refused { let known = known_by D.held self.now moment in
            IfErr result (λ fault. (why : AnyFault) × (fault ≡ fault_at why index)
            × IsJudged known (IsInView policy.now.families (view_of access.entry)) binding.now (Err why)) }
    {
        match self.assign(alloc, policy, access, binding, moment) {
            Ok(change) => Ok(change),
            Err(fault) => Err(fault.at(index)),
        }
    }

    /// The change that a binding asks for, or why it is refused.
    fn assign(
        &self,
        alloc: Global,
        policy: &Policy,
        access: Access<'_>,
        binding: &Binding,
        moment: Moment,
    ) -> Result<Change, BindingFault>
        ensures { let known = known_by D.held self.now moment in
            IsJudged known (IsInView policy.now.families (view_of access.entry)) binding.now result }
    {
        if !policy.sees(access, &binding.name) {
            return Err(BindingFault::Refused(SetStatus::NoAccess));
        }
        let Some((object, rest)) = find_writable(binding.name.parts()) else {
            return Err(BindingFault::Refused(SetStatus::NotWritable));
        };
        match object {
            Writable::SysText(which) => self.assign_sys_text(alloc, which, rest, &binding.value),
            Writable::AdminStatus => self.assign_status(rest, &binding.value, moment),
            Writable::Alias => self.assign_alias(alloc, rest, &binding.value, moment),
        }
    }

    /// The change that a value of a text of the device asks for, for the name with these numbers
    /// after the object's own.
    fn assign_sys_text(
        &self,
        alloc: Global,
        which: SysText,
        rest: &[u32],
        value: &Value,
    ) -> Result<Change, BindingFault>
        ensures { (moment : ℕ) → let known = known_by D.held self.now moment in
            IsTried known (served.Scalar (scalar_of which)) rest.now value.now result }
    {
        let text = read_text(value, SYS_TEXT_MAX)?;
        if rest != [0].as_slice() {
            return Err(BindingFault::Refused(SetStatus::NoCreation));
        }
        Ok(Change::SysText(which, Octets::from_slice(alloc, text)?))
    }

    /// Plans the assignment of an ifAdminStatus. Where the status stays, so does the time of its
    /// change.
    fn assign_status(
        &self,
        rest: &[u32],
        value: &Value,
        moment: Moment,
    ) -> Result<Change, BindingFault>
        ensures { let known = known_by D.held self.now moment in
            IsTried known (served.Column IfAdminStatus) rest.now value.now result }
    {
        let status = read_status(value)?;
        let (index, facts) = self.row(rest, moment)?;
        let since = if facts.admin == status {
            facts.last_change
        } else {
            moment.sys_up_time()
        };
        Ok(Change::Admin {
            index,
            status,
            since,
        })
    }

    /// Plans the assignment of an ifAlias.
    fn assign_alias(
        &self,
        alloc: Global,
        rest: &[u32],
        value: &Value,
        moment: Moment,
    ) -> Result<Change, BindingFault>
        ensures { let known = known_by D.held self.now moment in
            IsTried known (served.Column IfAlias) rest.now value.now result }
    {
        let text = read_text(value, ALIAS_MAX)?;
        let (index, _) = self.row(rest, moment)?;
        Ok(Change::Alias(index, Octets::from_slice(alloc, text)?))
    }

    /// Returns the interface whose index is all of these numbers, and its facts.
    fn row(&self, rest: &[u32], moment: Moment) -> Result<(u32, Facts), SetStatus>
        ensures found { IfOk result (λ row. (rest.now ≡ row.0 ∷ [])
            × Contains (D.held (map_device self.now)).indexes row.0) }
        ensures facts { IfOk result (λ row. row.1 ≡ facts_at (D.held (map_device self.now)) row.0
            moment) }
        ensures missing { IfErr result (λ status. status ≡ SetStatus.NoCreation) }
        ensures lacking { IfErr result (λ _. (i : ℕ) → rest.now ≡ i ∷ []
            → Contains (D.held (map_device self.now)).indexes i → ⊥) }
    {
        let [index] = rest else {
            return Err(SetStatus::NoCreation);
        };
        match self.device.facts(*index, moment) {
            Some(facts) => Ok((*index, facts)),
            None => Err(SetStatus::NoCreation),
        }
    }
}

/// Returns the object that a Set may change and that a name is under, and what of the name follows
/// the object's own.
fn find_writable(name: &[u32]) -> Option<(Writable, &[u32])>
    ensures some { IfSome result (λ found. (name.now ≡ prefix_of (object_of found.0) ++ found.1.now)
        × IsWritable name.now (object_of found.0)) }
    ensures none { IfNone result ((o : AnyObject) → IsWritable name.now o → ⊥) }
{
    let (object, rest) = find_object(name)?;
    Some((object.writable()?, rest))
}

/// Returns the last place of each name that a binding after the first has. It allocates nothing for
/// a single binding.
fn last_places(alloc: Global, bindings: &[Binding]) -> Result<BTreeMap<&Oid, usize>, AllocError>
    ensures { IfOk result (AreLastPlaces bindings.now) }
{
    let mut places = BTreeMap::new(alloc);
    for i in 1..bindings.len() {
        places.insert(&bindings[i].name, i)?;
    }
    Ok(places)
}

/// Returns `true` if the last place of a name is after a place.
fn is_named_after<'a>(places: &BTreeMap<&'a Oid, usize>, place: usize, name: &'a Oid) -> bool
    ensures { IsTrue result ↔ IsSomeAnd (place_of places.now name.now) (λ last. place < last) }
{
    match places.get(&name) {
        Some(last) => place < *last,
        None => false,
    }
}
