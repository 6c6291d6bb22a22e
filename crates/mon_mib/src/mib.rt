ghost use Rattle.std.specs.Prelude.{Some, ◌≡◌, ◌^◌, ◌<◌, ◌+◌, ◌/◌, ◌%◌, min, length, IfOk, IfSome, IfNone, IsTrue, ◌++◌, ◌∷◌, [], Contains, ℕ, List};
ghost use Rattle.std.specs.List.{AllWithin};
ghost use Rattle.std.specs.declared.cmp.Ordering.TheVariants.{Less};
ghost use Rattle.mon_oid.specs.Oid.{IsPrefix};
ghost use Rattle.mon_mib.specs.Counters.{counted, no_counts};
ghost use Rattle.mon_mib.specs.Held.{IsAbove, IsLeastOf, text_at};
ghost use Rattle.mon_mib.specs.declared.facts.Facts.{Facts as AnyFacts};
ghost use Rattle.mon_mib.specs.declared.got.Got.TheVariants.{Found};
ghost use Rattle.mon_mib.specs.Shown.{IsServed, got_of};
ghost use Rattle.mon_mib.specs.Known.{Known as AnyKnown, instances, variable_value, scalar_value, column_value};
ghost use Rattle.mon_mib.specs.Next.{IsGot, IsNext, IsServedName};
ghost use Rattle.mon_mib.specs.Objects.{objects, prefix_of};
ghost use Rattle.mon_mib.specs.Order.{IsFrom, name_cmp};
ghost use Rattle.mon_vacm.specs.Borrowed.{view_of};
ghost use Rattle.mon_vacm.specs.View.{IsInView};

use crate::column::Column;
use crate::counters::{Counter, Counters};
use crate::device::Device;
use crate::facts::{Facts, IfText, SysText};
use crate::got::Got;
use crate::guess::guess_place;
use crate::moment::Moment;
use crate::object::{Object, all_objects};
use crate::scalar::Scalar;
use crate::search::Search;
use crate::settings::Settings;
use crate::shown::Shown;
use crate::start::Start;
use mon_ber::Value;
use mon_oid::Oid;
use mon_pdu::Binding;
use mon_vacm::{Access, Policy};
use std::alloc::{AllocError, Global};

/// The agent's map of variables: settings, counters, and a device.
pub struct Mib<D: Drop> {
    /// What is served as it was given at the start.
    settings: Settings,
    /// What the agent has counted.
    counters: Counters,
    /// What serves the texts that can be set, and the interfaces.
    pub(crate) device: D,
}

// By hand: where one is let go, a proof has one call and not a drop of each field.
impl<D: Drop> Drop for Mib<D> {
    fn drop(self) {
        let Mib {
            settings: _,
            counters: _,
            device: _,
        } = self;
    }
}

impl<D: Device + Drop> Mib<D> {
    ghost use Rattle.mon_mib.specs.Map.{known_by, map_counters, map_device, map_settings, with_counters};

    /// The map over a device, with all counters at 0.
    pub fn new(settings: Settings, device: D) -> Self
        ensures settings { map_settings result ≡ settings }
        ensures counters { map_counters result ≡ no_counts }
        ensures device { map_device result ≡ device }
    {
        Mib {
            settings,
            counters: Counters::new(),
            device,
        }
    }

    /// Returns what is served as it was given at the start.
    pub fn settings(&self) -> &Settings
        ensures { result.now ≡ map_settings self.now }
    {
        &self.settings
    }

    /// What was counted.
    pub fn counters(&self) -> Counters
        ensures { result ≡ map_counters self.now }
    {
        self.counters
    }

    /// What serves the texts that can be set, and the interfaces.
    pub fn device(&self) -> &D
        ensures { result.now ≡ map_device self.now }
    {
        &self.device
    }

    /// Counts one more of a counter.
    pub fn count(&mut self, counter: Counter)
        ensures { self.new ≡ with_counters self.old (counted (map_counters self.old) counter) }
    {
        self.counters.count(counter);
    }

    /// Puts the counters back to what they were.
    pub fn recount(&mut self, counters: Counters)
        ensures { self.new ≡ with_counters self.old counters }
    {
        self.counters = counters;
    }

    /// Returns what is at a name at a time: the value of the variable of that name, `NoObject` if
    /// the name is under no served object, else `NoInstance` (RFC 3416 section 4.2.1). It allocates
    /// only for octets and long identifiers.
    pub fn get(&self, alloc: Global, name: &Oid, moment: Moment) -> Result<Got, AllocError>
        ensures { let known = known_by D.held self.now moment in
            IfOk result (IsGot known name.now) }
    {
        self.show(alloc, name, moment)?.into_got(alloc)
    }

    /// Returns what `get` does, with octets lent where the agent keeps them.
    pub fn show(&self, alloc: Global, name: &Oid, moment: Moment) -> Result<Shown<'_>, AllocError>
        ensures { let known = known_by D.held self.now moment in
            IfOk result (λ shown. IsGot known name.now (got_of shown)) }
    {
        let Some((object, rest)) = find_object(name.parts()) else {
            return Ok(Shown::Other(Got::NoObject));
        };
        if rest.len() != 1 {
            return Ok(Shown::Other(Got::NoInstance));
        }
        self.show_variable(alloc, object, rest[0], moment)
    }

    /// Returns the least variable in view that exceeds a name at a time, or `None` if there is none
    /// (RFC 3416 section 4.2.2). It asks the device for the least index of each object on, and
    /// makes no list.
    pub fn next(
        &self,
        alloc: Global,
        policy: &Policy,
        access: Access<'_>,
        name: &Oid,
        moment: Moment,
    ) -> Result<Option<Binding>, AllocError>
        ensures { let known = known_by D.held self.now moment in
            IfOk result (IsNext objects known (IsInView policy.now.families (view_of access.entry)) name.now) }
    {
        Search::new(alloc, self, policy, access, moment).next(alloc, name)
    }

    /// The least instance of an object from a start on.
    pub(crate) fn next_instance(&self, object: Object, start: Start) -> Option<u32>
        ensures { IsLeastOf (instances (D.held (map_device self.now)) object) (IsFrom start)
            result }
    {
        match start {
            Start::First => self.instance_above(object, None),
            Start::Above(instance) => self.instance_above(object, Some(instance)),
            Start::Nowhere => None,
        }
    }

    /// The least instance of an object above another, or of all.
    fn instance_above(&self, object: Object, after: Option<u32>) -> Option<u32>
        ensures { IsLeastOf (instances (D.held (map_device self.now)) object) (IsAbove after)
            result }
    {
        match object {
            Object::Column(_) => self.device.next_index(after),
            Object::Scalar(_) => match after {
                None => Some(0),
                Some(_) => None,
            },
        }
    }

    /// What is served of an object's variable of an instance.
    #[tactic(auto, unfolding(crate::specs::Known::variable_value))]
    pub(crate) fn show_variable(
        &self,
        alloc: Global,
        object: Object,
        instance: u32,
        moment: Moment,
    ) -> Result<Shown<'_>, AllocError>
        ensures { let known = known_by D.held self.now moment in
            IfOk result (λ shown. IsServed known object instance (got_of shown)) }
    {
        match object {
            Object::Scalar(scalar) => {
                if instance != 0 {
                    return Ok(Shown::Other(Got::NoInstance));
                }
                self.scalar(alloc, scalar, moment)
            }
            Object::Column(column) => {
                let Some(facts) = self.device.facts(instance, moment) else {
                    return Ok(Shown::Other(Got::NoInstance));
                };
                Ok(self.column(column, instance, facts))
            }
        }
    }

    /// The value of a scalar.
    fn scalar(&self, alloc: Global, scalar: Scalar, moment: Moment) -> Result<Shown<'_>, AllocError>
        ensures { let known = known_by D.held self.now moment in
            IfOk result (λ shown. got_of shown ≡ Found (scalar_value known scalar)) }
    {
        let settings = &self.settings;
        let counters = &self.counters;
        Ok(match scalar {
            Scalar::SysDescr => Shown::Octets(settings.descr.as_slice()),
            Scalar::SysObjectId => found(Value::Name(settings.object_id.try_clone(alloc)?)),
            Scalar::SysUpTime => found(Value::TimeTicks(moment.sys_up_time())),
            Scalar::SysContact => Shown::Octets(self.device.sys_text(SysText::Contact)),
            Scalar::SysName => Shown::Octets(self.device.sys_text(SysText::SystemName)),
            Scalar::SysLocation => Shown::Octets(self.device.sys_text(SysText::Location)),
            Scalar::SysServices => found(Value::Integer(settings.services)),
            Scalar::IfNumber => found(Value::Integer(self.device.interface_count() as i32)),
            Scalar::SnmpInPkts => found(Value::Counter32(counters.in_packets)),
            Scalar::SnmpInBadVersions => found(Value::Counter32(counters.bad_versions)),
            Scalar::SnmpInBadCommunityNames => found(Value::Counter32(counters.bad_communities)),
            Scalar::SnmpInAsnParseErrs => found(Value::Counter32(counters.parse_errors)),
            Scalar::SnmpSilentDrops => found(Value::Counter32(counters.silent_drops)),
            Scalar::SnmpEngineId => Shown::Octets(settings.engine.as_slice()),
            Scalar::SnmpEngineBoots => found(Value::Integer(settings.boots)),
            Scalar::SnmpEngineTime => found(Value::Integer(moment.engine_time() as i32)),
            Scalar::SnmpEngineMaxMessageSize => found(Value::Integer(settings.max_message_size)),
        })
    }

    /// The value of a column in the row of an interface with these facts.
    fn column(&self, column: Column, index: u32, facts: Facts) -> Shown<'_>
        requires there { Contains (D.held (map_device self.now)).indexes index }
        requires range { index < 2 ^ 31 }
        ensures { let known = known_by D.held self.now 0 in
            got_of result ≡ Found (column_value known facts index column) }
    {
        match column {
            Column::IfIndex => found(Value::Integer(index as i32)),
            Column::IfDescr => Shown::Octets(self.device.text(index, IfText::Descr)),
            Column::IfType => found(Value::Integer(facts.kind)),
            Column::IfMtu => found(Value::Integer(facts.mtu)),
            Column::IfSpeed => found(Value::Gauge32(facts.speed.min(0xffff_ffff) as u32)),
            Column::IfPhysAddress => Shown::Octets(self.device.text(index, IfText::Phys)),
            Column::IfAdminStatus => found(Value::Integer(facts.admin.number())),
            Column::IfOperStatus => found(Value::Integer(facts.oper.number())),
            Column::IfLastChange => found(Value::TimeTicks(facts.last_change)),
            Column::IfInOctets => found(Value::Counter32(low(facts.in_octets))),
            Column::IfInUcastPkts => found(Value::Counter32(low(facts.in_packets))),
            Column::IfInDiscards => found(Value::Counter32(facts.in_discards)),
            Column::IfInErrors => found(Value::Counter32(facts.in_errors)),
            Column::IfInUnknownProtos => found(Value::Counter32(facts.in_unknown)),
            Column::IfOutOctets => found(Value::Counter32(low(facts.out_octets))),
            Column::IfOutUcastPkts => found(Value::Counter32(low(facts.out_packets))),
            Column::IfOutDiscards => found(Value::Counter32(facts.out_discards)),
            Column::IfOutErrors => found(Value::Counter32(facts.out_errors)),
            Column::IfName => Shown::Octets(self.device.text(index, IfText::ShortName)),
            Column::IfHcInOctets => found(Value::Counter64(facts.in_octets)),
            Column::IfHcInUcastPkts => found(Value::Counter64(facts.in_packets)),
            Column::IfHcOutOctets => found(Value::Counter64(facts.out_octets)),
            Column::IfHcOutUcastPkts => found(Value::Counter64(facts.out_packets)),
            Column::IfHighSpeed => found(Value::Gauge32(high_speed(facts.speed))),
            Column::IfAlias => Shown::Octets(self.device.text(index, IfText::Alias)),
            Column::IfCounterDiscontinuityTime => found(Value::TimeTicks(facts.discontinuity)),
        }
    }
}

/// A variable of this value.
#[inline(always)]
fn found<'a>(value: Value) -> Shown<'a>
    ensures { got_of result ≡ Found value }
{
    Shown::Other(Got::Found(value))
}

/// Returns the served object that a name is under, and what of the name follows the object's own.
pub(crate) fn find_object(name: &[u32]) -> Option<(Object, &[u32])>
    ensures some { IfSome result (λ found. Contains objects found.0
        × (name.now ≡ prefix_of found.0 ++ found.1.now)) }
    ensures none { IfNone result (¬ (IsServedName name.now)) }
{
    match object_at(guess_place(name), name) {
        Some(found) => Some(found),
        None => search_object(name),
    }
}

/// The object at a place, if the name is under it, and what of the name follows the object's own.
fn object_at(place: usize, name: &[u32]) -> Option<(Object, &[u32])>
    ensures { IfSome result (λ found. Contains objects found.0
        × (name.now ≡ prefix_of found.0 ++ found.1.now)) }
{
    let objects = all_objects();
    if place >= objects.len() {
        return None;
    }
    let object = objects[place];
    let Some(rest) = name.strip_prefix(object.prefix()) else {
        return None;
    };
    Some((object, rest))
}

/// What `find_object` returns, by a search among all objects.
fn search_object(name: &[u32]) -> Option<(Object, &[u32])>
    ensures some { IfSome result (λ found. Contains objects found.0
        × (name.now ≡ prefix_of found.0 ++ found.1.now)) }
    ensures none { IfNone result (¬ (IsServedName name.now)) }
{
    let object = all_objects()[candidate_place(name)];
    let Some(rest) = name.strip_prefix(object.prefix()) else {
        return None;
    };
    Some((object, rest))
}

/// The place of the one served object that a name can be under: all names under the objects before
/// it come before the name, and the objects after it come after the name.
pub(crate) fn candidate_place(name: &[u32]) -> usize
    ensures within { result < length objects }
    ensures earlier { AllWithin (λ o. (rest : List ℕ) → name_cmp (prefix_of o ++ rest) name.now
        ≡ Less) objects 0 result }
    ensures later { AllWithin (λ o. name_cmp name.now (prefix_of o) ≡ Less) objects (result + 1)
        (length objects) }
{
    let reached = all_objects().partition_point(|object| object.prefix().cmp(&name).is_le());
    reached.saturating_sub(1)
}

/// The place of the one served object that a name can be under, as of `candidate_place`. The object
/// at the guessed place is tried first.
pub(crate) fn find_place(name: &[u32]) -> usize
    ensures within { result < length objects }
    ensures earlier { AllWithin (λ o. (rest : List ℕ) → name_cmp (prefix_of o ++ rest) name.now
        ≡ Less) objects 0 result }
    ensures later { AllWithin (λ o. name_cmp name.now (prefix_of o) ≡ Less) objects (result + 1)
        (length objects) }
{
    let objects = all_objects();
    let guess = guess_place(name);
    if guess < objects.len() && is_under(objects[guess], name) {
        return guess;
    }
    candidate_place(name)
}

/// Returns `true` if a name begins with an object's own.
fn is_under(object: Object, name: &[u32]) -> bool
    ensures { IsTrue result → IsPrefix (prefix_of object) name.now }
{
    name.starts_with(object.prefix())
}

/// A count in 32 bits.
fn low(count: u64) -> u32
    ensures { result ≡ count % 2 ^ 32 }
{
    (count % (1 << 32)) as u32
}

/// Millions of bits a second, rounded, at most 4294967295.
fn high_speed(speed: u64) -> u32
    ensures { result ≡ min ((speed + 500000) / 1000000) 4294967295 }
{
    ((u128::from(speed) + 500_000) / 1_000_000).min(0xffff_ffff) as u32
}
