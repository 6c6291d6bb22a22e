ghost use Rattle.std.specs.Prelude.{◌≡◌, ◌++◌, ◌∷◌, [], IfOk, IsOk};
ghost use Rattle.mon_mib.specs.Objects.{prefix_of, max_access_of, syntax_of, objects};
ghost use Rattle.mon_mib.specs.Tried.{writable_of};

use crate::column::Column;
use crate::facts::SysText;
use crate::max_access::MaxAccess;
use crate::row::Row;
use crate::scalar::Scalar;
use crate::writable::Writable;
use mon_ber::Tag;
use mon_oid::{Oid, laws};
use smallvec::SmallVec;
use std::alloc::{AllocError, Global};

/// A served object.
#[derive(Clone, Copy, PartialEq, Eq)]
pub enum Object {
    /// One with a single variable.
    Scalar(Scalar),
    /// One with a variable for each interface.
    Column(Column),
}

const OBJECTS: [Object; 43] = [
    Object::Scalar(Scalar::SysDescr),
    Object::Scalar(Scalar::SysObjectId),
    Object::Scalar(Scalar::SysUpTime),
    Object::Scalar(Scalar::SysContact),
    Object::Scalar(Scalar::SysName),
    Object::Scalar(Scalar::SysLocation),
    Object::Scalar(Scalar::SysServices),
    Object::Scalar(Scalar::IfNumber),
    Object::Column(Column::IfIndex),
    Object::Column(Column::IfDescr),
    Object::Column(Column::IfType),
    Object::Column(Column::IfMtu),
    Object::Column(Column::IfSpeed),
    Object::Column(Column::IfPhysAddress),
    Object::Column(Column::IfAdminStatus),
    Object::Column(Column::IfOperStatus),
    Object::Column(Column::IfLastChange),
    Object::Column(Column::IfInOctets),
    Object::Column(Column::IfInUcastPkts),
    Object::Column(Column::IfInDiscards),
    Object::Column(Column::IfInErrors),
    Object::Column(Column::IfInUnknownProtos),
    Object::Column(Column::IfOutOctets),
    Object::Column(Column::IfOutUcastPkts),
    Object::Column(Column::IfOutDiscards),
    Object::Column(Column::IfOutErrors),
    Object::Scalar(Scalar::SnmpInPkts),
    Object::Scalar(Scalar::SnmpInBadVersions),
    Object::Scalar(Scalar::SnmpInBadCommunityNames),
    Object::Scalar(Scalar::SnmpInAsnParseErrs),
    Object::Scalar(Scalar::SnmpSilentDrops),
    Object::Column(Column::IfName),
    Object::Column(Column::IfHcInOctets),
    Object::Column(Column::IfHcInUcastPkts),
    Object::Column(Column::IfHcOutOctets),
    Object::Column(Column::IfHcOutUcastPkts),
    Object::Column(Column::IfHighSpeed),
    Object::Column(Column::IfAlias),
    Object::Column(Column::IfCounterDiscontinuityTime),
    Object::Scalar(Scalar::SnmpEngineId),
    Object::Scalar(Scalar::SnmpEngineBoots),
    Object::Scalar(Scalar::SnmpEngineTime),
    Object::Scalar(Scalar::SnmpEngineMaxMessageSize),
];

/// The served objects in the order of their names.
#[tactic(auto, unfolding(crate::specs::Objects::objects))]
pub fn all_objects() -> &'static [Object]
    ensures { result.now ≡ objects }
{
    &OBJECTS
}

impl Object {
    /// What the standards give of it.
    #[tactic(auto, unfolding(crate::specs::Objects::prefix_of))]
    fn row(self) -> Row
        ensures prefix { result.prefix.now ≡ prefix_of self }
        ensures syntax { result.syntax ≡ syntax_of self }
        ensures access { result.access ≡ max_access_of self }
    {
        match self {
            Object::Scalar(scalar) => scalar.row(),
            Object::Column(column) => column.row(),
        }
    }

    /// The object's own name, with which the names of its variables begin.
    pub fn prefix(self) -> &'static [u32]
        ensures { result.now ≡ prefix_of self }
    {
        self.row().prefix
    }

    /// Returns `true` if a Set may change its variables (MAX-ACCESS, RFC 2578 section 7.3).
    pub fn access(self) -> MaxAccess
        ensures { result ≡ max_access_of self }
    {
        self.row().access
    }

    /// The tag of its values (SYNTAX, RFC 2578 section 7.1).
    pub fn syntax(self) -> Tag
        ensures { result ≡ syntax_of self }
    {
        self.row().syntax
    }

    /// Which of the objects that a Set may change it is, if it is one.
    pub(crate) fn writable(self) -> Option<Writable>
        ensures { result ≡ writable_of self }
    {
        match self {
            Object::Scalar(Scalar::SysContact) => Some(Writable::SysText(SysText::Contact)),
            Object::Scalar(Scalar::SysName) => Some(Writable::SysText(SysText::SystemName)),
            Object::Scalar(Scalar::SysLocation) => Some(Writable::SysText(SysText::Location)),
            Object::Column(Column::IfAdminStatus) => Some(Writable::AdminStatus),
            Object::Column(Column::IfAlias) => Some(Writable::Alias),
            _ => None,
        }
    }

    /// The name of the object's variable of an instance. It is always given, since it takes no heap
    /// memory.
    pub fn name(self, alloc: Global, instance: u32) -> Result<Oid, AllocError>
        ensures gives { IfOk result (λ name. name ≡ prefix_of self ++ instance ∷ []) }
        ensures always { IsOk result }
    {
        laws::pushed();
        let mut parts = SmallVec::from_slice(alloc, self.prefix())?;
        parts.push(instance)?;
        Ok(Oid::from_valid(parts))
    }
}
