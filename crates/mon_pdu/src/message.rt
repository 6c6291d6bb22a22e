//! Messages and their parts (RFC 1901 section 3, RFC 3416 section 3).

ghost use Rattle.std.specs.Prelude.{◌≡◌};
ghost use Rattle.mon_pdu.specs.Grammar.{tag_of, bindings_of};
ghost use Rattle.mon_pdu.specs.Kinds.{octet_of, kind_of};

use mon_ber::{Octets, Value};
use mon_oid::Oid;
use std::marker::Model;

/// The tag of a GetBulkRequest-PDU (RFC 3416 section 3, `PDUs`).
pub(crate) const GET_BULK: u8 = 0xa5;

/// A variable binding, or varbind: the name of a variable with a value (RFC 3416 section 3,
/// `VarBind`).
#[derive(Debug)]
pub struct Binding {
    /// The variable's name.
    pub name: Oid,
    /// Its value, Null in a request that asks for it, or why there is none.
    pub value: Value,
}

// By hand: where one is let go, a proof has one call and not a drop of each field.
impl Drop for Binding {
    #[inline(always)]
    fn drop(self) {
        let Binding { name: _, value: _ } = self;
    }
}

/// The variable bindings of a PDU, in their order (RFC 3416 section 3, `VarBindList`). Contracts
/// see them as their list.
#[derive(Debug, Drop)]
pub struct Bindings {
    items: Vec<Binding>,
}

impl Model for Bindings {
    ghost use Rattle.std.specs.Prelude.{List};
    ghost use Rattle.mon_pdu.specs.declared.message.Binding.{Binding};

    ghost Value = { List Binding };

    ghost view = { λ b. b.items.items };
}

impl Bindings {
    /// These bindings, in this order.
    pub fn new(items: Vec<Binding>) -> Self
        ensures { result ≡ items.items }
    {
        Bindings { items }
    }

    /// The bindings, in their order.
    pub fn as_slice(&self) -> &[Binding]
        ensures { result.now ≡ self.now }
    {
        &self.items
    }

    /// The bindings, in their order, to be changed or kept.
    pub fn into_vec(self) -> Vec<Binding>
        ensures { result.items ≡ self }
    {
        self.items
    }
}

/// The kinds of PDU with an error status and an error index: all but GetBulk (RFC 3416 section 3,
/// `PDUs`).
#[derive(Clone, Copy, Debug, PartialEq, Eq)]
pub enum PduKind {
    /// GetRequest-PDU, tag A0.
    Get,
    /// GetNextRequest-PDU, tag A1.
    GetNext,
    /// Response-PDU, tag A2.
    Response,
    /// SetRequest-PDU, tag A3.
    Set,
    /// InformRequest-PDU, tag A6.
    Inform,
    /// SNMPv2-Trap-PDU, tag A7.
    Trap,
    /// Report-PDU, tag A8.
    Report,
}

impl PduKind {
    /// The tag that means the kind.
    pub fn octet(self) -> u8
        ensures { result ≡ octet_of self }
    {
        match self {
            PduKind::Get => 0xa0,
            PduKind::GetNext => 0xa1,
            PduKind::Response => 0xa2,
            PduKind::Set => 0xa3,
            PduKind::Inform => 0xa6,
            PduKind::Trap => 0xa7,
            PduKind::Report => 0xa8,
        }
    }

    /// Returns the kind that the tag means, if it is the tag of one of these.
    pub fn from_octet(octet: u8) -> Option<PduKind>
        ensures { result ≡ kind_of octet }
    {
        match octet {
            0xa0 => Some(PduKind::Get),
            0xa1 => Some(PduKind::GetNext),
            0xa2 => Some(PduKind::Response),
            0xa3 => Some(PduKind::Set),
            0xa6 => Some(PduKind::Inform),
            0xa7 => Some(PduKind::Trap),
            0xa8 => Some(PduKind::Report),
            _ => None,
        }
    }
}

/// A request, a response or a notification (RFC 3416 section 3, `PDU`).
#[derive(Debug, Drop)]
pub struct Pdu {
    /// Which PDU it is.
    pub kind: PduKind,
    /// The number by which a response is matched with its request.
    pub request_id: i32,
    /// 0 for noError, 1 to 18 for an error; any number is read.
    pub error_status: i32,
    /// The place of the binding with the error, from 1 on, or 0; any number is read.
    pub error_index: i32,
    /// The variable bindings.
    pub bindings: Bindings,
}

/// A GetBulkRequest-PDU, tag A5 (RFC 3416 section 3, `BulkPDU`).
#[derive(Debug, Drop)]
pub struct Bulk {
    /// The number by which a response is matched with its request.
    pub request_id: i32,
    /// How many of the bindings are asked for once; any number is read.
    pub non_repeaters: i32,
    /// How often each of the others is asked for; any number is read.
    pub max_repetitions: i32,
    /// The variable bindings.
    pub bindings: Bindings,
}

/// What a message carries: one of the eight PDUs (RFC 3416 section 3, `PDUs`).
#[derive(Debug, Drop)]
pub enum Body {
    /// Any PDU but GetBulk.
    Pdu(Pdu),
    /// GetBulk.
    Bulk(Bulk),
}

impl Body {
    /// The tag of the PDU.
    pub fn octet(&self) -> u8
        ensures { result ≡ tag_of self.now }
    {
        match self {
            Body::Pdu(pdu) => pdu.kind.octet(),
            Body::Bulk(_) => GET_BULK,
        }
    }

    /// The variable bindings of the PDU.
    pub fn bindings(&self) -> &[Binding]
        ensures { result.now ≡ bindings_of self.now }
    {
        match self {
            Body::Pdu(pdu) => pdu.bindings.as_slice(),
            Body::Bulk(bulk) => bulk.bindings.as_slice(),
        }
    }
}

/// An SNMPv2c message, whose version is 1 (RFC 1901 section 3).
#[derive(Debug, Drop)]
pub struct Message {
    /// The community string, any octets.
    pub community: Octets,
    /// The PDU.
    pub body: Body,
}
