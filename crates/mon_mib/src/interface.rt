ghost use Rattle.std.specs.Prelude.{◌≡◌, Some};
ghost use Rattle.mon_mib.specs.Sim.{grown, interface_facts, text_of};

use crate::facts::{Facts, IfText};
use crate::moment::Moment;
use crate::status::Status;
use mon_ber::Octets;
use std::mem;

/// A count that grows by the same number each second, from 2^64 - 1 to 0 (Counter64, RFC 2578
/// section 7.1.10).
#[derive(Clone, Copy, Debug, PartialEq, Eq)]
pub struct Growth {
    /// The count at the agent's start.
    pub start: u64,
    /// What each whole second adds.
    pub rate: u64,
}

impl Growth {
    /// Returns the count at a time: `start + rate * seconds`, modulo 2^64.
    pub fn at(self, moment: Moment) -> u64
        ensures { result ≡ grown self moment }
    {
        let seconds = u64::from(moment.engine_time());
        self.start.wrapping_add(self.rate.wrapping_mul(seconds))
    }
}

/// An interface of the simulated device (RFC 2863 section 6).
#[derive(Debug)]
pub struct Interface {
    /// ifIndex, 1 to 2147483647.
    pub index: u32,
    /// ifDescr.
    pub descr: Octets,
    /// ifType, a number of IANAifType.
    pub kind: i32,
    /// ifMtu, in octets.
    pub mtu: i32,
    /// Bits a second.
    pub speed: u64,
    /// ifPhysAddress.
    pub phys: Octets,
    /// ifName.
    pub name: Octets,
    /// ifAlias.
    pub alias: Octets,
    /// ifAdminStatus and ifOperStatus, which are the same, and ifLastChange.
    pub status: Status,
    /// ifHCInOctets.
    pub in_octets: Growth,
    /// ifHCInUcastPkts.
    pub in_packets: Growth,
    /// ifHCOutOctets.
    pub out_octets: Growth,
    /// ifHCOutUcastPkts.
    pub out_packets: Growth,
}

// By hand: where one is let go, a proof has one call and not a drop of each field.
impl Drop for Interface {
    fn drop(self) {
        let Interface {
            index: _,
            descr: _,
            kind: _,
            mtu: _,
            speed: _,
            phys: _,
            name: _,
            alias: _,
            status: _,
            in_octets: _,
            in_packets: _,
            out_octets: _,
            out_packets: _,
        } = self;
    }
}

impl Interface {
    /// Returns its numbers at a time. It discards nothing.
    pub(crate) fn facts(&self, moment: Moment) -> Facts
        ensures { result ≡ interface_facts self.now moment }
    {
        Facts {
            kind: self.kind,
            mtu: self.mtu,
            speed: self.speed,
            admin: self.status.admin,
            oper: self.status.admin.oper(),
            last_change: self.status.since,
            in_octets: self.in_octets.at(moment),
            in_packets: self.in_packets.at(moment),
            in_discards: 0,
            in_errors: 0,
            in_unknown: 0,
            out_octets: self.out_octets.at(moment),
            out_packets: self.out_packets.at(moment),
            out_discards: 0,
            out_errors: 0,
            discontinuity: 0,
        }
    }

    /// One of its texts.
    pub(crate) fn text(&self, which: IfText) -> &[u8]
        ensures { result.now ≡ text_of (Some self.now) which }
    {
        match which {
            IfText::Descr => self.descr.as_slice(),
            IfText::Phys => self.phys.as_slice(),
            IfText::ShortName => self.name.as_slice(),
            IfText::Alias => self.alias.as_slice(),
        }
    }
    /// Gives it another status, and hands back the one that it had.
    pub(crate) fn replace_status(&mut self, status: Status) -> Status
        ensures was { result ≡ self.old.status }
        ensures is { self.new ≡ record self.old { status = status } }
    {
        let was = self.status;
        self.status = status;
        was
    }

    /// Gives it another alias, and hands back the one that it had.
    pub(crate) fn replace_alias(&mut self, alias: Octets) -> Octets
        ensures was { result ≡ self.old.alias }
        ensures is { self.new ≡ record self.old { alias = alias } }
    {
        mem::replace(&mut self.alias, alias)
    }
}
