//! The tables of an agent: of its policy, and of its interfaces.

ghost use Rattle.std.specs.Prelude.{◌≡◌, IfOk};
ghost use Rattle.mon_mib.specs.Held.{AreIndexes};
ghost use Rattle.mon_mib.specs.Sim.{indexes_of};
ghost use Rattle.mon_vacm.specs.Tables.{lists_of};
ghost use Rattle.mon_settings.specs.Interfaces.{counts_of, growth_of, growth_at, interface_of, rise_from, interfaces_in};
ghost use Rattle.mon_settings.specs.Keys.{Reads};
ghost use Rattle.mon_settings.specs.Tables.{access_entry_of, community_of, family_of, group_of, list_of, policy_of, policy_in};
ghost use Rattle.toml.specs.View.{table_view};

use crate::fault::{Read, SettingsFault, given};
use crate::grammar::table_keys;
use crate::key::Key;
use crate::keys::find;
use crate::leaf::Reader;
use crate::list::Row;
use crate::place::PathPart;
use mon_mib::{Growth, Interface, Status};
use mon_vacm::{AccessEntry, Community, Group, Policy, PolicyFault, Tables, ViewTreeFamily};

/// The greatest number of 31 bits.
const INT: u64 = 2147483647;

/// The greatest integer of a TOML text.
const LONG: u64 = 9223372036854775807;

impl Row<()> for Community {
    ghost row_of = { λ _. community_of };

    #[tactic(auto, unfolding(crate::specs::Tables::community_of))]
    fn read(_around: &(), reader: &Reader<'_>) -> Read<Self> {
        given!(reader.only(table_keys(Key::Community)));
        let name = given!(reader.octets(Key::Community, 1, 512));
        let security_name = given!(reader.octets(Key::Security, 1, 32));
        Ok(Community {
            name,
            security_name,
        })
    }
}

impl Row<()> for Group {
    ghost row_of = { λ _. group_of };

    #[tactic(auto, unfolding(crate::specs::Tables::group_of))]
    fn read(_around: &(), reader: &Reader<'_>) -> Read<Self> {
        given!(reader.only(table_keys(Key::Group)));
        let security_name = given!(reader.octets(Key::Security, 1, 32));
        let group_name = given!(reader.octets(Key::Group, 1, 32));
        Ok(Group {
            security_name,
            group_name,
        })
    }
}

impl Row<()> for AccessEntry {
    ghost row_of = { λ _. access_entry_of };

    #[tactic(auto, unfolding(crate::specs::Tables::access_entry_of))]
    fn read(_around: &(), reader: &Reader<'_>) -> Read<Self> {
        given!(reader.only(table_keys(Key::Access)));
        let group_name = given!(reader.octets(Key::Group, 1, 32));
        let security_model = given!(reader.model(Key::Model));
        let read_view = given!(reader.name_or_none(Key::Read, 32));
        let write_view = given!(reader.name_or_none(Key::Write, 32));
        Ok(AccessEntry {
            group_name,
            security_model,
            read_view,
            write_view,
        })
    }
}

impl Row<()> for ViewTreeFamily {
    ghost row_of = { λ _. family_of };

    #[tactic(auto, unfolding(crate::specs::Tables::family_of))]
    fn read(_around: &(), reader: &Reader<'_>) -> Read<Self> {
        given!(reader.only(table_keys(Key::View)));
        let view_name = given!(reader.octets(Key::View, 1, 32));
        let subtree = given!(reader.oid(Key::Subtree));
        let mask = given!(reader.hex_or_none(Key::Mask, 16));
        let included = given!(reader.truth(Key::Included));
        Ok(ViewTreeFamily {
            view_name,
            subtree,
            mask,
            included,
        })
    }
}

/// The list that a fault of a policy is a bad value of.
fn list_of(fault: PolicyFault) -> Key
    ensures { result ≡ list_of fault }
{
    match fault {
        PolicyFault::DuplicateCommunity => Key::Community,
        PolicyFault::UnknownView => Key::Access,
        PolicyFault::DuplicateFamily => Key::View,
    }
}

fn policy_of(tables: Tables) -> Read<Policy>
    ensures { result ≡ policy_of (lists_of tables) }
{
    match Policy::new(tables) {
        Ok(policy) => Ok(policy),
        Err(fault) => Err(SettingsFault::bad(list_of(fault))),
    }
}

/// The policy of the four lists, each of at most 256 tables.
#[tactic(auto, unfolding(crate::specs::Tables::policy_in))]
pub(crate) fn read_policy(reader: &Reader<'_>) -> Read<Policy>
    ensures { Reads (λ p. p) (policy_in (table_view reader.now.table.now)) result }
{
    let communities = given!(reader.list(Key::Community));
    let groups = given!(reader.list(Key::Group));
    let accesses = given!(reader.list(Key::Access));
    let families = given!(reader.list(Key::View));
    policy_of(Tables {
        communities,
        groups,
        accesses,
        families,
    })
}

#[tactic(auto, unfolding(crate::specs::Interfaces::growth_of))]
fn growth_of(reader: &Reader<'_>) -> Read<Growth>
    ensures { result ≡ growth_of (table_view reader.now.table.now) }
{
    given!(reader.only(table_keys(Key::InOctets)));
    let start = given!(reader.number(Key::Start, 0, LONG));
    let rate = given!(reader.number(Key::Rate, 0, LONG));
    Ok(Growth { start, rate })
}

#[tactic(auto, unfolding(crate::specs::Interfaces::growth_at))]
fn growth_at(reader: &Reader<'_>, key: Key) -> Read<Growth>
    ensures { result ≡ growth_at key (table_view reader.now.table.now) }
{
    let Some(value) = find(reader.table, key) else {
        return Err(SettingsFault::missing(key));
    };
    let Some(table) = value.as_table() else {
        return Err(SettingsFault::bad(key));
    };
    let alloc = reader.alloc;
    match growth_of(&Reader { alloc, table }) {
        Ok(growth) => Ok(growth),
        Err(fault) => Err(fault.within(PathPart::Value(key))),
    }
}

/// The four counts of an interface.
#[derive(Clone, Copy)]
pub(crate) struct Counts {
    in_octets: Growth,
    in_packets: Growth,
    out_octets: Growth,
    out_packets: Growth,
}

#[tactic(auto, unfolding(crate::specs::Interfaces::counts_of))]
fn counts_of(reader: &Reader<'_>) -> Read<Counts>
    ensures { result ≡ counts_of (table_view reader.now.table.now) }
{
    let in_octets = given!(growth_at(reader, Key::InOctets));
    let in_packets = given!(growth_at(reader, Key::InPackets));
    let out_octets = given!(growth_at(reader, Key::OutOctets));
    let out_packets = given!(growth_at(reader, Key::OutPackets));
    Ok(Counts {
        in_octets,
        in_packets,
        out_octets,
        out_packets,
    })
}

impl Row<()> for Interface {
    ghost row_of = { λ _. interface_of };

    #[tactic(auto, unfolding(crate::specs::Interfaces::interface_of))]
    fn read(_around: &(), reader: &Reader<'_>) -> Read<Self> {
        given!(reader.only(table_keys(Key::Interface)));
        let index = given!(reader.number(Key::Index, 1, INT)) as u32;
        let descr = given!(reader.octets(Key::Descr, 0, 255));
        let kind = given!(reader.int(Key::Type, 0, INT));
        let mtu = given!(reader.int(Key::Mtu, 0, INT));
        let speed = given!(reader.number(Key::Speed, 0, LONG));
        let phys = given!(reader.hex(Key::Phys, 0, 255));
        let name = given!(reader.octets(Key::Name, 0, 255));
        let alias = given!(reader.octets(Key::Alias, 0, 64));
        let counts = given!(counts_of(reader));
        Ok(Interface {
            index,
            descr,
            kind,
            mtu,
            speed,
            phys,
            name,
            alias,
            status: Status::new(),
            in_octets: counts.in_octets,
            in_packets: counts.in_packets,
            out_octets: counts.out_octets,
            out_packets: counts.out_packets,
        })
    }
}

/// Returns `true` if the indexes rise strictly from 1.
fn rise(interfaces: &[Interface]) -> bool
    ensures { result ≡ rise_from 0 interfaces.now }
{
    let mut last = 0;
    for interface in interfaces {
        if interface.index <= last {
            return false;
        }
        last = interface.index;
    }
    true
}

/// The list of the interfaces, whose indexes rise.
#[tactic(auto, unfolding(crate::specs::Interfaces::interfaces_in, crate::specs::Interfaces::rising))]
pub(crate) fn read_interfaces(reader: &Reader<'_>) -> Read<Vec<Interface>>
    ensures gives { Reads (λ ps. ps.items) (interfaces_in (table_view reader.now.table.now))
        result }
    ensures indexes { IfOk result (λ ps. AreIndexes (indexes_of ps.items)) }
{
    let interfaces: Vec<Interface> = given!(reader.list(Key::Interface));
    if rise(&interfaces) {
        Ok(interfaces)
    } else {
        Err(SettingsFault::bad(Key::Interface))
    }
}
