//! The tables of a station's settings: whom it polls for what, its peers, and its alarms.

ghost use Rattle.std.specs.Prelude.{◌≡◌};

use crate::fault::{Read, given};
use crate::grammar::table_keys;
use crate::key::Key;
use crate::label::Label;
use crate::leaf::Reader;
use crate::list::Row;
use crate::sizes::Sizes;
use mon_ber::Octets;
use mon_oid::Oid;
use mon_smi::Names;
use mon_udp::Addr;
use std::marker::Model;

/// What is around the lists of a station: the names of objects, and the sizes of windows.
#[derive(Clone, Copy)]
pub(crate) struct Around<'n> {
    pub(crate) names: &'n Names,
    pub(crate) sizes: Sizes,
}

/// An object that is polled, with the sizes of its window.
pub(crate) struct ObjectRow {
    pub(crate) name: Oid,
    pub(crate) discontinuity: Option<Oid>,
    pub(crate) window: usize,
    pub(crate) epoch: usize,
}

// By hand: where one is let go, a proof has one call and not a drop of each field.
impl Drop for ObjectRow {
    fn drop(self) {
        let ObjectRow {
            name: _,
            discontinuity: _,
            window: _,
            epoch: _,
        } = self;
    }
}

/// Objects in the order of their list, which contracts see as the list.
#[derive(Drop)]
pub(crate) struct ObjectRows {
    items: Vec<ObjectRow>,
}

impl Model for ObjectRows {
    ghost use Rattle.std.specs.Prelude.{List};
    ghost use Rattle.mon_settings.specs.declared.station_tables.ObjectRow.{ObjectRow};

    ghost Value = { List ObjectRow };

    ghost view = { λ o. o.items.items };
}

impl ObjectRows {
    /// The objects, in their order.
    pub(crate) fn as_slice(&self) -> &[ObjectRow]
        ensures { result.now ≡ self.now }
    {
        self.items.as_slice()
    }
}

/// An agent that is polled.
pub(crate) struct TargetRow {
    pub(crate) address: Addr,
    pub(crate) community: Octets,
    pub(crate) engine: Octets,
    pub(crate) tries: u8,
    pub(crate) label: Option<Label>,
    pub(crate) objects: ObjectRows,
}

// By hand: where one is let go, a proof has one call and not a drop of each field.
impl Drop for TargetRow {
    fn drop(self) {
        let TargetRow {
            address: _,
            community: _,
            engine: _,
            tries: _,
            label: _,
            objects: _,
        } = self;
    }
}

/// A peer, and where it is reached.
#[derive(Clone, Copy, Drop)]
pub(crate) struct PeerRow {
    pub(crate) station: u32,
    pub(crate) address: Addr,
}

/// An alarm on an object at an engine, with its thresholds in thousandths.
pub(crate) struct AlarmRow {
    pub(crate) engine: Octets,
    pub(crate) name: Oid,
    pub(crate) rising: i64,
    pub(crate) falling: i64,
}

// By hand: where one is let go, a proof has one call and not a drop of each field.
impl Drop for AlarmRow {
    fn drop(self) {
        let AlarmRow {
            engine: _,
            name: _,
            rising: _,
            falling: _,
        } = self;
    }
}

impl Row<Around<'_>> for ObjectRow {
    ghost use Rattle.mon_settings.specs.Resolving.{resolution};
    ghost use Rattle.mon_settings.specs.StationTables.{object_of};

    ghost row_of = { λ a. object_of (resolution a.names.now) a.sizes };

    #[tactic(auto, unfolding(crate::specs::StationTables::object_of))]
    fn read(around: &Around<'_>, reader: &Reader<'_>) -> Read<Self> {
        given!(reader.only(table_keys(Key::Objects)));
        let name = given!(reader.object(around.names, Key::Name));
        let discontinuity = given!(reader.object_or_none(around.names, Key::Mark));
        let window = given!(reader.size_or(Key::Window, around.sizes.window, 64));
        let epoch = given!(reader.size_or(Key::Epoch, around.sizes.epoch.min(window), window));
        Ok(ObjectRow {
            name,
            discontinuity,
            window,
            epoch,
        })
    }
}

impl Row<Around<'_>> for TargetRow {
    ghost use Rattle.mon_settings.specs.Resolving.{resolution};
    ghost use Rattle.mon_settings.specs.StationTables.{target_of};

    ghost row_of = { λ a. target_of (resolution a.names.now) a.sizes };

    #[tactic(auto, unfolding(crate::specs::StationTables::target_of))]
    fn read(around: &Around<'_>, reader: &Reader<'_>) -> Read<Self> {
        given!(reader.only(table_keys(Key::Target)));
        let address = given!(reader.addr(Key::Address));
        let community = given!(reader.octets(Key::Community, 1, 512));
        let engine = given!(reader.hex(Key::Engine, 5, 32));
        let tries = given!(reader.number(Key::Tries, 1, 8)) as u8;
        let label = given!(reader.label());
        let items = given!(reader.rows(around, Key::Objects, 1, 16));
        Ok(TargetRow {
            address,
            community,
            engine,
            tries,
            label,
            objects: ObjectRows { items },
        })
    }
}

impl Row<()> for PeerRow {
    ghost use Rattle.mon_settings.specs.StationTables.{peer_of};

    ghost row_of = { λ _. peer_of };

    #[tactic(auto, unfolding(crate::specs::StationTables::peer_of))]
    fn read(_around: &(), reader: &Reader<'_>) -> Read<Self> {
        given!(reader.only(table_keys(Key::Peer)));
        let station = given!(reader.number(Key::Station, 1, 4294967295)) as u32;
        let address = given!(reader.addr(Key::Address));
        Ok(PeerRow { station, address })
    }
}

impl Row<Around<'_>> for AlarmRow {
    ghost use Rattle.mon_settings.specs.Resolving.{resolution};
    ghost use Rattle.mon_settings.specs.StationTables.{alarm_of};

    ghost row_of = { λ a. alarm_of (resolution a.names.now) a.sizes };

    #[tactic(auto, unfolding(crate::specs::StationTables::alarm_of))]
    fn read(around: &Around<'_>, reader: &Reader<'_>) -> Read<Self> {
        given!(reader.only(table_keys(Key::Alarm)));
        let engine = given!(reader.hex(Key::Engine, 5, 32));
        let name = given!(reader.object(around.names, Key::Name));
        let rising = given!(reader.long(Key::Rising));
        let falling = given!(reader.long(Key::Falling));
        Ok(AlarmRow {
            engine,
            name,
            rising,
            falling,
        })
    }
}
