//! The grammar of the settings: which keys each table may have.

ghost use Rattle.std.specs.Prelude.{◌≡◌};
ghost use Rattle.mon_settings.specs.Grammar.{table_keys, top_keys};

use crate::key::Key;
use crate::key::Key::*;

/// Whose settings a text holds.
#[derive(Clone, Copy, Debug, PartialEq, Eq)]
pub enum SettingsKind {
    /// An agent's, as `read_agent` reads them.
    Agent,
    /// A station's, as `read_station` reads them.
    Station,
}

const AGENT: [Key; 15] = [
    Listen, Limit, Engine, Boots, Descr, ObjectId, Contact, Name, Location, Services, Community,
    Group, Access, View, Interface,
];

const INTERFACE: [Key; 12] = [
    Index, Descr, Type, Mtu, Speed, Phys, Name, Alias, InOctets, InPackets, OutOctets, OutPackets,
];

const STATION: [Key; 11] = [
    Station, Listen, File, Window, Epoch, WaitMs, Label, Modules, Target, Peer, Alarm,
];

/// Returns the keys of the tables at a key, and none for a key that has no table.
pub fn table_keys(key: Key) -> &'static [Key]
    ensures { result.now ≡ table_keys key }
{
    match key {
        Community => &[Community, Security],
        Group => &[Security, Group],
        Access => &[Group, Model, Read, Write],
        View => &[View, Subtree, Mask, Included],
        Interface => &INTERFACE,
        InOctets | InPackets | OutOctets | OutPackets => &[Start, Rate],
        Target => &[Address, Community, Engine, Tries, Label, Objects],
        Objects => &[Name, Mark, Window, Epoch],
        Peer => &[Station, Address],
        Alarm => &[Engine, Name, Rising, Falling],
        _ => &[],
    }
}

/// Returns the keys of a text's top table.
pub fn top_keys(kind: SettingsKind) -> &'static [Key]
    ensures { result.now ≡ top_keys kind }
{
    match kind {
        SettingsKind::Agent => &AGENT,
        SettingsKind::Station => &STATION,
    }
}
