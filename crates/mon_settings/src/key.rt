ghost use Rattle.std.specs.Prelude.{◌≡◌};
ghost use Rattle.mon_settings.specs.Key.{inner_key_name, key_name};

use std::fmt;

/// A key of the settings.
#[derive(Clone, Copy, PartialEq, Eq)]
pub enum Key {
    Listen,
    Limit,
    Engine,
    Boots,
    Descr,
    ObjectId,
    Contact,
    Name,
    Location,
    Services,
    Community,
    Group,
    Access,
    View,
    Interface,
    Security,
    Model,
    Read,
    Write,
    Subtree,
    Mask,
    Included,
    Index,
    Type,
    Mtu,
    Speed,
    Phys,
    Alias,
    InOctets,
    InPackets,
    OutOctets,
    OutPackets,
    Start,
    Rate,
    Station,
    File,
    Window,
    Epoch,
    WaitMs,
    Label,
    Modules,
    Target,
    Peer,
    Alarm,
    Address,
    Tries,
    Objects,
    Mark,
    Rising,
    Falling,
}

impl Key {
    /// How the key is written.
    pub fn name(self) -> &'static str
        ensures { result.now ≡ key_name self }
    {
        match self {
            Key::Listen => "listen",
            Key::Limit => "limit",
            Key::Engine => "engine",
            Key::Boots => "boots",
            Key::Descr => "descr",
            Key::ObjectId => "object_id",
            Key::Contact => "contact",
            Key::Name => "name",
            Key::Location => "location",
            Key::Services => "services",
            Key::Community => "community",
            Key::Group => "group",
            Key::Access => "access",
            Key::View => "view",
            Key::Interface => "interface",
            Key::Station => "station",
            Key::File => "file",
            Key::Window => "window",
            Key::Epoch => "epoch",
            Key::WaitMs => "wait_ms",
            Key::Label => "label",
            Key::Modules => "modules",
            Key::Target => "target",
            Key::Peer => "peer",
            Key::Alarm => "alarm",
            _ => self.inner_name(),
        }
    }

    /// Returns how a key is written that is in no top table.
    fn inner_name(self) -> &'static str
        ensures { result.now ≡ inner_key_name self }
    {
        match self {
            Key::Security => "security",
            Key::Model => "model",
            Key::Read => "read",
            Key::Write => "write",
            Key::Subtree => "subtree",
            Key::Mask => "mask",
            Key::Included => "included",
            Key::Index => "index",
            Key::Type => "type",
            Key::Mtu => "mtu",
            Key::Speed => "speed",
            Key::Phys => "phys",
            Key::Alias => "alias",
            Key::InOctets => "in_octets",
            Key::InPackets => "in_packets",
            Key::OutOctets => "out_octets",
            Key::OutPackets => "out_packets",
            Key::Start => "start",
            Key::Rate => "rate",
            Key::Address => "address",
            Key::Tries => "tries",
            Key::Objects => "objects",
            Key::Mark => "mark",
            Key::Rising => "rising",
            Key::Falling => "falling",
            _ => "",
        }
    }
}

/// As it is written.
impl fmt::Display for Key {
    ghost use Rattle.std.specs.Prelude.{Some};
    ghost use Rattle.mon_settings.specs.Key.{key_name};

    ghost output = { λ k. Some (key_name k) };

    fn fmt<W: fmt::Write>(&self, f: &mut fmt::Formatter<W>) -> fmt::Result {
        f.write_str(self.name())
    }
}
