//! The counters of an interface.

ghost use Rattle.std.specs.Prelude.{◌≡◌, if◌then◌else◌};
ghost use Rattle.mon_survey.specs.Counter.{column_of, every, kind_of, label_of};

use crate::column::Column;

/// What a counter counts.
#[derive(Clone, Copy, Debug, PartialEq, Eq)]
pub enum Kind {
    /// Octets.
    Octets,
    /// Packets: unicast, and multicast and broadcast where ifXTable counts them.
    Packets,
    /// Packets with errors.
    Errors,
    /// Packets that were discarded without error.
    Discards,
}

/// A counter of an interface (RFC 2863 section 6).
#[derive(Clone, Copy, PartialEq, Eq)]
pub enum Counter {
    /// ifHCInOctets or ifInOctets.
    InOctets,
    /// ifHCOutOctets or ifOutOctets.
    OutOctets,
    /// ifHCInUcastPkts or ifInUcastPkts.
    InPackets,
    /// ifHCOutUcastPkts or ifOutUcastPkts.
    OutPackets,
    /// ifHCInMulticastPkts or ifInMulticastPkts.
    InMulticasts,
    /// ifHCOutMulticastPkts or ifOutMulticastPkts.
    OutMulticasts,
    /// ifHCInBroadcastPkts or ifInBroadcastPkts.
    InBroadcasts,
    /// ifHCOutBroadcastPkts or ifOutBroadcastPkts.
    OutBroadcasts,
    /// ifInErrors.
    InErrors,
    /// ifOutErrors.
    OutErrors,
    /// ifInDiscards.
    InDiscards,
    /// ifOutDiscards.
    OutDiscards,
}

impl Counter {
    /// Returns all counters, in the order in which they are polled.
    pub(crate) fn every() -> [Counter; 12]
        ensures { result ≡ every }
    {
        [
            Counter::InOctets,
            Counter::OutOctets,
            Counter::InPackets,
            Counter::OutPackets,
            Counter::InMulticasts,
            Counter::OutMulticasts,
            Counter::InBroadcasts,
            Counter::OutBroadcasts,
            Counter::InErrors,
            Counter::OutErrors,
            Counter::InDiscards,
            Counter::OutDiscards,
        ]
    }

    /// Returns what it counts.
    pub(crate) fn kind(self) -> Kind
        ensures { result ≡ kind_of self }
    {
        match self {
            Counter::InOctets | Counter::OutOctets => Kind::Octets,
            Counter::InPackets | Counter::OutPackets => Kind::Packets,
            Counter::InMulticasts | Counter::OutMulticasts => Kind::Packets,
            Counter::InBroadcasts | Counter::OutBroadcasts => Kind::Packets,
            Counter::InErrors | Counter::OutErrors => Kind::Errors,
            Counter::InDiscards | Counter::OutDiscards => Kind::Discards,
        }
    }
}

/// A counter of an interface that is polled.
#[derive(Clone, Copy, PartialEq, Eq)]
pub struct Planned {
    /// Which counter.
    pub counter: Counter,
    /// `true` if it is the one of 64 bits.
    pub wide: bool,
    /// The interface's index.
    pub index: u32,
}

/// The column of a counter, of 64 bits or of 32. Errors and discards only have one of 32 bits.
pub(crate) fn column_of(counter: Counter, wide: bool) -> Column
    ensures { result ≡ column_of counter wide }
{
    match counter {
        Counter::InOctets => either(wide, 6, 10),
        Counter::OutOctets => either(wide, 10, 16),
        Counter::InPackets => either(wide, 7, 11),
        Counter::OutPackets => either(wide, 11, 17),
        Counter::InMulticasts => one_of(wide, 8, 2),
        Counter::OutMulticasts => one_of(wide, 12, 4),
        Counter::InBroadcasts => one_of(wide, 9, 3),
        Counter::OutBroadcasts => one_of(wide, 13, 5),
        Counter::InErrors => Column::If(14),
        Counter::OutErrors => Column::If(20),
        Counter::InDiscards => Column::If(13),
        Counter::OutDiscards => Column::If(19),
    }
}

/// A column of ifXTable, or one of ifTable.
fn either(wide: bool, extended: u32, plain: u32) -> Column
    ensures { result ≡ (if wide then Column.IfX extended else Column.If plain) }
{
    if wide {
        Column::IfX(extended)
    } else {
        Column::If(plain)
    }
}

/// One of two columns of ifXTable.
fn one_of(wide: bool, long: u32, short: u32) -> Column
    ensures { result ≡ (if wide then Column.IfX long else Column.IfX short) }
{
    if wide {
        Column::IfX(long)
    } else {
        Column::IfX(short)
    }
}

impl Planned {
    /// The column that is polled.
    pub fn column(self) -> Column
        ensures { result ≡ column_of self.counter self.wide }
    {
        column_of(self.counter, self.wide)
    }

    /// The descriptor of the column that is polled.
    pub fn label(self) -> &'static str
        ensures { result.now ≡ label_of self.counter self.wide }
    {
        match self.counter {
            Counter::InOctets => word(self.wide, "ifHCInOctets", "ifInOctets"),
            Counter::OutOctets => word(self.wide, "ifHCOutOctets", "ifOutOctets"),
            Counter::InPackets => word(self.wide, "ifHCInUcastPkts", "ifInUcastPkts"),
            Counter::OutPackets => word(self.wide, "ifHCOutUcastPkts", "ifOutUcastPkts"),
            Counter::InMulticasts => word(self.wide, "ifHCInMulticastPkts", "ifInMulticastPkts"),
            Counter::OutMulticasts => word(self.wide, "ifHCOutMulticastPkts", "ifOutMulticastPkts"),
            Counter::InBroadcasts => word(self.wide, "ifHCInBroadcastPkts", "ifInBroadcastPkts"),
            Counter::OutBroadcasts => word(self.wide, "ifHCOutBroadcastPkts", "ifOutBroadcastPkts"),
            Counter::InErrors => "ifInErrors",
            Counter::OutErrors => "ifOutErrors",
            Counter::InDiscards => "ifInDiscards",
            Counter::OutDiscards => "ifOutDiscards",
        }
    }
}

/// One of two words.
fn word(wide: bool, extended: &'static str, plain: &'static str) -> &'static str
    ensures { result.now ≡ (if wide then extended.now else plain.now) }
{
    if wide { extended } else { plain }
}
