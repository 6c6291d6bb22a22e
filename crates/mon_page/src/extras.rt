//! What a report has besides the windows of its instances.

use crate::figures::Figures;

/// What is known besides the windows of a report's instances.
#[derive(Clone, Copy, Debug)]
pub struct Extras<'a> {
    /// What the station says of itself, if there is one.
    pub station: Option<&'a Figures>,
    /// The labels of each instance, in their order. An instance beyond the last of them has none.
    pub labels: &'a [InstanceLabels],
    /// What a page and a table have above and in which order.
    pub presentation: &'a Presentation,
}

/// How a report presents what it shows. Of the formats for machines only Prometheus' text depends
/// on it, by `station`.
#[derive(Debug)]
pub struct Presentation {
    /// The label of the station in its settings, if it has one.
    pub label: Option<String>,
    /// Of a report of a file how many seconds ago it was changed, if that is known.
    pub file_age: Option<u64>,
    /// The order of the rows of a table.
    pub sort: Sort,
    /// The number that each series of an instance has as its label `station` in Prometheus' text,
    /// so that those of several stations differ; `None` for no such label.
    pub station: Option<u32>,
}

// By hand: where one is let go, a proof has one call and not a drop of each field.
impl Drop for Presentation {
    fn drop(self) {
        let Presentation {
            label: _,
            file_age: _,
            sort: _,
            station: _,
        } = self;
    }
}

/// The order of the rows of a device in a table.
#[derive(Clone, Copy, Debug, PartialEq, Eq)]
pub enum Sort {
    /// By what is shown of the name, as the watch has them.
    Name,
    /// The greatest rate first.
    Rate,
    /// Raised alarms first.
    Alarm,
    /// The greatest age first.
    Age,
}

/// The labels of an instance. Prometheus' text, a page and a table have all; a series of Prometheus
/// has the speed as its value.
#[derive(Debug)]
pub struct InstanceLabels {
    /// Where the agent of its target is reached, as `a.b.c.d:port`.
    pub target: Option<String>,
    /// The label of its target in the settings, at most 64 octets.
    pub device: Option<String>,
    /// The ifName of its interface (RFC 2863).
    pub if_name: Option<String>,
    /// The ifAlias of its interface (RFC 2863).
    pub if_alias: Option<String>,
    /// The speed of its interface in bits a second, at least 1, if it is known.
    pub speed: Option<u64>,
}

// By hand: where one is let go, a proof has one call and not a drop of each field.
impl Drop for InstanceLabels {
    fn drop(self) {
        let InstanceLabels {
            target: _,
            device: _,
            if_name: _,
            if_alias: _,
            speed: _,
        } = self;
    }
}
