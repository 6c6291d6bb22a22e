//! The labels of an instance.

ghost use Rattle.std.specs.Prelude.{◌≡◌, ◌++◌, IfOk, OnOk, codes, option_map};
ghost use Rattle.hex.specs.Hex.{encode_lower};
ghost use Rattle.mon_formats.specs.Prometheus.{at_first_dot, at_last_dot, before_labels, given_labels};
ghost use Rattle.mon_formats.specs.Prometheus.{instance_labels, is_in_numbers, label_if};
ghost use Rattle.mon_formats.specs.Prometheus.{more_label, object_and_index, object_labels, speed_of};

use crate::prometheus::text::{put_label, put_more, put_station_label};
use mon_page::InstanceLabels;
use mon_report::Entry;
use mon_smi::NameTexts;
use std::alloc::{AllocError, Global};

/// How many octets the labels of an instance mostly have at most.
const USUAL: usize = 256;

/// An instance with its labels, if any are given.
#[derive(Clone, Copy)]
pub(crate) struct Labelled<'a, 'e> {
    pub(crate) instance: &'a Entry<'e>,
    pub(crate) labels: Option<&'a InstanceLabels>,
}

/// The labels of an instance: the number of the station if it is given, its engine id in hex
/// digits, its name, its object and index, and those that are given.
#[tactic(auto, unfolding(crate::specs::Prometheus::instance_labels))]
pub(crate) fn labels_of<S: NameTexts>(
    alloc: Global,
    names: &S,
    labelled: Labelled,
    station: Option<u32>,
) -> Result<Vec<u8>, AllocError>
    ensures { IfOk result (λ labels. labels.items ≡ instance_labels station (S.shown names.now)
        (labelled.entry.instance.now, option_map (λ l. l.now) labelled.entry.labels)) }
{
    let engine = hex::encode(alloc, labelled.instance.engine())?;
    let name = names.text(alloc, labelled.instance.name())?;
    let mut labels = Vec::with_capacity(alloc, USUAL)?;
    put_before(&mut labels, station)?;
    put_label(&mut labels, "engine", engine.as_bytes())?;
    put_more(&mut labels, "name", name.as_bytes())?;
    put_object(&mut labels, name.as_str())?;
    put_given(&mut labels, labelled.labels)?;
    Ok(labels)
}

/// Adds the brace, and the number of the station as the first label, if it is given.
fn put_before(labels: &mut Vec<u8>, station: Option<u32>) -> Result<(), AllocError>
    ensures { OnOk result (labels.new.items ≡ labels.old.items ++ before_labels station) }
{
    match station {
        None => labels.extend_from_slice(b"{"),
        Some(station) => {
            put_station_label(labels, station)?;
            labels.extend_from_slice(b",")
        }
    }
}

/// Adds an engine id in hex digits as one more label.
pub(crate) fn put_engine(
    alloc: Global,
    labels: &mut Vec<u8>,
    engine: &[u8],
) -> Result<(), AllocError>
    ensures { OnOk result (labels.new.items
        ≡ labels.old.items ++ more_label (codes "engine") (encode_lower engine.now)) }
{
    let digits = hex::encode(alloc, engine)?;
    put_more(labels, "engine", digits.as_bytes())
}

/// Adds the object and the index of the instance with this name.
#[tactic(auto, unfolding(crate::specs::Prometheus::object_labels))]
fn put_object(labels: &mut Vec<u8>, name: &str) -> Result<(), AllocError>
    ensures { OnOk result (labels.new.items ≡ labels.old.items
        ++ object_labels (object_and_index name.now)) }
{
    let (object, index) = if is_in_numbers(name) {
        at_last_dot(name)
    } else {
        at_first_dot(name)
    };
    put_more(labels, "object", object.as_bytes())?;
    put_more(labels, "index", index.as_bytes())
}

/// Returns `true` if a name begins with a digit.
pub(crate) fn is_in_numbers(name: &str) -> bool
    ensures { result ≡ is_in_numbers name.now }
{
    match name.as_bytes() {
        [first, ..] => first.is_ascii_digit(),
        [] => false,
    }
}

/// What is before and behind the last dot.
#[tactic(auto, unfolding(crate::specs::Prometheus::at_last_dot))]
fn at_last_dot(name: &str) -> (&str, &str)
    ensures { (result.0.now, result.1.now) ≡ at_last_dot name.now }
{
    match name.rsplit_once('.') {
        Some(parts) => parts,
        None => (name, ""),
    }
}

/// What is before and behind the first dot.
#[tactic(auto, unfolding(crate::specs::Prometheus::at_first_dot))]
pub(crate) fn at_first_dot(name: &str) -> (&str, &str)
    ensures { (result.0.now, result.1.now) ≡ at_first_dot name.now }
{
    match name.split_once('.') {
        Some(parts) => parts,
        None => (name, ""),
    }
}

/// Adds the labels that are given, if any are.
#[tactic(auto, unfolding(crate::specs::Prometheus::joined_labels))]
fn put_given(labels: &mut Vec<u8>, given: Option<&InstanceLabels>) -> Result<(), AllocError>
    ensures { OnOk result (labels.new.items ≡ labels.old.items
        ++ given_labels (option_map (λ l. l.now) given.entry)) }
{
    let Some(given) = given else {
        return Ok(());
    };
    put_if(labels, "target", &given.target)?;
    put_if(labels, "device", &given.device)?;
    put_if(labels, "ifName", &given.if_name)?;
    put_if(labels, "ifAlias", &given.if_alias)
}

/// Adds one more label, if there is a value.
fn put_if(labels: &mut Vec<u8>, label: &str, value: &Option<String>) -> Result<(), AllocError>
    ensures { OnOk result (labels.new.items ≡ labels.old.items ++ label_if label.now value.now) }
{
    match value {
        None => Ok(()),
        Some(value) => put_more(labels, label, value.as_bytes()),
    }
}

/// Returns the speed of an instance's interface in bits a second, if its labels have one.
pub(crate) fn speed_of(given: Option<&InstanceLabels>) -> Option<u64>
    ensures { result ≡ speed_of (option_map (λ l. l.now) given.entry) }
{
    match given {
        None => None,
        Some(given) => given.speed,
    }
}
