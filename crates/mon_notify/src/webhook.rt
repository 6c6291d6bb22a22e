//! The JSON object of one change, in the form of Alertmanager's webhook, version 4.

ghost use Rattle.std.specs.Prelude.{◌≡◌, IfOk, OnOk, Some, map, string_bytes};
ghost use Rattle.serde_json.specs.Data.{no_members, object, string};
ghost use Rattle.serde_json.specs.Read.{read};
ghost use Rattle.serde_json.specs.View.{view, members_view};
ghost use Rattle.mon_notify.specs.Labels.{pair_of};
ghost use Rattle.mon_notify.specs.Times.{time_text};
ghost use Rattle.mon_notify.specs.Webhook.{alert_data, annotations_data, end_text, fingerprint_text, key_text, labels_data, message_data, message_text, status_text};

use crate::fingerprint::fingerprint;
use crate::label::Label;
use crate::time::time_text;
use httpdate::HttpDate;
use serde_json::{Map, Value, json, put};
use std::alloc::{AllocError, Global};
use std::str;

/// What is said of one change.
#[derive(Clone, Copy, Debug)]
pub struct Notice<'a> {
    /// Its labels, sorted by their names.
    pub labels: &'a [Label<'a>],
    /// A line for people.
    pub summary: &'a str,
    /// When it started.
    pub starts_at: HttpDate,
    /// When it ended, if it did.
    pub ends_at: Option<HttpDate>,
}

/// Returns a text as a value.
fn text_value(alloc: Global, text: &str) -> Result<Value, AllocError>
    ensures { IfOk result (λ v. view v ≡ string text.now) }
{
    Ok(Value::String(String::from_str(alloc, text)?))
}

/// Puts labels into an object without members.
fn put_labels(
    alloc: Global,
    members: &mut Map<String, Value>,
    labels: &[Label],
) -> Result<(), AllocError>
    requires { members_view members.old.entries ≡ no_members }
    ensures { OnOk result (object (members_view members.new.entries)
        ≡ labels_data (map pair_of labels.now)) }
{
    for i in 0..labels.len() {
        let label = &labels[i];
        put(members, alloc, label.name, text_value(alloc, label.value)?)?;
    }
    Ok(())
}

/// Returns labels as an object.
fn labels_value(alloc: Global, labels: &[Label]) -> Result<Value, AllocError>
    ensures { IfOk result (λ v. view v ≡ labels_data (map pair_of labels.now)) }
{
    let mut members = Map::new(alloc);
    put_labels(alloc, &mut members, labels)?;
    Ok(Value::Object(members))
}

/// Returns the fingerprint of labels.
fn fingerprint_text(alloc: Global, labels: &[Label]) -> Result<String, AllocError>
    ensures { IfOk result (λ t. string_bytes t ≡ fingerprint_text (map pair_of labels.now)) }
{
    hex::encode(alloc, fingerprint(labels).to_be_bytes())
}

/// Returns the key of a group.
fn key_value(alloc: Global, labels: &[Label]) -> Result<Value, AllocError>
    ensures { IfOk result (λ v. view v ≡ string (key_text (map pair_of labels.now))) }
{
    let digits = fingerprint_text(alloc, labels)?;
    let mut text = String::from_str(alloc, "{}:{fingerprint=\"")?;
    text.push_str(digits.as_str())?;
    text.push_str("\"}")?;
    Ok(Value::String(text))
}

/// Returns a time as a value.
fn time_value(alloc: Global, date: &HttpDate) -> Result<Value, AllocError>
    ensures { IfOk result (λ v. view v ≡ string (time_text date.now)) }
{
    let octets = time_text(date);
    match str::from_utf8(&octets) {
        Ok(text) => text_value(alloc, text),
        Err(_) => unreachable!(),
    }
}

/// Returns when it ended as a value.
fn end_value(alloc: Global, ends_at: &Option<HttpDate>) -> Result<Value, AllocError>
    ensures { IfOk result (λ v. view v ≡ string (end_text ends_at.now)) }
{
    match ends_at {
        None => text_value(alloc, "0001-01-01T00:00:00Z"),
        Some(date) => time_value(alloc, date),
    }
}

/// Returns `resolved` if it ended, else `firing`.
fn status_value(alloc: Global, ends_at: &Option<HttpDate>) -> Result<Value, AllocError>
    ensures { IfOk result (λ v. view v ≡ string (status_text ends_at.now)) }
{
    match ends_at {
        None => text_value(alloc, "firing"),
        Some(_) => text_value(alloc, "resolved"),
    }
}

/// Returns the annotations.
fn annotations_value(alloc: Global, summary: &str) -> Result<Value, AllocError>
    ensures { IfOk result (λ v. view v ≡ annotations_data summary.now) }
{
    json!(in alloc; {"summary": text_value(alloc, summary)?})
}

/// Returns the alert.
fn alert_value(alloc: Global, notice: &Notice) -> Result<Value, AllocError>
    ensures { IfOk result (λ v. view v ≡ alert_data notice.now) }
{
    json!(in alloc; {
        "annotations": annotations_value(alloc, notice.summary)?,
        "endsAt": end_value(alloc, &notice.ends_at)?,
        "fingerprint": Value::String(fingerprint_text(alloc, notice.labels)?),
        "generatorURL": "",
        "labels": labels_value(alloc, notice.labels)?,
        "startsAt": time_value(alloc, &notice.starts_at)?,
        "status": status_value(alloc, &notice.ends_at)?
    })
}

/// Returns the whole object.
fn message_value(alloc: Global, notice: &Notice) -> Result<Value, AllocError>
    ensures { IfOk result (λ v. view v ≡ message_data notice.now) }
{
    json!(in alloc; {
        "alerts": [alert_value(alloc, notice)?],
        "commonAnnotations": annotations_value(alloc, notice.summary)?,
        "commonLabels": labels_value(alloc, notice.labels)?,
        "externalURL": "",
        "groupKey": key_value(alloc, notice.labels)?,
        "groupLabels": labels_value(alloc, notice.labels)?,
        "receiver": "snmpmon",
        "status": status_value(alloc, &notice.ends_at)?,
        "truncatedAlerts": 0,
        "version": "4"
    })
}

/// Returns the text of the object: JSON (RFC 8259) with no space.
///
/// # Errors
/// `AllocError` if there is no memory for it.
pub fn message(alloc: Global, notice: &Notice) -> Result<Vec<u8>, AllocError>
    ensures text { IfOk result (λ t. t.items ≡ message_text notice.now) }
    ensures read_back { IfOk result (λ t. read t.items ≡ Some (message_data notice.now)) }
{
    let value = message_value(alloc, notice)?;
    value.to_vec(alloc)
}
