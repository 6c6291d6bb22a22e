//! Values and messages of SNMP: what octets are read as, and what is written of that.

use mon_ber::{Value, read_value, size_of, write_value};
use mon_client::{ValueKind, value_of};
use mon_pdu::{Body, Message, message_size, read_message, write_message};
use mon_row_texts::{first_line, octets, put, put_digits, put_fault, put_name, two};
use std::alloc::Global;

/// Appends the value that these octets begin with, how many spell it, its size and its octets as
/// they are written; or the fault.
pub(crate) fn value_row(alloc: Global, text: &mut String, digits: &str) -> Option<()> {
    let octets = octets(alloc, digits)?;
    let (value, spelled) = match read_value(alloc, octets.as_slice()) {
        Ok(read) => read,
        Err(why) => return put_fault(text, why.number(), why.name()),
    };
    let size = size_of(&value).ok()?;
    write!(text, "{value:?} {spelled} {size} ").ok()?;
    let copy = value.try_clone(alloc).ok()?;
    put_written(alloc, text, &copy)
}

/// Appends the octets of a value as they are written.
fn put_written(alloc: Global, text: &mut String, value: &Value) -> Option<()> {
    let written = write_value(alloc, value).ok()?;
    put_digits(text, written.as_slice())
}

/// Appends the octets of the value that the text of a line `KIND TEXT` means; or the fault.
pub(crate) fn meant(alloc: Global, text: &mut String, line: &str) -> Option<()> {
    let (kind, words) = two(line, ' ')?;
    let Some(kind) = ValueKind::from_word(kind) else {
        return put(text, "no kind");
    };
    match value_of(alloc, kind, words) {
        Ok(value) => put_written(alloc, text, &value),
        Err(why) => put_fault(text, why.number(), why.name()),
    }
}

/// Appends the fields of the message that these octets begin with, its size and its octets as they
/// are written; or the fault.
pub(crate) fn message_row(alloc: Global, text: &mut String, digits: &str) -> Option<()> {
    let octets = octets(alloc, digits)?;
    match read_message(alloc, octets.as_slice()) {
        Ok(message) => put_message(alloc, text, &message),
        Err(why) => put_fault(text, why.number(), why.name()),
    }
}

fn put_message(alloc: Global, text: &mut String, message: &Message) -> Option<()> {
    put_fields(text, message)?;
    for binding in message.body.bindings() {
        put(text, " ")?;
        put_name(alloc, text, &binding.name)?;
        write!(text, "={:?}", binding.value).ok()?;
    }
    let size = message_size(message).ok()?;
    write!(text, " {size} ").ok()?;
    let written = write_message(alloc, message).ok()?;
    put_digits(text, written.as_slice())
}

/// Appends the community in hex digits, the tag of the PDU and its three numbers.
fn put_fields(text: &mut String, message: &Message) -> Option<()> {
    put_digits(text, message.community.as_slice())?;
    let tag = message.body.octet();
    let (first, second, third) = match &message.body {
        Body::Pdu(pdu) => (pdu.request_id, pdu.error_status, pdu.error_index),
        Body::Bulk(bulk) => (bulk.request_id, bulk.non_repeaters, bulk.max_repetitions),
    };
    write!(text, " {tag} {first} {second} {third}").ok()
}

/// Reads the message of the first line, in hex digits, and writes it, this many times, and prints
/// how many octets were written in all.
pub fn time_messages<R: Input + Print>(rt: &R, alloc: Global, times: u32) -> Option<()> {
    let line = first_line(rt, alloc)?;
    let octets = octets(alloc, line.trim_end())?;
    let mut sum: u64 = 0;
    for _ in 0..times {
        sum = sum.saturating_add(read_and_written(alloc, octets.as_slice())?);
    }
    println!(rt; "{sum}").ok()
}

/// Reads a message and writes it, and returns how many octets were written.
fn read_and_written(alloc: Global, octets: &[u8]) -> Option<u64> {
    let message = read_message(alloc, octets).ok()?;
    let written = write_message(alloc, &message).ok()?;
    Some(written.len() as u64)
}
