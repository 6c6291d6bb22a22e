//! The client commands: the requests that they write, and what they print over a wire in memory.

use crate::memory::Memory;
use crate::small_agent::question;
use crate::walked;
use mon_app::AppFault;
use mon_ber::{Octets, Value};
use mon_client::{Asking, Repeats, Stride, answer_text, request};
use mon_oid::Oid;
use mon_pdu::write_message;
use mon_row_texts::{octets, parsed, put, put_digits, put_fault, three, two};
use mon_smi::InNumbers;
use std::alloc::Global;

/// The name that is asked for over a wire.
const SYSTEM_NAME: &str = "1.3.6.1.2.1.1.5.0";

/// Appends the answer to a line, without its first word.
pub(crate) fn answer(alloc: Global, text: &mut String, line: &str) -> Option<()> {
    let (word, rest) = two(line, ' ')?;
    match word {
        "get" => written(alloc, text, Asking::Get, rest),
        "next" => written(alloc, text, Asking::GetNext, rest),
        "bulk" => {
            let (non_repeaters, max_repetitions, name) = three(rest, ' ')?;
            let repeats = Repeats {
                non_repeaters: parsed(non_repeaters)?,
                max_repetitions: parsed(max_repetitions)?,
            };
            written(alloc, text, Asking::GetBulk(repeats), name)
        }
        "set" => {
            let (assigned, name) = two(rest, ' ')?;
            let value = Value::Octets(Octets::from_slice(alloc, assigned.as_bytes()).ok()?);
            written(alloc, text, Asking::Set(&value), name)
        }
        "asks" => asked(alloc, text, rest),
        "walks" => walked::row(alloc, text, Stride::Next, rest),
        "strides" => walked::row(alloc, text, Stride::Bulk(10), rest),
        _ => None,
    }
}

/// Appends the octets of a request of `public` for a name.
fn written(alloc: Global, text: &mut String, asking: Asking<'_>, name: &str) -> Option<()> {
    let names = names(alloc, name)?;
    let question = question(asking, b"public", names.as_slice());
    let message = request(alloc, &question).ok()?;
    let octets = write_message(alloc, &message).ok()?;
    put_digits(text, octets.as_slice())
}

/// Returns a list of one name.
fn names(alloc: Global, name: &str) -> Option<Vec<Oid>> {
    let name = Oid::parse(alloc, name).ok()?;
    let mut names = Vec::new(alloc);
    names.push(name).ok()?;
    Some(names)
}

/// Says what a Get of a line `COMMUNITY HEX,..` prints, or its fault, and what it sends.
fn asked(alloc: Global, text: &mut String, line: &str) -> Option<()> {
    let (community, datagrams) = two(line, ' ')?;
    let mut heard = Vec::new(alloc);
    for datagram in datagrams.split(',') {
        heard.push(octets(alloc, datagram)?).ok()?;
    }
    let mut wire = Memory::new(alloc, heard);
    put_printed(alloc, text, &mut wire, community)?;
    put(text, ", sent")?;
    wire.put_sent(text)
}

/// Appends what the Get prints over a wire, or its fault.
fn put_printed(alloc: Global, text: &mut String, wire: &mut Memory, community: &str) -> Option<()> {
    match answered(alloc, wire, community) {
        Ok(answer) => write!(text, "{answer:?}").ok(),
        Err(why) => put_fault(text, why.number(), why.name()),
    }
}

/// Asks for sysName.0, without the clauses of the answer.
fn answered(alloc: Global, wire: &mut Memory, community: &str) -> Result<String, AppFault> {
    let Some(names) = names(alloc, SYSTEM_NAME) else {
        return Err(AppFault::OutOfMemory);
    };
    let question = question(Asking::Get, community.as_bytes(), names.as_slice());
    answer_text(alloc, wire, &question, &InNumbers)
}
