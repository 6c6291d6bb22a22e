//! Printing replies.

ghost use Rattle.std.specs.Prelude.{◌≡◌, ◌++◌, IfOk, OnOk, string_bytes};
ghost use Rattle.mon_answers.specs.Shown.{digits_line, named_text, pdu_in, pdu_of, pdu_text, reply_text, silence_line, status_line, status_word};

use mon_agent::{Reply, Silence};
use mon_client::bindings_text;
use mon_pdu::{Body, Message, Pdu, PduFault, read_message};
use mon_poller::status_name;
use mon_smi::Labels;
use std::alloc::{AllocError, Global};

/// Appends what is printed for a reply.
pub(crate) fn put_reply(
    printed: &mut String,
    alloc: Global,
    reply: &Reply,
    labels: Option<&Labels<'_>>,
) -> Result<(), AllocError>
    ensures { OnOk result (string_bytes printed.new ≡ string_bytes printed.old
        ++ reply_text labels.entry reply.now) }
{
    match reply {
        Reply::Send(octets) => match labels {
            Some(labels) => put_named(printed, alloc, octets.as_slice(), labels),
            None => put_digits(printed, alloc, octets.as_slice()),
        },
        Reply::Silent(cause) => put_silence(printed, *cause),
    }
}

/// Appends the line for a datagram that gets no reply.
#[tactic(auto, unfolding(crate::specs::Shown::silence_line))]
fn put_silence(printed: &mut String, cause: Silence) -> Result<(), AllocError>
    ensures { OnOk result (string_bytes printed.new ≡ string_bytes printed.old
        ++ silence_line cause) }
{
    let (number, name) = (cause.number(), cause.name());
    write!(printed, "silent {number} {name}\n")
}

/// Appends octets in hex digits, as a line.
#[tactic(auto, unfolding(crate::specs::Shown::digits_line))]
fn put_digits(printed: &mut String, alloc: Global, octets: &[u8]) -> Result<(), AllocError>
    ensures { OnOk result (string_bytes printed.new ≡ string_bytes printed.old
        ++ digits_line octets.now) }
{
    let digits = hex::encode(alloc, octets)?;
    write!(printed, "{digits}\n")
}

/// Appends octets as a client prints the response that they spell; in hex digits if they spell
/// none.
fn put_named(
    printed: &mut String,
    alloc: Global,
    octets: &[u8],
    labels: &Labels<'_>,
) -> Result<(), AllocError>
    ensures { OnOk result (string_bytes printed.new ≡ string_bytes printed.old
        ++ named_text labels.now octets.now (pdu_in octets.now)) }
{
    match pdu_in(alloc, octets)? {
        Some(pdu) => put_pdu(printed, alloc, &pdu, labels),
        None => put_digits(printed, alloc, octets),
    }
}

/// Returns the PDU of the message that octets begin with; `None` if there is none, or a GetBulk.
fn pdu_in(alloc: Global, octets: &[u8]) -> Result<Option<Pdu>, AllocError>
    ensures { IfOk result (λ found. found ≡ pdu_in octets.now) }
{
    match read_message(alloc, octets) {
        Ok(message) => Ok(pdu_of(message)),
        Err(PduFault::OutOfMemory) => Err(AllocError),
        Err(_) => Ok(None),
    }
}

/// Returns the PDU of a message; `None` for a GetBulk.
fn pdu_of(message: Message) -> Option<Pdu>
    ensures { result ≡ pdu_of message.body }
{
    let Message { body, .. } = message;
    match body {
        Body::Pdu(pdu) => Some(pdu),
        Body::Bulk(_) => None,
    }
}

/// Appends a response as a client prints it: a line for its error-status, and one for each variable
/// binding.
#[tactic(auto, unfolding(crate::specs::Shown::pdu_text))]
fn put_pdu(
    printed: &mut String,
    alloc: Global,
    pdu: &Pdu,
    labels: &Labels<'_>,
) -> Result<(), AllocError>
    ensures { OnOk result (string_bytes printed.new ≡ string_bytes printed.old
        ++ pdu_text labels.now pdu.now) }
{
    put_status(printed, pdu.error_status, pdu.error_index)?;
    let lines = bindings_text(alloc, pdu.bindings.as_slice(), labels)?;
    printed.push_str(lines.as_str())
}

/// Appends the line of an error-status and an error-index.
#[tactic(auto, unfolding(crate::specs::Shown::status_line))]
fn put_status(printed: &mut String, status: i32, index: i32) -> Result<(), AllocError>
    ensures { OnOk result (string_bytes printed.new ≡ string_bytes printed.old
        ++ status_line status index) }
{
    let name = status_word(status);
    write!(printed, "reply {name} ({status}) {index}\n")
}

/// Returns the name of an error-status, or for one without a name that it is another.
fn status_word(status: i32) -> &'static str
    ensures { result.now ≡ status_word status }
{
    status_name(status).unwrap_or("another error-status")
}
