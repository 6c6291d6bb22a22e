//! What a request asks for.

ghost use Rattle.std.specs.Prelude.{◌≡◌, ◌==◌, length, map, string_bytes};
ghost use Rattle.std.specs.List.{list_any};
ghost use Rattle.mon_http.specs.Whole.{whole_of};
ghost use Rattle.mon_http.specs.Request.{has_no_content, has_good_fields, long_status, method_status, served, judged, bad_status, refusal, IsVerdict};

use crate::accept::accepts_open_metrics;
use crate::front::{line_count, names_other_version};
use crate::host::{has_good_hosts, host_field, host_of, is_served_host};
use crate::response::Status;
use crate::route::{Route, by_format, route_of};
use http1::fields::{ContentLength, KnownFields, TransferEncoding};
use httparse::spans::{EMPTY_HEADER_SPAN, RequestSpans, parse_request};

/// The most field lines of a head.
const MAX_FIELDS: usize = 32;

/// The most lines of a head: the request line, the fields and the empty line.
const MAX_LINES: usize = MAX_FIELDS + 2;

/// A request for something that is served.
#[derive(Clone, Copy, Debug, PartialEq, Eq)]
pub struct Request {
    pub route: Route,
    /// It is GET; HEAD is answered without the body.
    pub with_body: bool,
    /// The connection stays open after the answer.
    pub keep_alive: bool,
    /// The number of octets of its head.
    pub len: usize,
}

/// A head that is refused.
#[derive(Clone, Copy, Debug, PartialEq, Eq)]
pub struct Refusal {
    pub status: Status,
    /// The connection stays open after the answer.
    pub keep_alive: bool,
    /// The number of octets of the head, or 0 if its end is not known.
    pub len: usize,
}

/// What a head comes to.
#[derive(Clone, Copy)]
pub enum Verdict {
    Asked(Request),
    Refused(Refusal),
}

/// Returns a refusal of the head of this length.
pub(crate) fn refuse(status: Status, keep_alive: bool, len: usize) -> Verdict
    ensures { result ≡ refusal status keep_alive len }
{
    Verdict::Refused(Refusal {
        status,
        keep_alive,
        len,
    })
}

/// Returns `true` if the fields frame no content (RFC 9112, section 6).
fn has_no_content(coding: TransferEncoding, len: ContentLength) -> bool
    ensures { result ≡ has_no_content coding len }
{
    match coding {
        TransferEncoding::Absent => match len {
            ContentLength::Absent => true,
            ContentLength::Value(n) => n == 0,
            ContentLength::Invalid => false,
        },
        _ => false,
    }
}

/// Returns `true` if there is a Host where one must be, no second one, and no content.
fn has_good_fields(minor: u8, known: &KnownFields) -> bool
    ensures { result ≡ has_good_fields minor known.now }
{
    let hosts = known.hosts;
    (hosts == 1 || (minor == 0 && hosts == 0))
        && has_no_content(known.transfer_encoding, known.content_length)
}

/// Returns the status with which a method is refused.
fn method_status(method: &[u8]) -> Status
    ensures { result ≡ method_status method.now }
{
    let is_known = method == b"POST".as_slice()
        || method == b"PUT".as_slice()
        || method == b"DELETE".as_slice()
        || method == b"CONNECT".as_slice()
        || method == b"OPTIONS".as_slice()
        || method == b"TRACE".as_slice()
        || method == b"PATCH".as_slice();
    if is_known {
        Status::MethodNotAllowed
    } else {
        Status::NotImplemented
    }
}

/// Judges a request with good fields for a host that is served.
fn served(method: &[u8], target: &[u8], open_metrics: bool, keep_alive: bool, len: usize) -> Verdict
    ensures { result ≡ served method.now target.now open_metrics keep_alive len }
{
    let with_body = method == b"GET".as_slice();
    let is_head = method == b"HEAD".as_slice();
    if with_body || is_head {
        match route_of(target) {
            Some(route) => Verdict::Asked(Request {
                route: by_format(open_metrics, route),
                with_body,
                keep_alive,
                len,
            }),
            None => refuse(Status::NotFound, keep_alive, len),
        }
    } else {
        refuse(method_status(method), keep_alive, len)
    }
}

/// The parts of a request that is judged.
#[derive(Clone, Copy)]
struct Parts<'a> {
    method: &'a [u8],
    target: &'a [u8],
    /// The minor version, 0 or 1.
    minor: u8,
    /// The value of its field Host.
    host: &'a [u8],
    /// Its fields Accept prefer OpenMetrics.
    open_metrics: bool,
    /// The number of octets of its head.
    len: usize,
}

/// Judges a request of these parts, where these names are served.
#[tactic(auto, unfolding(crate::specs::Request::judged))]
fn judged(names: &[String], parts: Parts<'_>, known: &KnownFields) -> Verdict
    ensures { result ≡ judged (map string_bytes names.now) parts.entry.method.now
        parts.entry.target.now parts.entry.minor known.now parts.entry.host.now
        parts.entry.open_metrics parts.entry.len }
{
    let Parts {
        method,
        target,
        minor,
        host,
        open_metrics,
        len,
    } = parts;
    if !has_good_fields(minor, known) || !has_good_hosts(target, host) {
        return refuse(Status::BadRequest, false, len);
    }
    let keep_alive = minor == 1 && !known.close;
    if is_served_host(names, host_of(target, host)) {
        served(method, target, open_metrics, keep_alive, len)
    } else {
        refuse(Status::Misdirected, keep_alive, len)
    }
}

/// Returns `true` if one of the octets is this one.
fn has_octet(octets: &[u8], wanted: u8) -> bool
    ensures { result ≡ list_any (λ b. b == wanted) octets.now }
{
    octets.iter().any(|octet| *octet == wanted)
}

/// Returns the status with which octets are refused that are too long for a head.
pub(crate) fn long_status(octets: &[u8]) -> Status
    ensures { result ≡ long_status octets.now }
{
    if has_octet(octets, b'\n') {
        Status::HeaderFieldsTooLarge
    } else if has_octet(octets, b' ') {
        Status::UriTooLong
    } else {
        Status::NotImplemented
    }
}

/// Returns the status with which a head that is no request is refused.
fn bad_status(head: &[u8]) -> Status
    ensures { result ≡ bad_status head.now }
{
    if names_other_version(head) {
        Status::VersionNotSupported
    } else {
        Status::BadRequest
    }
}

/// Returns what was read, if it is the whole of `len` octets.
fn whole(parsed: httparse::Result<RequestSpans>, len: usize) -> Option<RequestSpans>
    ensures { result ≡ whole_of parsed len }
{
    match parsed {
        Ok(httparse::Status::Complete(found)) => {
            if found.len == len { Some(found) } else { None }
        }
        Ok(httparse::Status::Partial) => None,
        Err(_) => None,
    }
}

/// Judges a head that ends with its empty line, where these names are served.
pub(crate) fn judge(names: &[String], head: &[u8]) -> Verdict
    ensures { IsVerdict (map string_bytes names.now) head.now result }
{
    if line_count(head) > MAX_LINES {
        return refuse(Status::HeaderFieldsTooLarge, false, head.len());
    }
    let mut headers = [EMPTY_HEADER_SPAN; MAX_FIELDS];
    match whole(parse_request(head, &mut headers), head.len()) {
        Some(found) => {
            let fields = &headers[..found.headers];
            let known = KnownFields::from_spans(head, fields);
            let parts = Parts {
                method: found.method.of(head),
                target: found.path.of(head),
                minor: found.version,
                host: host_field(head, fields),
                open_metrics: accepts_open_metrics(head, fields),
                len: head.len(),
            };
            judged(names, parts, &known)
        }
        None => refuse(bad_status(head), false, head.len()),
    }
}
