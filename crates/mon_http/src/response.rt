//! What is sent.

ghost use Rattle.std.specs.Prelude.{◌≡◌, ◌++◌, OnOk, length};
ghost use Rattle.mon_http.specs.Response.{status_text, allow_field, media_text, policy_field, connection_text, field_text, status_line, date_field, type_field, length_field, connection_field, guard_fields, last_fields, head_text};

use httpdate::HttpDate;
use itoa::Buffer;
use std::alloc::AllocError;

/// The status of a response.
#[derive(Clone, Copy, Debug, PartialEq, Eq)]
pub enum Status {
    Success,
    BadRequest,
    NotFound,
    MethodNotAllowed,
    UriTooLong,
    Misdirected,
    HeaderFieldsTooLarge,
    NotImplemented,
    ServiceUnavailable,
    VersionNotSupported,
}

/// The media type of a body.
#[derive(Clone, Copy, Debug, PartialEq, Eq)]
pub enum Media {
    /// Prometheus' text format, version 0.0.4.
    Prometheus,
    /// OpenMetrics 1.0.
    OpenMetrics,
    Json,
    Html,
    Plain,
}

/// What the status line and the header section of a response say.
#[derive(Clone, Copy)]
pub(crate) struct Head {
    pub status: Status,
    pub media: Media,
    /// The number of octets of the body.
    pub len: usize,
    pub keep_alive: bool,
    pub date: Option<HttpDate>,
}

/// Returns the status code and reason phrase.
fn status_text(status: Status) -> &'static [u8]
    ensures { result.now ≡ status_text status }
{
    match status {
        Status::Success => b"200 OK",
        Status::BadRequest => b"400 Bad Request",
        Status::NotFound => b"404 Not Found",
        Status::MethodNotAllowed => b"405 Method Not Allowed",
        Status::UriTooLong => b"414 URI Too Long",
        Status::Misdirected => b"421 Misdirected Request",
        Status::HeaderFieldsTooLarge => b"431 Request Header Fields Too Large",
        Status::NotImplemented => b"501 Not Implemented",
        Status::ServiceUnavailable => b"503 Service Unavailable",
        Status::VersionNotSupported => b"505 HTTP Version Not Supported",
    }
}

/// Returns the field `Allow` of a 405.
fn allow_field(status: Status) -> &'static [u8]
    ensures { result.now ≡ allow_field status }
{
    match status {
        Status::MethodNotAllowed => b"Allow: GET, HEAD\r\n",
        _ => b"",
    }
}

/// Returns the media type as a field's value.
fn media_text(media: Media) -> &'static [u8]
    ensures { result.now ≡ media_text media }
{
    match media {
        Media::Prometheus => b"text/plain; version=0.0.4; charset=utf-8",
        Media::OpenMetrics => b"application/openmetrics-text; version=1.0.0; charset=utf-8",
        Media::Json => b"application/json",
        Media::Html => b"text/html; charset=utf-8",
        Media::Plain => b"text/plain; charset=utf-8",
    }
}

/// Returns the field that keeps a page from loading anything and from running scripts.
fn policy_field(media: Media) -> &'static [u8]
    ensures { result.now ≡ policy_field media }
{
    match media {
        Media::Html =>
            b"Content-Security-Policy: default-src 'none'; style-src 'unsafe-inline'; base-uri 'none'; form-action 'none'; frame-ancestors 'none'\r\n",
        _ => b"",
    }
}

/// Returns the connection option.
fn connection_text(keep_alive: bool) -> &'static [u8]
    ensures { result.now ≡ connection_text keep_alive }
{
    if keep_alive { b"keep-alive" } else { b"close" }
}

/// Adds a field line.
#[tactic(auto, unfolding(crate::specs::Response::field_text))]
fn put_field(out: &mut Vec<u8>, name: &[u8], value: &[u8]) -> Result<(), AllocError>
    ensures { OnOk result (out.new.items ≡ out.old.items ++ field_text name.now value.now) }
{
    out.extend_from_slice(name)?;
    out.extend_from_slice(b": ")?;
    out.extend_from_slice(value)?;
    out.extend_from_slice(b"\r\n")
}

/// Adds the status line.
#[tactic(auto, unfolding(crate::specs::Response::status_line))]
fn put_status_line(out: &mut Vec<u8>, status: Status) -> Result<(), AllocError>
    ensures { OnOk result (out.new.items ≡ out.old.items ++ status_line status) }
{
    out.extend_from_slice(b"HTTP/1.1 ")?;
    out.extend_from_slice(status_text(status))?;
    out.extend_from_slice(b"\r\n")
}

/// Adds the date, if there is one.
#[tactic(auto, unfolding(crate::specs::Response::date_field))]
fn put_date(out: &mut Vec<u8>, date: Option<HttpDate>) -> Result<(), AllocError>
    ensures { OnOk result (out.new.items ≡ out.old.items ++ date_field date) }
{
    match date {
        Some(date) => put_field(out, b"Date", &date.to_bytes()),
        None => Ok(()),
    }
}

/// Adds the type of the body.
#[tactic(auto, unfolding(crate::specs::Response::type_field))]
fn put_type(out: &mut Vec<u8>, media: Media) -> Result<(), AllocError>
    ensures { OnOk result (out.new.items ≡ out.old.items ++ type_field media) }
{
    put_field(out, b"Content-Type", media_text(media))
}

/// Adds the length of the body.
#[tactic(auto, unfolding(crate::specs::Response::length_field))]
fn put_length(out: &mut Vec<u8>, len: usize) -> Result<(), AllocError>
    ensures { OnOk result (out.new.items ≡ out.old.items ++ length_field len) }
{
    let mut digits = Buffer::new();
    put_field(out, b"Content-Length", digits.format(len).as_bytes())
}

/// Adds whether the connection stays open.
#[tactic(auto, unfolding(crate::specs::Response::connection_field))]
fn put_connection(out: &mut Vec<u8>, keep_alive: bool) -> Result<(), AllocError>
    ensures { OnOk result (out.new.items ≡ out.old.items ++ connection_field keep_alive) }
{
    put_field(out, b"Connection", connection_text(keep_alive))
}

/// Adds the fields that every response has.
#[tactic(auto, unfolding(crate::specs::Response::guard_fields, crate::specs::Response::field_text))]
fn put_guard_fields(out: &mut Vec<u8>) -> Result<(), AllocError>
    ensures { OnOk result (out.new.items ≡ out.old.items ++ guard_fields) }
{
    put_field(out, b"Cache-Control", b"no-store")?;
    put_field(out, b"X-Content-Type-Options", b"nosniff")
}

/// Adds the fields that only some responses have, and the empty line.
#[tactic(auto, unfolding(crate::specs::Response::last_fields))]
fn put_last_fields(out: &mut Vec<u8>, status: Status, media: Media) -> Result<(), AllocError>
    ensures { OnOk result (out.new.items ≡ out.old.items ++ last_fields status media) }
{
    out.extend_from_slice(policy_field(media))?;
    out.extend_from_slice(allow_field(status))?;
    out.extend_from_slice(b"\r\n")
}

/// Adds the status line and the header section.
#[tactic(auto, unfolding(crate::specs::Response::head_text))]
pub(crate) fn put_head(out: &mut Vec<u8>, head: &Head) -> Result<(), AllocError>
    ensures { OnOk result (out.new.items ≡ out.old.items ++ head_text head.now) }
{
    put_status_line(out, head.status)?;
    put_date(out, head.date)?;
    put_type(out, head.media)?;
    put_length(out, head.len)?;
    put_connection(out, head.keep_alive)?;
    put_guard_fields(out)?;
    put_last_fields(out, head.status, head.media)
}
