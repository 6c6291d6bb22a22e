//! What is reported of deliveries.

ghost use Rattle.std.specs.Prelude.{◌≡◌, string_bytes};
ghost use Rattle.mon_courier.specs.News.{cause_text, kind_text, news_text};

use std::fmt;
use std::io::ErrorKind;

/// Why an attempt to deliver a text failed.
#[derive(Clone, Copy, Debug, PartialEq, Eq)]
pub enum Cause {
    /// The system started no connection.
    Connect(ErrorKind),
    /// The connection could not be made, or it failed before the request was sent.
    Send(ErrorKind),
    /// The connection failed before a response.
    Receive(ErrorKind),
    /// The receiver ended the connection before a response.
    Closed,
    /// No response came within 5 seconds.
    Silent,
    /// What came is no response of HTTP.
    NoResponse,
    /// The response has this status, after which the text is tried again.
    Status(u16),
}

/// What is reported, once.
#[derive(Clone, Copy, Debug, PartialEq, Eq)]
pub enum News {
    /// Deliveries begin to fail. The text is tried again.
    Fails(Cause),
    /// Deliveries go on again.
    Again,
    /// The receiver refused a text for good, with this status.
    Refused(u16),
}

/// Returns what a kind of error is called.
fn kind_text(kind: ErrorKind) -> &'static str
    ensures { result.now ≡ kind_text kind }
{
    match kind {
        ErrorKind::ConnectionRefused => "nothing listens there",
        ErrorKind::ConnectionReset => "connection reset",
        ErrorKind::ConnectionAborted => "connection aborted",
        ErrorKind::BrokenPipe => "connection closed",
        ErrorKind::HostUnreachable => "host unreachable",
        ErrorKind::NetworkUnreachable => "network unreachable",
        ErrorKind::NetworkDown => "network down",
        ErrorKind::TimedOut => "timed out",
        ErrorKind::PermissionDenied => "permission denied",
        ErrorKind::AddrNotAvailable => "no local address",
        ErrorKind::OutOfMemory => "out of memory",
        _ => "system error",
    }
}

impl fmt::Display for Cause {
    ghost use Rattle.std.specs.Prelude.{Some};
    ghost use Rattle.mon_courier.specs.News.{cause_text};

    ghost output = { λ c. Some (cause_text c) };

    fn fmt<W: fmt::Write>(&self, f: &mut fmt::Formatter<W>) -> fmt::Result {
        match self {
            Cause::Connect(kind) => {
                let reason = kind_text(*kind);
                write!(f, "cannot connect: {reason}")
            }
            Cause::Send(kind) => {
                let reason = kind_text(*kind);
                write!(f, "cannot send: {reason}")
            }
            Cause::Receive(kind) => {
                let reason = kind_text(*kind);
                write!(f, "cannot receive: {reason}")
            }
            Cause::Closed => f.write_str("connection closed before a response"),
            Cause::Silent => f.write_str("no response within 5 seconds"),
            Cause::NoResponse => f.write_str("what came is no response of HTTP"),
            Cause::Status(status) => write!(f, "response with status {status}"),
        }
    }
}

impl fmt::Display for News {
    ghost use Rattle.std.specs.Prelude.{Some};
    ghost use Rattle.mon_courier.specs.News.{news_text};

    ghost output = { λ n. Some (news_text n) };

    fn fmt<W: fmt::Write>(&self, f: &mut fmt::Formatter<W>) -> fmt::Result {
        match self {
            News::Fails(cause) => write!(f, "deliveries fail, and are tried again: {cause}"),
            News::Again => f.write_str("deliveries go on again"),
            News::Refused(status) => write!(f, "the receiver refused a text with status {status}"),
        }
    }
}
