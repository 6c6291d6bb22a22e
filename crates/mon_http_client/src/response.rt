//! The head of a response among the octets that came.

ghost use Rattle.std.specs.Prelude.{◌≡◌, ◌≤◌, false, IfSome, length};
ghost use Rattle.mon_http_client.specs.Front.{head_length};
ghost use Rattle.mon_http_client.specs.Response.{IsHead, IsProgress, head_of, whole_of};

use httparse::spans::{EMPTY_HEADER_SPAN, ResponseSpans, parse_response};

/// The most octets of heads that are looked at.
const MAX_OCTETS: usize = 8192;

/// The most field lines of a head.
const MAX_FIELDS: usize = 32;

/// What the octets that came on a connection come to.
#[derive(Clone, Copy, Debug, PartialEq, Eq)]
pub enum Progress {
    /// The head of the response has not ended yet.
    More,
    /// The head of the response has ended.
    Response {
        /// Its status, from 200 to 599.
        status: u16,
        /// The number of octets up to its end, those of interim responses before it among them.
        head_len: usize,
    },
    /// What came is no response, or no head of one ends within 8,192 octets.
    Refused,
}

/// What one head is.
#[derive(Clone, Copy)]
pub(crate) enum Head {
    /// That of an interim response.
    Interim,
    /// That of a response, with this status.
    Final(u16),
    /// None of a response.
    Bad,
}

/// Returns the number of octets up to the end of the first empty line.
fn head_length(octets: &[u8]) -> Option<usize>
    ensures end { result ≡ head_length false octets.now }
    ensures in_range { IfSome result (λ n. n ≤ length octets.now) }
{
    let mut is_blank = false;
    for i in 0..octets.len() {
        let octet = octets[i];
        if octet == b'\n' && is_blank {
            return Some(i + 1);
        }
        is_blank = octet == b'\n' || (is_blank && octet == b'\r');
    }
    None
}

/// Returns the status that was read, if the head is the whole of `len` octets.
fn whole(parsed: httparse::Result<ResponseSpans>, len: usize) -> Option<u16>
    ensures { result ≡ whole_of parsed len }
{
    match parsed {
        Ok(httparse::Status::Complete(found)) => {
            if found.len == len {
                Some(found.code)
            } else {
                None
            }
        }
        Ok(httparse::Status::Partial) => None,
        Err(_) => None,
    }
}

/// Returns what a status says of a head, if it has one.
fn head_of(status: Option<u16>) -> Head
    ensures { result ≡ head_of status }
{
    match status {
        None => Head::Bad,
        Some(status) => {
            if status < 100 {
                Head::Bad
            } else if status < 200 {
                Head::Interim
            } else if status > 599 {
                Head::Bad
            } else {
                Head::Final(status)
            }
        }
    }
}

/// Judges a head.
fn judge(head: &[u8]) -> Head
    ensures { IsHead head.now result }
{
    let mut headers = [EMPTY_HEADER_SPAN; MAX_FIELDS];
    head_of(whole(parse_response(head, &mut headers), head.len()))
}

/// Reads the head of a response among all octets that came on a connection. Interim responses are
/// skipped. At most 8,192 octets are looked at, each once.
pub fn read_response(octets: &[u8]) -> Progress
    ensures { IsProgress octets.now result }
{
    let seen = &octets[..octets.len().min(MAX_OCTETS)];
    let mut past = 0;
    while let Some(n) = head_length(&seen[past..]) {
        match judge(&seen[past..past + n]) {
            Head::Interim => past += n,
            Head::Final(status) => {
                return Progress::Response {
                    status,
                    head_len: past + n,
                };
            }
            Head::Bad => return Progress::Refused,
        }
    }
    if octets.len() < MAX_OCTETS {
        Progress::More
    } else {
        Progress::Refused
    }
}
