//! Where the head of a request ends among the octets of a connection.

ghost use Rattle.std.specs.Prelude.{◌≡◌, ◌≤◌, false, drop, length, IfSome, IfNone};
ghost use Rattle.mon_http.specs.Front.{skip_line_ends, head_length, line_count, names_other_version};
ghost use Rattle.mon_http.specs.Scan.{IsScanned};

use crate::route::before;

/// What looking for an empty line came to.
#[derive(Clone, Copy)]
pub(crate) struct Found {
    /// The number of octets up to the end of the first empty line, if there is one.
    pub end: Option<usize>,
    /// If there is none: the last line has no octet but CR so far.
    pub blank: bool,
}

/// Looks for the end of a head, from a place up to which there is none.
pub(crate) fn scan(octets: &[u8], from: usize, blank: bool) -> Found
    requires within { from ≤ length octets.now }
    requires scanned { IsScanned octets.now from blank }
    ensures end { result.end ≡ head_length false octets.now }
    ensures goes_on { IfNone result.end (IsScanned octets.now (length octets.now) result.blank) }
    ensures in_range { IfSome result.end (λ n. n ≤ length octets.now) }
{
    let mut is_blank = blank;
    for i in from..octets.len() {
        let octet = octets[i];
        if octet == b'\n' && is_blank {
            return Found {
                end: Some(i + 1),
                blank: is_blank,
            };
        }
        is_blank = octet == b'\n' || (is_blank && octet == b'\r');
    }
    Found {
        end: None,
        blank: is_blank,
    }
}

/// Returns the number of CR and LF before the first other octet.
pub(crate) fn line_ends(octets: &[u8]) -> usize
    ensures rest { drop result octets.now ≡ skip_line_ends octets.now }
    ensures within { result ≤ length octets.now }
{
    let mut n = 0;
    while n < octets.len() && (octets[n] == b'\n' || octets[n] == b'\r') {
        n += 1;
    }
    n
}

/// Returns the number of lines.
pub(crate) fn line_count(octets: &[u8]) -> usize
    ensures { result ≡ line_count octets.now }
{
    octets.iter().filter(|octet| **octet == b'\n').count()
}

/// Returns `true` if the request line ends in a space and a version other than HTTP/1.0 and
/// HTTP/1.1.
pub(crate) fn names_other_version(head: &[u8]) -> bool
    ensures { result ≡ names_other_version head.now }
{
    let line = before(head, b'\r', b'\n');
    let end = &line[line.len().saturating_sub(9)..];
    end.len() == 9
        && end[..6] == b" HTTP/"[..]
        && end[6].is_ascii_digit()
        && end[7] == b'.'
        && end[8].is_ascii_digit()
        && end != b" HTTP/1.0".as_slice()
        && end != b" HTTP/1.1".as_slice()
}
