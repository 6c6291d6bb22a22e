//! The host that a request is for.

ghost use Rattle.std.specs.Prelude.{◌≡◌, ◌≤◌, map, length, All, count_by, ◌==◌, string_bytes};
ghost use Rattle.std.specs.List.{list_all, list_any};
ghost use Rattle.std.specs.Char.{is_ascii_digit};
ghost use Rattle.httparse.specs.Spans.{IsHeaderWithin, header_bytes};
ghost use Rattle.http1.specs.Text.{eq_ignore_case};
ghost use Rattle.mon_http.specs.Host.{has_good_hosts, host_field, host_of, is_bracketed, is_dotted_octet, is_host, is_literal, is_literal_octet, is_name_from, is_name_octet, is_port, is_served_host};

use crate::route::{authority_of, before, is_absolute};
use http1::text::eq_ignore_case;
use httparse::spans::HeaderSpan;

/// Returns `true` if an octet of a name means itself.
fn is_name_octet(octet: u8) -> bool
    ensures { result ≡ is_name_octet octet }
{
    octet.is_ascii_alphanumeric()
        || matches!(
            octet,
            b'-' | b'.' | b'_' | b'~' | b'!' | b'$' | b'&' | b'\'' | b'(' | b')'
        )
        || matches!(octet, b'*' | b'+' | b',' | b';' | b'=')
}

/// Returns `true` if these are the rest of a name, after a `%` of which this many digits are
/// missing.
fn is_name_from(missing: u8, rest: &[u8]) -> bool
    ensures { result ≡ is_name_from missing rest.now }
{
    match rest {
        [] => missing == 0,
        [octet, after @ ..] => {
            if missing > 0 {
                octet.is_ascii_hexdigit() && is_name_from(missing - 1, after)
            } else if *octet == b'%' {
                is_name_from(2, after)
            } else {
                is_name_octet(*octet) && is_name_from(0, after)
            }
        }
    }
}

/// Returns `true` if these are digits.
pub(crate) fn are_digits(text: &[u8]) -> bool
    ensures { result ≡ list_all is_ascii_digit text.now }
{
    text.iter().all(|octet| octet.is_ascii_digit())
}

/// Returns `true` if this is nothing, or a colon and digits.
fn is_port(text: &[u8]) -> bool
    ensures { result ≡ is_port text.now }
{
    text.is_empty() || (text[0] == b':' && are_digits(&text[1..]))
}

/// Returns `true` if these are octets of an IPv6 address.
fn are_literal_octets(text: &[u8]) -> bool
    ensures { result ≡ list_all is_literal_octet text.now }
{
    text.iter().all(|octet| octet.is_ascii_hexdigit() || (*octet == b':' || *octet == b'.'))
}

/// Returns the number of colons.
fn colons(text: &[u8]) -> usize
    ensures { result ≡ count_by (λ b. b == 58) text.now }
{
    text.iter().filter(|octet| **octet == b':').count()
}

/// Returns `true` if these follow a `[` in a host.
fn is_literal(rest: &[u8]) -> bool
    ensures { result ≡ is_literal rest.now }
{
    let address = before(rest, b']', b']');
    address.len() < rest.len()
        && are_literal_octets(address)
        && colons(address) >= 2
        && is_port(&rest[address.len() + 1..])
}

/// Returns `true` if the text begins with `[`.
fn is_bracketed(text: &[u8]) -> bool
    ensures { result ≡ is_bracketed text.now }
{
    !text.is_empty() && text[0] == b'['
}

/// Returns `true` if the text is a host and maybe a port.
fn is_host(text: &[u8]) -> bool
    ensures { result ≡ is_host text.now }
{
    if is_bracketed(text) {
        return is_literal(&text[1..]);
    }
    let name = before(text, b':', b':');
    is_name_from(0, name) && is_port(&text[name.len()..])
}

/// Returns the value of the first field Host, or nothing if there is none.
pub(crate) fn host_field<'a>(head: &'a [u8], fields: &[HeaderSpan]) -> &'a [u8]
    requires { All (IsHeaderWithin (length head.now)) fields.now }
    ensures { result.now ≡ host_field (map (header_bytes head.now) fields.now) }
{
    match fields {
        [] => b"",
        [first, rest @ ..] => {
            if eq_ignore_case(first.name.of(head), b"host") {
                first.value.of(head)
            } else {
                host_field(head, rest)
            }
        }
    }
}

/// Returns `true` if the field is a host, and so is the authority of a target that has one.
pub(crate) fn has_good_hosts(target: &[u8], field: &[u8]) -> bool
    ensures { result ≡ has_good_hosts target.now field.now }
{
    if !is_host(field) {
        return false;
    }
    if !is_absolute(target) {
        return true;
    }
    let authority = authority_of(target);
    is_host(authority) && !before(authority, b':', b':').is_empty()
}

/// Returns the host that a request is for: that of its target if it has one, else of its field.
pub(crate) fn host_of<'a>(target: &'a [u8], field: &'a [u8]) -> &'a [u8]
    ensures { result.now ≡ host_of target.now field.now }
{
    if is_absolute(target) {
        authority_of(target)
    } else {
        field
    }
}

/// Returns `true` if there are only digits and dots, as in an IPv4 address.
fn is_dotted(name: &[u8]) -> bool
    ensures { result ≡ list_all is_dotted_octet name.now }
{
    name.iter()
        .all(|octet| octet.is_ascii_digit() || *octet == b'.')
}

/// Returns `true` if the name is one of these, in any case.
fn is_one_of(name: &[u8], names: &[String]) -> bool
    ensures { result ≡ list_any (λ known. eq_ignore_case name.now known)
        (map string_bytes names.now) }
{
    match names {
        [] => false,
        [first, rest @ ..] => eq_ignore_case(name, first.as_bytes()) || is_one_of(name, rest),
    }
}

/// Returns `true` if a host is served: it is an address, or nothing, or `localhost`, or one of
/// these names.
pub(crate) fn is_served_host(names: &[String], host: &[u8]) -> bool
    ensures { result ≡ is_served_host (map string_bytes names.now) host.now }
{
    if is_bracketed(host) {
        return true;
    }
    let name = before(host, b':', b':');
    is_dotted(name) || eq_ignore_case(name, b"localhost") || is_one_of(name, names)
}
