//! The text of a request.

ghost use Rattle.std.specs.Prelude.{◌≡◌, ◌≤◌, ◌<◌, ◌+◌, ◌++◌, OnErr, OnOk, length, vec_capacity};
ghost use Rattle.mon_http_client.specs.Request.{length_field, field_text, get_text, head_text, post_text, request_line, type_field};

use itoa::Buffer;
use std::alloc::AllocError;

/// Adds octets.
fn put(text: &mut Vec<u8>, octets: &[u8]) -> Result<(), AllocError>
    ensures added { OnOk result (text.new.items ≡ text.old.items ++ octets.now) }
    ensures capacity { vec_capacity text.old ≤ vec_capacity text.new }
    ensures full { OnErr result (vec_capacity text.old
        < length text.old.items + length octets.now) }
{
    text.extend_from_slice(octets)
}

/// Adds the request line.
#[tactic(auto, unfolding(crate::specs::Request::request_line))]
fn put_line(text: &mut Vec<u8>, method: &[u8], path: &[u8]) -> Result<(), AllocError>
    ensures added { OnOk result (text.new.items ≡ text.old.items
        ++ request_line method.now path.now) }
    ensures capacity { vec_capacity text.old ≤ vec_capacity text.new }
    ensures full { OnErr result (vec_capacity text.old < length text.old.items
        + length (request_line method.now path.now)) }
{
    put(text, method)?;
    put(text, b" ")?;
    put(text, path)?;
    put(text, b" HTTP/1.1\r\n")
}

/// Adds a field line.
#[tactic(auto, unfolding(crate::specs::Request::field_text))]
fn put_field(text: &mut Vec<u8>, name: &[u8], value: &[u8]) -> Result<(), AllocError>
    ensures added { OnOk result (text.new.items ≡ text.old.items ++ field_text name.now value.now) }
    ensures capacity { vec_capacity text.old ≤ vec_capacity text.new }
    ensures full { OnErr result (vec_capacity text.old < length text.old.items
        + length (field_text name.now value.now)) }
{
    put(text, name)?;
    put(text, b": ")?;
    put(text, value)?;
    put(text, b"\r\n")
}

/// Adds the request line and the fields that every request has.
#[tactic(auto, unfolding(crate::specs::Request::head_text))]
fn put_head(text: &mut Vec<u8>, method: &[u8], host: &[u8], path: &[u8]) -> Result<(), AllocError>
    ensures added { OnOk result (text.new.items ≡ text.old.items
        ++ head_text method.now host.now path.now) }
    ensures capacity { vec_capacity text.old ≤ vec_capacity text.new }
    ensures full { OnErr result (vec_capacity text.old < length text.old.items
        + length (head_text method.now host.now path.now)) }
{
    put_line(text, method, path)?;
    put_field(text, b"Host", host)?;
    put_field(text, b"User-Agent", b"snmpmon")?;
    put_field(text, b"Connection", b"close")
}

/// Adds a GET request for this path to `text`. The host is that of the URL, with its port.
///
/// # Errors
/// `AllocError` if there is no memory for it.
#[tactic(auto, unfolding(crate::specs::Request::get_text))]
pub fn put_get(text: &mut Vec<u8>, host: &[u8], path: &[u8]) -> Result<(), AllocError>
    ensures added { OnOk result (text.new.items ≡ text.old.items ++ get_text host.now path.now) }
    ensures capacity { vec_capacity text.old ≤ vec_capacity text.new }
    ensures full { OnErr result (vec_capacity text.old < length text.old.items
        + length (get_text host.now path.now)) }
{
    put_head(text, b"GET", host, path)?;
    put(text, b"\r\n")
}

/// Adds the type of a body of JSON.
#[tactic(auto, unfolding(crate::specs::Request::type_field))]
fn put_type(text: &mut Vec<u8>) -> Result<(), AllocError>
    ensures added { OnOk result (text.new.items ≡ text.old.items ++ type_field) }
    ensures capacity { vec_capacity text.old ≤ vec_capacity text.new }
    ensures full { OnErr result (vec_capacity text.old
        < length text.old.items + length type_field) }
{
    put_field(text, b"Content-Type", b"application/json")
}

/// Adds the number of octets of a body.
#[tactic(auto, unfolding(crate::specs::Request::length_field))]
fn put_length(text: &mut Vec<u8>, len: usize) -> Result<(), AllocError>
    ensures added { OnOk result (text.new.items ≡ text.old.items ++ length_field len) }
    ensures capacity { vec_capacity text.old ≤ vec_capacity text.new }
    ensures full { OnErr result (vec_capacity text.old < length text.old.items
        + length (length_field len)) }
{
    let mut digits = Buffer::new();
    put_field(text, b"Content-Length", digits.format(len).as_bytes())
}

/// Adds a POST request with a body of JSON to `text`. The host is that of the URL, with its port.
///
/// # Errors
/// `AllocError` if there is no memory for it.
#[tactic(auto, unfolding(crate::specs::Request::post_text))]
pub fn put_post(text: &mut Vec<u8>, host: &[u8], path: &[u8], body: &[u8]) -> Result<(), AllocError>
    ensures added { OnOk result (text.new.items ≡ text.old.items
        ++ post_text host.now path.now body.now) }
    ensures capacity { vec_capacity text.old ≤ vec_capacity text.new }
    ensures full { OnErr result (vec_capacity text.old < length text.old.items
        + length (post_text host.now path.now body.now)) }
{
    put_head(text, b"POST", host, path)?;
    put_type(text)?;
    put_length(text, body.len())?;
    put(text, b"\r\n")?;
    put(text, body)
}
