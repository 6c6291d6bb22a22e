//! Texts between tags.

ghost use Rattle.std.specs.Prelude.{◌≡◌, ◌++◌, OnOk};
ghost use Rattle.std.specs.List.{flat_map};
ghost use Rattle.mon_page.specs.Escape.{escaped};
ghost use Rattle.mon_page.specs.Between.{between};

use std::alloc::AllocError;

/// Adds a text, of which `<`, `>`, `&` and `"` become character references.
pub(crate) fn put_escaped(text: &mut Vec<u8>, octets: &[u8]) -> Result<(), AllocError>
    ensures { OnOk result (text.new.items ≡ text.old.items ++ flat_map escaped octets.now) }
{
    for octet in octets {
        put_octet(text, *octet)?;
    }
    Ok(())
}

/// Adds an octet of a text.
fn put_octet(text: &mut Vec<u8>, octet: u8) -> Result<(), AllocError>
    ensures { OnOk result (text.new.items ≡ text.old.items ++ escaped octet) }
{
    match octet {
        b'<' => text.extend_from_slice(b"&lt;"),
        b'>' => text.extend_from_slice(b"&gt;"),
        b'&' => text.extend_from_slice(b"&amp;"),
        b'"' => text.extend_from_slice(b"&quot;"),
        _ => text.extend_from_slice(&[octet]),
    }
}

/// Adds octets with others before and after them.
#[tactic(auto, unfolding(crate::specs::Between::between))]
pub(crate) fn put_between(
    text: &mut Vec<u8>,
    before: &[u8],
    octets: &[u8],
    after: &[u8],
) -> Result<(), AllocError>
    ensures { OnOk result (text.new.items ≡ text.old.items ++ between before.now octets.now
        after.now) }
{
    text.extend_from_slice(before)?;
    text.extend_from_slice(octets)?;
    text.extend_from_slice(after)
}
