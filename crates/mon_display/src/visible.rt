//! Texts from outside, for a terminal and a log.

ghost use Rattle.std.specs.Prelude.{◌≡◌, ◌++◌, OnOk, string_bytes};
ghost use Rattle.mon_display.specs.Visible.{quoted, visible, visible_char};

use std::alloc::AllocError;

/// Adds a text in which a control character is a question mark, and a backslash is before each `"`
/// and each backslash.
///
/// # Errors
/// `AllocError` if there is no memory for it.
pub fn put_visible(text: &mut String, given: &str) -> Result<(), AllocError>
    ensures { OnOk result (string_bytes text.new ≡ string_bytes text.old ++ visible given.now) }
{
    for c in given.chars() {
        put_char(text, c)?;
    }
    Ok(())
}

/// Adds such a text in double quotes.
///
/// # Errors
/// `AllocError` if there is no memory for it.
pub fn put_quoted(text: &mut String, given: &str) -> Result<(), AllocError>
    ensures { OnOk result (string_bytes text.new ≡ string_bytes text.old ++ quoted given.now) }
{
    text.push_str("\"")?;
    put_visible(text, given)?;
    text.push_str("\"")
}

/// Adds a character of a text.
fn put_char(text: &mut String, c: char) -> Result<(), AllocError>
    ensures { OnOk result (string_bytes text.new ≡ string_bytes text.old ++ visible_char c) }
{
    if c.is_control() {
        return text.push('?');
    }
    if c == '"' || c == '\\' {
        text.push('\\')?;
    }
    text.push(c)
}
