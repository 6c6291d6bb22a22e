//! Names of devices and interfaces.

ghost use Rattle.std.specs.Prelude.{◌≡◌, ◌++◌, codes, IfOk, OnOk, Some, option_map, string_bytes};
ghost use Rattle.mon_display.specs.Naming.{alias_text, device_text, interface_text, without_port};
ghost use Rattle.mon_display.specs.Visible.{visible};

use crate::visible::{put_quoted, put_visible};
use std::alloc::{AllocError, Global};

/// Returns how a device is named: by its address without the port 161, and by its label in
/// parentheses: `192.0.2.1 (edge-1)`.
///
/// # Errors
/// `AllocError` if there is no memory for the text.
pub fn device_text(
    alloc: Global,
    address: Option<&str>,
    label: Option<&str>,
) -> Result<String, AllocError>
    ensures { IfOk result (λ text. string_bytes text
        ≡ device_text (option_map (λ t. t.now) address.entry)
        (option_map (λ t. t.now) label.entry)) }
{
    let mut text = String::new(alloc);
    match (address, label) {
        (None, None) => {}
        (None, Some(label)) => put_visible(&mut text, label)?,
        (Some(address), None) => put_visible(&mut text, without_port(address))?,
        (Some(address), Some(label)) => {
            put_visible(&mut text, without_port(address))?;
            put_label(&mut text, label)?;
        }
    }
    Ok(text)
}

/// Adds a label in parentheses.
fn put_label(text: &mut String, label: &str) -> Result<(), AllocError>
    ensures { OnOk result (string_bytes text.new
        ≡ string_bytes text.old ++ (codes " (" ++ visible label.now ++ codes ")")) }
{
    text.push_str(" (")?;
    put_visible(text, label)?;
    text.push_str(")")
}

/// Returns an address without the port of SNMP, 161 (RFC 3417 section 3.1).
fn without_port(address: &str) -> &str
    ensures { result.now ≡ without_port address.now }
{
    match address.strip_suffix(":161") {
        Some(ip) => ip,
        None => address,
    }
}

/// Returns how an interface is named: by its ifName, and by its ifAlias in quotes if it is not
/// empty: `gi0/1 "storage"`. The text is empty without an ifName.
///
/// # Errors
/// `AllocError` if there is no memory for the text.
pub fn interface_text(
    alloc: Global,
    if_name: Option<&str>,
    if_alias: Option<&str>,
) -> Result<String, AllocError>
    ensures { IfOk result (λ text. string_bytes text
        ≡ interface_text (option_map (λ t. t.now) if_name.entry)
        (option_map (λ t. t.now) if_alias.entry)) }
{
    let mut text = String::new(alloc);
    if let Some(name) = if_name {
        put_visible(&mut text, name)?;
        put_alias(&mut text, if_alias.unwrap_or(""))?;
    }
    Ok(text)
}

/// Adds an ifAlias in quotes, unless it is empty.
fn put_alias(text: &mut String, alias: &str) -> Result<(), AllocError>
    ensures { OnOk result (string_bytes text.new ≡ string_bytes text.old ++ alias_text alias.now) }
{
    if alias.is_empty() {
        return Ok(());
    }
    text.push_str(" ")?;
    put_quoted(text, alias)
}
