//! Variable bindings as text.

ghost use Rattle.std.specs.Prelude.{◌≡◌, ◌++◌, ◌∷◌, [], IfOk, OnOk, length, string_bytes, map, decimal, codes, IsTrue};
ghost use Rattle.std.specs.List.{flat_map, list_all, join_with_byte};
ghost use Rattle.std.specs.Fmt.{signed_decimal};
ghost use Rattle.mon_client.specs.Printed.{is_seen, escaped, hex_text, string_text, number_text, kind_text, quad_text, address_text, value_shown, binding_line};

use mon_ber::Value;
use mon_pdu::Binding;
use mon_smi::NameTexts;
use std::alloc::{AllocError, Global};

/// The bindings, a line each: the name and the value with its kind. The names, and values that are
/// names, are printed as `names` has it.
pub fn bindings_text<S: NameTexts>(
    alloc: Global,
    bindings: &[Binding],
    names: &S,
) -> Result<String, AllocError>
    ensures { IfOk result (λ text. string_bytes text ≡ flat_map (binding_line (S.shown names.now))
        bindings.now) }
{
    let mut text = String::new(alloc);
    for binding in bindings {
        put_binding(alloc, &mut text, binding, names)?;
    }
    Ok(text)
}

#[tactic(auto, unfolding(crate::specs::Printed::binding_line))]
pub(crate) fn put_binding<S: NameTexts>(
    alloc: Global,
    text: &mut String,
    binding: &Binding,
    names: &S,
) -> Result<(), AllocError>
    ensures { OnOk result (string_bytes text.new ≡ string_bytes text.old
        ++ binding_line (S.shown names.now) binding.now) }
{
    let name = names.text(alloc, &binding.name)?;
    text.push_str(name.as_str())?;
    text.push_str(" = ")?;
    put_value(alloc, text, &binding.value, names)?;
    text.push_str("\n")
}

fn put_value<S: NameTexts>(
    alloc: Global,
    text: &mut String,
    value: &Value,
    names: &S,
) -> Result<(), AllocError>
    ensures { OnOk result (string_bytes text.new ≡ string_bytes text.old
        ++ value_shown (S.shown names.now) value.now) }
{
    match value {
        Value::Integer(number) => put_integer(text, *number),
        Value::Octets(octets) => {
            let shown = string_text(alloc, octets.as_slice())?;
            put_text(text, "String", shown.as_str())
        }
        Value::Null => put_word(text, "null"),
        Value::Name(name) => {
            let shown = names.text(alloc, name)?;
            put_text(text, "Oid", shown.as_str())
        }
        Value::IpAddress(address) => {
            let shown = address_text(alloc, address.as_slice())?;
            put_text(text, "IpAddress", shown.as_str())
        }
        Value::Counter32(number) => put_number(text, "Counter32", u64::from(*number)),
        Value::Gauge32(number) => put_number(text, "Gauge32", u64::from(*number)),
        Value::TimeTicks(number) => put_number(text, "TimeTicks", u64::from(*number)),
        Value::Opaque(octets) => {
            let shown = hex_text(alloc, octets.as_slice())?;
            put_text(text, "Opaque", shown.as_str())
        }
        Value::Counter64(number) => put_number(text, "Counter64", *number),
        Value::NoSuchObject => put_word(text, "noSuchObject"),
        Value::NoSuchInstance => put_word(text, "noSuchInstance"),
        Value::EndOfMibView => put_word(text, "endOfMibView"),
    }
}

fn put_word(text: &mut String, word: &str) -> Result<(), AllocError>
    ensures { OnOk result (string_bytes text.new ≡ string_bytes text.old ++ word.now) }
{
    text.push_str(word)
}

#[tactic(auto, unfolding(crate::specs::Printed::number_text))]
fn put_number(text: &mut String, kind: &str, number: u64) -> Result<(), AllocError>
    ensures { OnOk result (string_bytes text.new ≡ string_bytes text.old
        ++ number_text kind.now number) }
{
    write!(text, "{kind}: {number}")
}

#[tactic(auto, unfolding(crate::specs::Printed::kind_text))]
fn put_text(text: &mut String, kind: &str, shown: &str) -> Result<(), AllocError>
    ensures { OnOk result (string_bytes text.new ≡ string_bytes text.old
        ++ kind_text kind.now shown.now) }
{
    write!(text, "{kind}: {shown}")
}

#[tactic(auto, unfolding(crate::specs::Printed::kind_text))]
fn put_integer(text: &mut String, number: i32) -> Result<(), AllocError>
    ensures { OnOk result (string_bytes text.new ≡ string_bytes text.old
        ++ kind_text (codes "Integer") (signed_decimal number)) }
{
    write!(text, "Integer: {number}")
}

/// Four octets in decimal.
#[tactic(auto, unfolding(crate::specs::Printed::address_text))]
fn address_text(alloc: Global, address: &[u8]) -> Result<String, AllocError>
    ensures { IfOk result (λ text. string_bytes text ≡ address_text address.now) }
{
    match address {
        [a, b, c, d] => quad_text(alloc, *a, *b, *c, *d),
        _ => Ok(String::new(alloc)),
    }
}

#[tactic(auto, unfolding(crate::specs::Printed::quad_text))]
fn quad_text(alloc: Global, a: u8, b: u8, c: u8, d: u8) -> Result<String, AllocError>
    ensures { IfOk result (λ text. string_bytes text ≡ quad_text a b c d) }
{
    let mut text = String::new(alloc);
    write!(text, "{a}.{b}.{c}.{d}")?;
    Ok(text)
}

/// Octets in hex digits.
#[tactic(auto, unfolding(crate::specs::Printed::hex_text))]
fn hex_text(alloc: Global, octets: &[u8]) -> Result<String, AllocError>
    ensures { IfOk result (λ text. string_bytes text ≡ hex_text octets.now) }
{
    let digits = hex::encode(alloc, octets)?;
    let mut text = String::new(alloc);
    write!(text, "hex {digits}")?;
    Ok(text)
}

/// Seen characters in quotes, other octets in hex digits.
#[tactic(auto, unfolding(crate::specs::Printed::string_text))]
fn string_text(alloc: Global, octets: &[u8]) -> Result<String, AllocError>
    ensures { IfOk result (λ text. string_bytes text ≡ string_text octets.now) }
{
    if !are_seen(octets) {
        return hex_text(alloc, octets);
    }
    let mut text = String::new(alloc);
    text.push('"')?;
    put_escaped(&mut text, octets)?;
    text.push('"')?;
    Ok(text)
}

/// Returns `true` if all octets are characters of ASCII that are seen.
fn are_seen(octets: &[u8]) -> bool
    ensures { result ≡ list_all is_seen octets.now }
{
    octets.iter().all(|octet| (32..=126).contains(octet))
}

fn put_escaped(text: &mut String, octets: &[u8]) -> Result<(), AllocError>
    requires { IsTrue (list_all is_seen octets.now) }
    ensures { OnOk result (string_bytes text.new ≡ string_bytes text.old
        ++ flat_map escaped octets.now) }
{
    for octet in octets {
        if *octet == b'"' || *octet == b'\\' {
            text.push('\\')?;
        }
        text.push(char::from(*octet))?;
    }
    Ok(())
}
