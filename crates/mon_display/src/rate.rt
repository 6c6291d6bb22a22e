//! Rates a second in three digits, and as a part of a speed.

ghost use Rattle.std.specs.Prelude.{◌≡◌, ◌≤◌, ◌<◌, ◌^◌, ◌-◌, ◌/◌, ◌++◌, codes, IfOk, OnOk, string_bytes};
ghost use Rattle.mon_display.specs.Rate.{digits_of, exponent_of, last_digit, percent_text, places_of, pointed, prefix_text, rate_text, rounded, scaled_text, unit_text};

use std::alloc::{AllocError, Global};

/// What is counted.
#[derive(Clone, Copy, Debug, PartialEq, Eq)]
pub enum Unit {
    /// Bits.
    Bits,
    /// Packets, errors and all else.
    Each,
}

/// The digits that are written of a number, and the exponent of ten of the last of them.
#[derive(Clone, Copy)]
struct Scaled {
    digits: u128,
    exponent: u8,
}

/// Returns a rate in thousandths of the unit a second as a text of three digits, rounded half up,
/// with a prefix of SI: `8.42 Gbit/s`, `126 k/s`.
///
/// # Errors
/// `AllocError` if there is no memory for the text.
pub fn rate_text(alloc: Global, unit: Unit, thousandths: u128) -> Result<String, AllocError>
    ensures { IfOk result (λ text. string_bytes text ≡ rate_text unit thousandths) }
{
    let mut text = String::new(alloc);
    if thousandths == 0 {
        text.push_str("0 ")?;
    } else {
        put_scaled(&mut text, scale(thousandths))?;
    }
    text.push_str(unit_text(unit))?;
    Ok(text)
}

/// Returns bits a second in thousandths as a part of a speed in bits a second, rounded half up:
/// `84.2 %`. A speed of 0 counts as 1.
///
/// # Errors
/// `AllocError` if there is no memory for the text.
pub fn percent_text(alloc: Global, thousandths: u128, speed: u64) -> Result<String, AllocError>
    ensures { IfOk result (λ text. string_bytes text ≡ percent_text thousandths speed) }
{
    let mut text = String::new(alloc);
    put_pointed(&mut text, 1, rounded(thousandths, u128::from(speed.max(1))))?;
    text.push_str(" %")?;
    Ok(text)
}

/// Returns how many steps a number is, to the nearest, and one more from half a step on.
#[tactic(auto, unfolding(crate::specs::Rate::rounded))]
fn rounded(n: u128, step: u128) -> u128
    requires some { 1 ≤ step }
    requires small { step < 2 ^ 127 }
    ensures { result ≡ rounded n step }
{
    let steps = n / step;
    if step <= 2 * (n % step) {
        steps + 1
    } else {
        steps
    }
}

/// Returns the digits that are written of a number.
fn scale(n: u128) -> Scaled
    ensures digits { result.digits ≡ digits_of n }
    ensures exponent { result.exponent ≡ exponent_of n }
    ensures few { result.exponent ≤ 30 }
{
    let mut step: u128 = 1;
    for exponent in 0..30u8 {
        let digits = rounded(n, step);
        if digits <= 999 {
            return Scaled { digits, exponent };
        }
        step *= 10;
    }
    Scaled {
        digits: rounded(n, step),
        exponent: 30,
    }
}

/// Adds a number with its point, a blank and its prefix.
fn put_scaled(text: &mut String, scaled: Scaled) -> Result<(), AllocError>
    ensures { OnOk result (string_bytes text.new ≡ string_bytes text.old
        ++ (pointed (places_of scaled.exponent) scaled.digits ++ codes " " ++ prefix_text ((scaled.exponent - 1) / 3))) }
{
    put_pointed(text, places_of(scaled.exponent), scaled.digits)?;
    text.push_str(" ")?;
    text.push_str(prefix_text(scaled.exponent.saturating_sub(1) / 3))
}

/// Adds digits as a number with this many places after its point.
fn put_pointed(text: &mut String, places: u8, digits: u128) -> Result<(), AllocError>
    ensures { OnOk result (string_bytes text.new ≡ string_bytes text.old ++ pointed places digits) }
{
    match places {
        0 => write!(text, "{digits}"),
        1 => put_tenths(text, digits),
        2 => put_hundredths(text, digits),
        _ => put_thousandths(text, digits),
    }
}

/// Adds tenths.
fn put_tenths(text: &mut String, digits: u128) -> Result<(), AllocError>
    ensures { OnOk result (string_bytes text.new ≡ string_bytes text.old ++ pointed 1 digits) }
{
    let whole = digits / 10;
    write!(text, "{whole}.")?;
    put_last(text, digits)
}

/// Adds hundredths.
fn put_hundredths(text: &mut String, digits: u128) -> Result<(), AllocError>
    ensures { OnOk result (string_bytes text.new ≡ string_bytes text.old ++ pointed 2 digits) }
{
    let whole = digits / 100;
    write!(text, "{whole}.")?;
    put_last(text, digits / 10)?;
    put_last(text, digits)
}

/// Adds thousandths.
fn put_thousandths(text: &mut String, digits: u128) -> Result<(), AllocError>
    ensures { OnOk result (string_bytes text.new ≡ string_bytes text.old ++ pointed 3 digits) }
{
    let whole = digits / 1000;
    write!(text, "{whole}.")?;
    put_last(text, digits / 100)?;
    put_last(text, digits / 10)?;
    put_last(text, digits)
}

/// Adds the last digit of a number.
fn put_last(text: &mut String, number: u128) -> Result<(), AllocError>
    ensures { OnOk result (string_bytes text.new ≡ string_bytes text.old ++ last_digit number) }
{
    text.push(char::from(48 + (number % 10) as u8))
}

/// Returns how many places are after the point, by the exponent of the last digit in thousandths.
fn places_of(exponent: u8) -> u8
    ensures { result ≡ places_of exponent }
{
    if exponent == 0 {
        return 3;
    }
    2 - (exponent - 1) % 3
}

/// Returns the prefix that means this many thousands.
fn prefix_text(thousands: u8) -> &'static str
    ensures { result.now ≡ prefix_text thousands }
{
    match thousands {
        0 => "",
        1 => "k",
        2 => "M",
        3 => "G",
        4 => "T",
        5 => "P",
        6 => "E",
        7 => "Z",
        8 => "Y",
        _ => "R",
    }
}

/// Returns how a unit is written.
fn unit_text(unit: Unit) -> &'static str
    ensures { result.now ≡ unit_text unit }
{
    match unit {
        Unit::Bits => "bit/s",
        Unit::Each => "/s",
    }
}
