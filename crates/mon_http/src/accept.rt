//! Which format of the figures a request accepts (RFC 9110, sections 12.4.2 and 12.5.1).

ghost use Rattle.std.specs.Prelude.{◌≡◌, ◌≤◌, All, IsTrue, drop, fold, length, map, option_map, reverse, slice_index};
ghost use Rattle.std.specs.List.{list_all};
ghost use Rattle.std.specs.Iterator.{YieldsFirstRef, item_count};
ghost use Rattle.httparse.specs.Grammar.{is_token, skip_ows, trim_ows};
ghost use Rattle.httparse.specs.Spans.{IsHeaderWithin, header_bytes};
ghost use Rattle.mon_http.specs.Accept.{accepted, accepts_open_metrics, after_first, decisive, digit_at, exactness, has_octet, is_decimal, is_element, is_pair, is_parameter, is_range, kind_of, parameters_of, parts, parts_left, preference_for, quality_of, quality_value, specificity, value_in, version_of};

use crate::host::are_digits;
use crate::route::before;
use http1::text::eq_ignore_case;
use httparse::spans::HeaderSpan;
use httparse::{is_space_or_tab, is_token};

/// A format of the figures for Prometheus.
#[derive(Clone, Copy, Debug, PartialEq, Eq)]
pub(crate) enum Exposition {
    /// The text format, version 0.0.4.
    Text,
    /// OpenMetrics 1.0.
    OpenMetrics,
}

impl Exposition {
    /// Returns its version, as the parameter of its media type has it.
    fn version(self) -> &'static [u8]
        ensures { result.now ≡ version_of self }
    {
        match self {
            Exposition::Text => b"0.0.4",
            Exposition::OpenMetrics => b"1.0.0",
        }
    }

    /// Returns how exactly a media type of a range names that of the format, from 3 to 0 for not at
    /// all.
    fn exactness(self, kind: &[u8]) -> u8
        ensures named { result ≡ exactness self kind.now }
        ensures bound { result ≤ 3 }
    {
        match self {
            Exposition::Text => {
                if eq_ignore_case(kind, b"text/plain") {
                    3
                } else if eq_ignore_case(kind, b"text/*") {
                    2
                } else if eq_ignore_case(kind, b"*/*") {
                    1
                } else {
                    0
                }
            }
            Exposition::OpenMetrics => {
                if eq_ignore_case(kind, b"application/openmetrics-text") {
                    3
                } else {
                    0
                }
            }
        }
    }
}

fn trim_start(mut text: &[u8]) -> &[u8]
    ensures { result.now ≡ skip_ows text.now }
{
    while let [first, rest @ ..] = text
        && is_space_or_tab(*first)
    {
        text = rest;
    }
    text
}

fn trim_end(mut text: &[u8]) -> &[u8]
    ensures { result.now ≡ reverse (skip_ows (reverse text.now)) }
{
    while let [rest @ .., last] = text
        && is_space_or_tab(*last)
    {
        text = rest;
    }
    text
}

/// Returns the text without the white space around it.
#[tactic(auto, unfolding(httparse::specs::Grammar::trim_ows))]
fn trim(text: &[u8]) -> &[u8]
    ensures { result.now ≡ trim_ows text.now }
{
    trim_end(trim_start(text))
}

/// The parts of a text between octets that are `end`, without the white space around each.
#[derive(Drop)]
struct Parts<'a> {
    end: u8,
    rest: Option<&'a [u8]>,
}

impl<'a> Iterator for Parts<'a> {
    type Item = &'a [u8];

    ghost next_gives = { YieldsFirstRef parts_left };

    ghost remaining = { item_count parts_left };

    fn next(&mut self) -> Option<&'a [u8]> {
        let rest = self.rest?;
        let end = self.end;
        match rest.iter().position(|octet| *octet == end) {
            Some(place) => {
                self.rest = Some(&rest[place + 1..]);
                Some(trim(&rest[..place]))
            }
            None => {
                self.rest = None;
                Some(trim(rest))
            }
        }
    }
}

/// Returns the parts of a list's field value.
fn elements_of<'a>(value: &'a [u8]) -> Parts<'a>
    ensures { parts_left result ≡ parts 44 value.now }
{
    Parts {
        end: b',',
        rest: Some(value),
    }
}

/// Returns `true` if the text has an octet that is `end`.
fn has_octet(text: &[u8], end: u8) -> bool
    ensures { result ≡ has_octet end text.now }
{
    before(text, end, end).len() < text.len()
}

/// Returns what follows the first octet that is `end`.
fn after_first(text: &[u8], end: u8) -> &[u8]
    requires { IsTrue (has_octet end text.now) }
    ensures { result.now ≡ after_first end text.now }
{
    &text[before(text, end, end).len() + 1..]
}

/// Returns the media type of a media range, before its parameters.
fn kind_of(range: &[u8]) -> &[u8]
    ensures { result.now ≡ kind_of range.now }
{
    trim(before(range, b';', b';'))
}

/// Returns the parameters of a media range.
fn parameters_of<'a>(range: &'a [u8]) -> Parts<'a>
    ensures { parts_left result ≡ parameters_of range.now }
{
    let end = b';';
    if has_octet(range, end) {
        let rest = Some(after_first(range, end));
        Parts { end, rest }
    } else {
        Parts { end, rest: None }
    }
}

/// Returns `true` for two tokens with an octet between them.
fn is_pair(text: &[u8], between: u8) -> bool
    ensures { result ≡ is_pair between text.now }
{
    has_octet(text, between)
        && is_token(before(text, between, between))
        && is_token(after_first(text, between))
}

/// Returns the value of the first parameter of this name, in any case.
fn value_in<'a>(name: &[u8], parameters: Parts<'a>) -> Option<&'a [u8]>
    ensures { option_map (λ v. v.now) result ≡ value_in name.now (parts_left parameters.entry) }
{
    for parameter in parameters {
        if has_octet(parameter, b'=') && eq_ignore_case(before(parameter, b'=', b'='), name) {
            return Some(after_first(parameter, b'='));
        }
    }
    None
}

/// Returns `true` if all parts are parameters, or nothing.
fn are_parameters(parameters: Parts<'_>) -> bool
    ensures { result ≡ list_all is_parameter (parts_left parameters.entry) }
{
    for parameter in parameters {
        if !parameter.is_empty() && !is_pair(parameter, b'=') {
            return false;
        }
    }
    true
}

/// Returns the octet at a place, or 0 if the text is shorter.
fn octet_at(text: &[u8], place: usize) -> u8
    ensures { result ≡ slice_index text.now place }
{
    match text.get(place) {
        Some(octet) => *octet,
        None => 0,
    }
}

/// Returns the digit at a place, or 0 if the text is shorter.
fn digit_at(text: &[u8], place: usize) -> u32
    ensures digit { result ≡ digit_at text.now place }
    ensures bound { result ≤ 255 }
{
    u32::from(octet_at(text, place).saturating_sub(b'0'))
}

/// Returns the text without its first two octets.
fn after_two(text: &[u8]) -> &[u8]
    ensures { result.now ≡ drop 2 text.now }
{
    if text.len() < 2 { b"" } else { &text[2..] }
}

/// Returns `true` for 0 or 1, and maybe a point with up to three digits.
fn is_decimal(text: &[u8]) -> bool
    ensures { result ≡ is_decimal text.now }
{
    (octet_at(text, 0) == b'0' || octet_at(text, 0) == b'1')
        && (text.len() == 1 || octet_at(text, 1) == b'.')
        && text.len() <= 5
        && are_digits(after_two(text))
}

/// Returns a quality value in thousandths, or `None` if the text is none.
fn quality_value(text: &[u8]) -> Option<u32>
    ensures { result ≡ quality_value text.now }
{
    if !is_decimal(text) {
        return None;
    }
    let digits = after_two(text);
    let thousandths = 100 * digit_at(digits, 0) + 10 * digit_at(digits, 1) + digit_at(digits, 2);
    let value = 1000 * digit_at(text, 0) + thousandths;
    if value <= 1000 { Some(value) } else { None }
}

/// Returns the quality of a media range in thousandths, 1000 if it has no weight, or `None` if its
/// weight is no quality value.
fn quality_of(range: &[u8]) -> Option<u32>
    ensures { result ≡ quality_of range.now }
{
    match value_in(b"q", parameters_of(range)) {
        Some(weight) => quality_value(weight),
        None => Some(1000),
    }
}

/// Returns `true` for a media range with its parameters and weight.
fn is_range(text: &[u8]) -> bool
    ensures { result ≡ is_range text.now }
{
    is_pair(kind_of(text), b'/')
        && are_parameters(parameters_of(text))
        && quality_of(text).is_some()
}

/// Returns `true` if all parts of the list are media ranges, or nothing.
fn are_elements(list: Parts<'_>) -> bool
    ensures { result ≡ list_all is_element (parts_left list.entry) }
{
    for element in list {
        if !element.is_empty() && !is_range(element) {
            return false;
        }
    }
    true
}

/// What a range says about a format.
#[derive(Clone, Copy)]
pub(crate) struct Preference {
    /// How specific the range is about it, 0 if it does not name it.
    pub specificity: u8,
    /// In thousandths.
    pub quality: u32,
}

/// What no range says.
const NO_PREFERENCE: Preference = Preference {
    specificity: 0,
    quality: 0,
};

impl Preference {
    /// Returns the one of two preferences that decides.
    fn or(self, other: Preference) -> Preference
        ensures { result ≡ decisive self other }
    {
        let is_above = self.specificity < other.specificity
            || (self.specificity == other.specificity && self.quality < other.quality);
        if is_above { other } else { self }
    }
}

/// Returns how specific a range is about a format, by its media type and its parameter `version`.
fn specificity(format: Exposition, range: &[u8]) -> u8
    ensures { result ≡ specificity format range.now }
{
    let exactness = format.exactness(kind_of(range));
    match value_in(b"version", parameters_of(range)) {
        None => 2 * exactness,
        Some(named) => {
            if named == format.version() && exactness > 0 {
                2 * exactness + 1
            } else {
                0
            }
        }
    }
}

/// Returns what a range says about a format.
fn preference_for(format: Exposition, range: &[u8]) -> Preference
    ensures { result ≡ preference_for format range.now }
{
    let specificity = specificity(format, range);
    match quality_of(range) {
        Some(quality) if specificity > 0 => Preference {
            specificity,
            quality,
        },
        _ => NO_PREFERENCE,
    }
}

/// Returns the preference that decides: this one, or one of the parts of the list.
fn preference_after(so_far: Preference, format: Exposition, list: Parts<'_>) -> Preference
    ensures { result ≡ fold decisive so_far (map (preference_for format)
        (parts_left list.entry)) }
{
    let mut found = so_far;
    for element in list {
        found = found.or(preference_for(format, element));
    }
    found
}

/// Returns `true` if the fields `Accept` are by the grammar.
fn are_lists(head: &[u8], fields: &[HeaderSpan]) -> bool
    requires { All (IsHeaderWithin (length head.now)) fields.now }
    ensures { result ≡ list_all is_element (accepted (map (header_bytes head.now) fields.now)) }
{
    match fields {
        [] => true,
        [first, rest @ ..] => {
            let is_list = !eq_ignore_case(first.name.of(head), b"accept")
                || are_elements(elements_of(first.value.of(head)));
            is_list && are_lists(head, rest)
        }
    }
}

/// Returns the preference for a format that decides: this one, or one of the fields `Accept`.
fn preference_in(
    so_far: Preference,
    format: Exposition,
    head: &[u8],
    fields: &[HeaderSpan],
) -> Preference
    requires { All (IsHeaderWithin (length head.now)) fields.now }
    ensures { result ≡ fold decisive so_far (map (preference_for format)
        (accepted (map (header_bytes head.now) fields.now))) }
{
    match fields {
        [] => so_far,
        [first, rest @ ..] => {
            let found = if eq_ignore_case(first.name.of(head), b"accept") {
                preference_after(so_far, format, elements_of(first.value.of(head)))
            } else {
                so_far
            };
            preference_in(found, format, head, rest)
        }
    }
}

/// Returns `true` if a request with these fields gets OpenMetrics.
#[tactic(auto, unfolding(crate::specs::Accept::accepts_open_metrics))]
pub(crate) fn accepts_open_metrics(head: &[u8], fields: &[HeaderSpan]) -> bool
    requires { All (IsHeaderWithin (length head.now)) fields.now }
    ensures { result ≡ accepts_open_metrics (map (header_bytes head.now) fields.now) }
{
    if !are_lists(head, fields) {
        return false;
    }
    let open_metrics = preference_in(NO_PREFERENCE, Exposition::OpenMetrics, head, fields);
    let text = preference_in(NO_PREFERENCE, Exposition::Text, head, fields);
    open_metrics.quality > 0 && open_metrics.quality >= text.quality
}
