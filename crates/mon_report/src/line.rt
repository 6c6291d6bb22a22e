//! The lines of a report.

ghost use Rattle.std.specs.Prelude.{◌≡◌, ◌<◌, ◌*◌, ◌^◌, ◌∷◌, [], Some};
ghost use Rattle.std.specs.List.{flat_map};
ghost use Rattle.hex.specs.Hex.{encode_lower};
ghost use Rattle.mon_oid.specs.Oid.{dotted};
ghost use Rattle.mon_rates.specs.Totals as sums;
ghost use Rattle.mon_report.specs.Report.{dot_text, end_line, stamp_text, stamps_text, value_text, rate_text, totals_text, window_text, state_text, alarm_text, rules_on};
ghost use Rattle.mon_report.specs.Written.{AppendsIf};

use crate::writing::{put, put_number, put_signed, put_wide};
use mon_alarms::{AlarmState, Rule, state};
use mon_oid::Oid;
use mon_rates::Totals;
use mon_sample::Sample;
use std::io::Write;

/// The digits of the engine ids.
const DIGITS: &[u8] = b"0123456789abcdef";

/// Writes octets as hex digits in lower case.
pub(crate) fn put_hex<W: Write>(writer: &mut W, ok: bool, octets: &[u8]) -> bool
    ensures { AppendsIf (W.contents writer.old) ok (W.contents writer.new) result
        (encode_lower octets.now) }
{
    let mut ok = ok;
    for octet in octets {
        ok = put_octet(writer, ok, *octet);
    }
    ok
}

/// Writes an octet as two hex digits.
fn put_octet<W: Write>(writer: &mut W, ok: bool, octet: u8) -> bool
    ensures { AppendsIf (W.contents writer.old) ok (W.contents writer.new) result
        (encode_lower (octet ∷ [])) }
{
    let high = DIGITS[usize::from(octet / 16)];
    let low = DIGITS[usize::from(octet % 16)];
    put(writer, ok, &[high, low])
}

/// Writes the sub-identifiers in decimal, with dots between them.
pub(crate) fn put_name<W: Write>(writer: &mut W, ok: bool, name: &Oid) -> bool
    ensures { AppendsIf (W.contents writer.old) ok (W.contents writer.new) result
        (dotted name.now) }
{
    let [first, others @ ..] = name.parts() else {
        return ok;
    };
    let ok = put_number(writer, ok, u64::from(*first));
    put_others(writer, ok, others)
}

/// Writes each sub-identifier in decimal with a dot before it.
fn put_others<W: Write>(writer: &mut W, ok: bool, parts: &[u32]) -> bool
    ensures { AppendsIf (W.contents writer.old) ok (W.contents writer.new) result
        (flat_map dot_text parts.now) }
{
    let mut ok = ok;
    for part in parts {
        ok = put_part(writer, ok, *part);
    }
    ok
}

/// Writes a dot and a sub-identifier.
fn put_part<W: Write>(writer: &mut W, ok: bool, part: u32) -> bool
    ensures { AppendsIf (W.contents writer.old) ok (W.contents writer.new) result (dot_text part) }
{
    let ok = put(writer, ok, b".");
    put_number(writer, ok, u64::from(part))
}

/// Writes boots and time.
fn put_stamp<W: Write>(writer: &mut W, ok: bool, boots: u32, time: u32) -> bool
    ensures { AppendsIf (W.contents writer.old) ok (W.contents writer.new) result
        (stamp_text boots time) }
{
    let ok = put_number(writer, ok, u64::from(boots));
    let ok = put(writer, ok, b":");
    put_number(writer, ok, u64::from(time))
}

/// Writes a sample's kind and number.
fn put_value<W: Write>(writer: &mut W, ok: bool, sample: &Sample) -> bool
    ensures { AppendsIf (W.contents writer.old) ok (W.contents writer.new) result
        (value_text sample.now) }
{
    let ok = put(writer, ok, sample.kind().name().as_bytes());
    let ok = put(writer, ok, b"=");
    put_signed(writer, ok, sample.number())
}

/// Writes a rate in thousandths with three digits after the point, or that there is none.
fn put_rate<W: Write>(writer: &mut W, ok: bool, rate: Option<u128>) -> bool
    ensures { AppendsIf (W.contents writer.old) ok (W.contents writer.new) result (rate_text rate) }
{
    match rate {
        None => put(writer, ok, b"none"),
        Some(rate) => write_rate(writer, ok, rate),
    }
}

/// Writes a rate, given in thousandths, with three digits after the point, unless the writer failed
/// before. Returns `true` if all is written so far.
pub fn write_rate<W: Write>(writer: &mut W, ok: bool, rate: u128) -> bool
    ensures { AppendsIf (W.contents writer.old) ok (W.contents writer.new) result
        (rate_text (Some rate)) }
{
    let below = (rate % 1000) as u16;
    let hundreds = b'0' + (below / 100) as u8;
    let tens = b'0' + (below / 10 % 10) as u8;
    let ones = b'0' + (below % 10) as u8;
    let ok = put_wide(writer, ok, rate / 1000);
    put(writer, ok, &[b'.', hundreds, tens, ones])
}

/// Writes how much was counted, in how many seconds, and the rate.
#[tactic(auto, unfolding(crate::specs::Report::totals_text))]
fn put_totals<W: Write>(writer: &mut W, ok: bool, totals: Totals) -> bool
    requires { 1000 * totals.delta < 2 ^ 128 }
    ensures { AppendsIf (W.contents writer.old) ok (W.contents writer.new) result
        (totals_text totals) }
{
    let ok = put(writer, ok, b" delta=");
    let ok = put_wide(writer, ok, totals.delta);
    let ok = put(writer, ok, b" span=");
    let ok = put_number(writer, ok, totals.span);
    let ok = put(writer, ok, b" rate=");
    put_rate(writer, ok, totals.thousandths())
}

/// Writes the stamps of two samples.
fn put_stamps<W: Write>(writer: &mut W, ok: bool, oldest: &Sample, newest: &Sample) -> bool
    ensures { AppendsIf (W.contents writer.old) ok (W.contents writer.new) result
        (stamps_text oldest.now newest.now) }
{
    let ok = put_stamp(writer, ok, oldest.boots(), oldest.time());
    let ok = put(writer, ok, b"..");
    put_stamp(writer, ok, newest.boots(), newest.time())
}

/// Writes how many samples there are, their stamps, the newest one's value, and their totals.
#[tactic(auto, unfolding(crate::specs::Report::window_text))]
pub(crate) fn put_window<W: Write>(
    writer: &mut W,
    ok: bool,
    samples: &[Sample],
    totals: Totals,
) -> bool
    requires totals { totals ≡ sums.totals samples.now }
    requires rated { 1000 * totals.delta < 2 ^ 128 }
    ensures { AppendsIf (W.contents writer.old) ok (W.contents writer.new) result
        (window_text samples.now) }
{
    let [oldest, others @ ..] = samples else {
        return put(writer, ok, b" n=0");
    };
    let newest = &samples[others.len()];
    let ok = put(writer, ok, b" n=");
    let ok = put_number(writer, ok, samples.len() as u64);
    let ok = put(writer, ok, b" ");
    let ok = put_stamps(writer, ok, oldest, newest);
    let ok = put(writer, ok, b" ");
    let ok = put_value(writer, ok, newest);
    put_totals(writer, ok, totals)
}

/// Writes an alarm's state.
fn put_state<W: Write>(writer: &mut W, ok: bool, alarm: AlarmState) -> bool
    ensures { AppendsIf (W.contents writer.old) ok (W.contents writer.new) result
        (state_text alarm) }
{
    match alarm {
        AlarmState::Clear => put(writer, ok, b"clear"),
        AlarmState::Raised { boots, time } => put_raised(writer, ok, boots, time),
    }
}

fn put_raised<W: Write>(writer: &mut W, ok: bool, boots: u32, time: u32) -> bool
    ensures { AppendsIf (W.contents writer.old) ok (W.contents writer.new) result
        (state_text (AlarmState.Raised boots time)) }
{
    let ok = put(writer, ok, b"raised@");
    put_stamp(writer, ok, boots, time)
}

/// Writes a rule's thresholds and its state over these samples.
#[tactic(auto, unfolding(crate::specs::Report::alarm_text))]
fn put_alarm<W: Write>(writer: &mut W, ok: bool, samples: &[Sample], rule: &Rule) -> bool
    ensures { AppendsIf (W.contents writer.old) ok (W.contents writer.new) result
        (alarm_text samples.now rule.now) }
{
    let ok = put(writer, ok, b" alarm ");
    let ok = put_signed(writer, ok, i128::from(rule.rising()));
    let ok = put(writer, ok, b"/");
    let ok = put_signed(writer, ok, i128::from(rule.falling()));
    let ok = put(writer, ok, b"=");
    put_state(writer, ok, state(rule, samples))
}

/// Writes the alarms of the rules on one instance.
pub(crate) fn put_alarms<W: Write>(
    writer: &mut W,
    ok: bool,
    samples: &[Sample],
    rules: &[Rule],
    instance: u16,
) -> bool
    ensures { AppendsIf (W.contents writer.old) ok (W.contents writer.new) result
        (flat_map (alarm_text samples.now) (rules_on instance rules.now)) }
{
    let mut ok = ok;
    for rule in rules {
        if rule.instance() == instance {
            ok = put_alarm(writer, ok, samples, rule);
        }
    }
    ok
}

/// Writes the last line: how many instances and samples there are.
#[tactic(auto, unfolding(crate::specs::Report::end_line))]
pub fn write_end<W: Write>(writer: &mut W, ok: bool, instances: u64, samples: u64) -> bool
    ensures { AppendsIf (W.contents writer.old) ok (W.contents writer.new) result
        (end_line instances samples) }
{
    let ok = put(writer, ok, b"end ");
    let ok = put_number(writer, ok, instances);
    let ok = put(writer, ok, b" instances ");
    let ok = put_number(writer, ok, samples);
    put(writer, ok, b" samples\n")
}
