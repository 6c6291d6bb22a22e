//! Replaying recorded responses.

ghost use Rattle.std.specs.Prelude.{◌≡◌, ◌≢◌, ◌≤◌, ◌<◌, ◌++◌, ◌∷◌, List, [], IfOk, IfErr, IfSome, OnOk, length, map, string_bytes, ◌==◌, option_map, position};
ghost use Rattle.std.specs.Str.Lines.{strip_carriage_return};
ghost use Rattle.mon_app.specs.Offer.{Offer};
ghost use Rattle.mon_app.specs.Gives.{Fails};
ghost use Rattle.mon_app.specs.Reading.{hex_reading};
ghost use Rattle.mon_app.specs.Taken.{AreOffersTaken};
ghost use Rattle.mon_app.specs.Replay.{verdict, accepted, refusals, refused_text, lines_of, lines_left, replayed};
ghost use Rattle.mon_app.specs.Outcome.{IsReplay};
ghost use Rattle.mon_app.specs.Windows.{rows_of};

use crate::laws;
use crate::line::read_body;
use crate::refusal::Refusal;
use crate::table::Table;
use crate::text::{put_end, put_refused_line, put_rows};
use mon_pdu::read_message;
use std::alloc::{AllocError, Global};

/// The first line of the octets, without the LF that ends it and one CR before that, and what
/// follows the LF.
fn first_line(text: &[u8]) -> (&[u8], Option<&[u8]>)
    ensures lines { lines_of text.now ≡ result.0.now ∷ lines_left
        (option_map (λ rest. rest.now) result.1) }
    ensures shorter { IfSome result.1 (λ rest. length rest.now < length text.now) }
{
    match line_end(text) {
        Some(end) => (without_cr(&text[..end]), Some(&text[end + 1..])),
        None => (without_cr(text), None),
    }
}

/// Returns the place of the first LF.
fn line_end(text: &[u8]) -> Option<usize>
    ensures { result ≡ position (λ octet. octet == 10) text.now }
{
    text.iter().position(|octet| *octet == b'\n')
}

/// The line without one CR at its end.
fn without_cr(line: &[u8]) -> &[u8]
    ensures { result.now ≡ strip_carriage_return line.now }
{
    match line {
        [front @ .., b'\r'] => front,
        _ => line,
    }
}

/// Takes all samples that the message offers which the hex digits of a line spell, or refuses it,
/// which then changes nothing.
#[tactic(auto, unfolding(crate::specs::Reading::hex_reading, crate::specs::Reading::message_in, crate::specs::Reading::message_reading))]
fn take_line(alloc: Global, table: &mut Table, line: &[u8]) -> Result<(), Refusal>
    ensures size { table.new.size ≡ table.old.size }
    ensures ok { OnOk result ((taken : List Offer) → table.old.rows.items
        ≡ rows_of table.old.size taken
        → AreOffersTaken (verdict taken (hex_reading line.now)) table.old.size taken
        table.new.rows.items) }
    ensures err { IfErr result (λ e. (taken : List Offer) → table.old.rows.items
        ≡ rows_of table.old.size taken
        → Fails e (verdict taken (hex_reading line.now))) }
    ensures same { IfErr result (λ e. e ≢ Refusal.OutOfMemory
        → table.new.rows.items ≡ table.old.rows.items) }
{
    let octets = hex::decode(alloc, line)?;
    let message = read_message(alloc, octets.as_slice())?;
    let response = read_body(&message.body)?;
    if !table.has_room(alloc, &response)? {
        return Err(Refusal::TooManyInstances);
    }
    table.take(alloc, &response)?;
    Ok(())
}

/// Takes the lines one after another, writes why lines are refused, and counts these.
pub(crate) fn take_lines(
    alloc: Global,
    table: &mut Table,
    input: &[u8],
    text: &mut String,
) -> Result<usize, AllocError>
    requires { table.old.rows.items ≡ [] }
    ensures refused { IfOk result (λ count. count ≡ length (refusals 0 [] (lines_of input.now))) }
    ensures text { OnOk result (string_bytes text.new ≡ string_bytes text.old
        ++ refused_text (refusals 0 [] (lines_of input.now))) }
    ensures rows { OnOk result (table.new.rows.items ≡ rows_of table.old.size
        (accepted [] (lines_of input.now))) }
    ensures few { OnOk result (length table.new.rows.items ≤ 256) }
{
    let mut rest = Some(input);
    let mut number = 0;
    let mut refused = 0;
    while let Some(octets) = rest {
        let (line, after) = first_line(octets);
        rest = after;
        number += 1;
        if line.is_empty() {
            continue;
        }
        match take_line(alloc, table, line) {
            Ok(()) => {}
            Err(refusal) => {
                if let Refusal::OutOfMemory = refusal {
                    return Err(AllocError);
                }
                put_refused_line(text, number, refusal)?;
                refused += 1;
            }
        }
    }
    Ok(refused)
}

/// The text of what windows of `n` samples keep of the responses that the input records, one a
/// line, in hex digits.
///
/// Refused lines are named first, by number and cause, and change nothing else. Then come the
/// instances, by engine id and name, each with its `n` newest samples, the oldest first, and at
/// last the counts. Time is linear in the input; there is memory for the input, the text, one line
/// and the windows.
pub fn replay(alloc: Global, n: usize, input: &[u8]) -> Result<Vec<u8>, AllocError>
    requires positive { 1 ≤ n }
    requires small { n ≤ 64 }
    ensures text { IfOk result (λ text. text.items ≡ replayed n input.now) }

    // By the grammar of messages: each line has the outcome that it says, and the text is that of
    // the outcomes.
    ensures meaning { IfOk result (λ text. IsReplay n input.now text.items) }
{
    laws::one_text();
    let mut table = Table::new(alloc, n);
    let mut text = String::new(alloc);
    let refused = take_lines(alloc, &mut table, input, &mut text)?;
    put_rows(alloc, &mut text, table.rows())?;
    put_end(&mut text, table.rows(), refused)?;
    Ok(text.into_bytes())
}
