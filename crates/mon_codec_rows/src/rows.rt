//! Lines of what is read and written, by agents and by stations. tests/generators/codec_rows writes
//! the rows, from independent readers.
//!
//!     value HEX         the value that these octets begin with, how many spell it, its size and
//!                       its octets as they are written; or the fault
//!     message HEX       the same of a message, by its fields
//!     claim HEX         the claim that these octets spell, its size and its octets as they are
//!                       written; or the fault
//!     note HEX          what becomes of this claim at the station of number 1, and the incarnation
//!                       then known of its station
//!     known STATION     the incarnation that is known of this station
//!     offer PEER        what the station offers to this peer
//!     serial N          the serial after this one
//!     image WATCH HEX   what this image is read as under the watch, and the image that is written
//!                       of that; or the fault
//!     report WATCH HEX  the report of what this image is read as under the watch
//!     name TEXT         the identifier that this text spells; or the fault
//!     numbers N N ..    the identifier of these numbers; or the fault
//!     names TEXT TEXT   how two identifiers compare
//!     sample HEX        the sample of this record; or the fault
//!     samples HEX HEX   how two samples compare
//!     window SIZE EPOCH HEX,..       what becomes of each sample in a window, and what it keeps
//!     track SIZE EPOCH HEX,..        the same of a track, with its totals after each sample
//!     join SIZE EPOCH HEX,.. HEX,..  what two tracks keep when they are joined
//!     alarm RISING FALLING HEX,..    the state of an alarm over these samples; or the fault
//!     changes RISING FALLING HEX,.. HEX,..   what became of it from a look at the first to one at
//!                                            the others
//!     watch WATCH RULES              whether instances and rules make a watch; or the fault
//!     take WATCH N/HEX,..            what becomes of each sample on a board
//!     narrow WATCH RULES HEX,..      the report of a board; each writer that is too narrow for it
//!                                    fails with a beginning
//!     marks WATCH STEPS STEPS STEPS  what two boards owe when samples are taken, marked and joined
//!     tokens TEXT       the tokens of a text; or the fault
//!     module TEXT       how many names the module of this text defines; or the fault
//!     means TEXT        the identifier that a text means by the names of a module; or the fault
//!     called TEXT       the name of an identifier
//!     text KIND TEXT    the octets of the value that a text means for a kind; or the fault

use crate::{boards, claims, images, marks, modules, names, samples, values};
use mon_exchange::serial_after;
use mon_row_texts::parsed;
use std::alloc::Global;

/// Appends the answer to a line of this first word, if nothing that lines change is asked.
pub fn answer(alloc: Global, text: &mut String, word: &str, rest: &str) -> Option<()> {
    match word {
        "value" => values::value_row(alloc, text, rest),
        "message" => values::message_row(alloc, text, rest),
        "claim" => claims::row(alloc, text, rest),
        "serial" => write!(text, "{}", serial_after(parsed(rest)?)).ok(),
        "image" => images::row(alloc, text, rest),
        "report" => images::report(alloc, text, rest),
        "name" => names::row(alloc, text, rest),
        "numbers" => names::made(alloc, text, rest),
        "names" => names::compared(alloc, text, rest),
        "sample" => samples::row(alloc, text, rest),
        "samples" => samples::compared(alloc, text, rest),
        "window" => samples::window(alloc, text, rest),
        "track" => samples::track(alloc, text, rest),
        "join" => samples::joined(alloc, text, rest),
        "alarm" => samples::alarm(alloc, text, rest),
        "changes" => samples::changes(alloc, text, rest),
        "watch" => boards::watched(alloc, text, rest),
        "take" => boards::taken(alloc, text, rest),
        "narrow" => boards::reported(alloc, text, rest),
        "marks" => marks::row(alloc, text, rest),
        "tokens" => modules::cut(alloc, text, rest),
        "module" => modules::row(alloc, text, rest),
        "means" => modules::meant(alloc, text, rest),
        "called" => modules::called(alloc, text, rest),
        "text" => values::meant(alloc, text, rest),
        _ => None,
    }
}
