//! The events that lines name.

use crate::setting::AGENT;
use mon_ber::Octets;
use mon_row_texts::{first_word, octets, parsed};
use mon_station::OwnedEvent;
use std::alloc::Global;
use std::collections::VecDeque;

/// Reads the events between semicolons.
pub(crate) fn events_of(alloc: Global, events: &str) -> Option<VecDeque<OwnedEvent>> {
    let mut list = VecDeque::new(alloc);
    for line in events.split("; ") {
        let (word, rest) = first_word(line);
        list.push_back(event(alloc, word, rest)?).ok()?;
    }
    Some(list)
}

/// Reads the event that a word and the rest of its line mean.
pub(crate) fn event(alloc: Global, word: &str, rest: &str) -> Option<OwnedEvent> {
    Some(match word {
        "poll" => OwnedEvent::StartPoll(parsed(rest)?),
        "timeout" => OwnedEvent::Timeout(parsed(rest)?),
        "share" => OwnedEvent::Share(parsed(rest)?),
        "save" => OwnedEvent::Save,
        "agent" => OwnedEvent::FromAgent(AGENT, datagram(alloc, rest)?),
        "peer" => OwnedEvent::FromPeer(datagram(alloc, rest)?),
        _ => return None,
    })
}

fn datagram(alloc: Global, digits: &str) -> Option<Octets> {
    let octets = octets(alloc, digits)?;
    Some(Octets::new(octets))
}
