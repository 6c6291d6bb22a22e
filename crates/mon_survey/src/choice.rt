//! Which interfaces and counters are chosen.

ghost use Rattle.std.specs.Prelude.{◌≡◌};
ghost use Rattle.mon_survey.specs.Plan.{has_part, is_chosen, is_wanted, needs, spares};

use crate::answers::Answers;
use crate::column::Column;
use crate::counter::{Counter, Kind, column_of};

/// Which kinds of counters are polled.
#[derive(Clone, Copy, Debug, PartialEq, Eq)]
pub struct Kinds {
    /// Octets.
    pub octets: bool,
    /// Packets: unicast, and multicast and broadcast where ifXTable counts them.
    pub packets: bool,
    /// Packets with errors.
    pub errors: bool,
    /// Discarded packets.
    pub discards: bool,
}

impl Kinds {
    /// Returns `true` if counters of this kind are polled.
    pub(crate) fn has(self, kind: Kind) -> bool
        ensures { result ≡ is_wanted self kind }
    {
        match kind {
            Kind::Octets => self.octets,
            Kind::Packets => self.packets,
            Kind::Errors => self.errors,
            Kind::Discards => self.discards,
        }
    }

    /// Returns `true` if a plan looks at the column: it counts nothing, or a kind that is polled.
    pub fn needs(self, column: Column) -> bool
        ensures { result ≡ needs self column }
    {
        Counter::every()
            .iter()
            .all(|counter| !self.spares(*counter, column))
    }

    /// Returns `true` if the column is one of a counter that is not polled.
    fn spares(self, counter: Counter, column: Column) -> bool
        ensures { result ≡ spares self column counter }
    {
        !self.has(counter.kind())
            && (column_of(counter, true) == column || column_of(counter, false) == column)
    }
}

/// Which interfaces are polled, and for which kinds of counters.
#[derive(Clone, Copy)]
pub struct Choice<'a> {
    /// The kinds of counters.
    pub kinds: Kinds,
    /// `true` if only interfaces that are up are polled.
    pub up: bool,
    /// What the name or the alias has to contain; no octets are in each.
    pub part: &'a [u8],
    /// Which 256 of the counters are polled, from 0; `None` for all.
    pub group: Option<u32>,
}

impl Choice<'_> {
    /// Returns `true` if the interface is polled.
    pub(crate) fn takes(&self, answers: &Answers, index: u32) -> bool
        ensures { result ≡ is_chosen self.now answers.now index }
    {
        if self.up && !answers.is_up(index) {
            return false;
        }
        has_part(answers.name(index), self.part) || has_part(answers.alias(index), self.part)
    }
}

/// Returns `true` if the octets contain the part.
pub(crate) fn has_part(all: &[u8], part: &[u8]) -> bool
    ensures { result ≡ has_part part.now all.now }
{
    let mut rest = all;
    'scan: loop {
        if rest.starts_with(part) {
            return true;
        }
        let Some((_, after)) = rest.split_first() else {
            return false;
        };
        rest = after;
    }
}
