//! Datagrams of agents that answer too late, and in how many rounds one after another they came.

ghost use Rattle.std.specs.Prelude.{◌≡◌};
ghost use Rattle.mon_rounds.specs.Freshness.{is_late_from, late_after, late_from, no_row, with_late};

use crate::reporting::Notice;
use crate::round::Span;
use mon_poller::ResponseFault;
use mon_station::StationFault;
use mon_udp::Addr;

/// Rounds, one after another, in each of which late datagrams came, or in the time after it. A
/// datagram is late if it responds to no open poll.
#[derive(Clone, Copy, Debug)]
pub struct LateRow {
    /// How many rounds it has, at most 2^32 - 1.
    pub rounds: u32,
    /// How many late datagrams came in them, at most 2^64 - 1.
    pub datagrams: u64,
    /// `true` if one of them came in the last round, or in the time after it so far.
    pub counted: bool,
}

impl LateRow {
    /// Returns a row of no round.
    pub(crate) fn new() -> Self
        ensures { result ≡ no_row }
    {
        LateRow {
            rounds: 0,
            datagrams: 0,
            counted: false,
        }
    }
}

/// Returns a row after a round, or the time after it, in which this many late datagrams came. At
/// the beginning of a round it ends if none came in the round before, or in the time after it.
pub(crate) fn late_after(row: LateRow, span: Span, datagrams: u64) -> LateRow
    ensures { result ≡ late_after span datagrams row }
{
    match span {
        Span::Round if row.counted => {
            let begun = LateRow {
                counted: false,
                ..row
            };
            add_late(begun, datagrams)
        }
        Span::Round => add_late(LateRow::new(), datagrams),
        Span::Between(_) => add_late(row, datagrams),
    }
}

/// Returns a row with this many late datagrams more. The first ones of a round make it longer.
fn add_late(row: LateRow, datagrams: u64) -> LateRow
    ensures { result ≡ with_late datagrams row }
{
    if datagrams == 0 {
        return row;
    }
    LateRow {
        rounds: if row.counted {
            row.rounds
        } else {
            row.rounds.saturating_add(1)
        },
        datagrams: row.datagrams.saturating_add(datagrams),
        counted: true,
    }
}

/// Returns how many late datagrams came from this address.
pub(crate) fn count_late(notices: &[Notice], address: Addr) -> u64
    ensures { result ≡ late_from address notices.now }
{
    let mut count = 0;
    for notice in notices {
        if is_late_from(*notice, address) {
            count += 1;
        }
    }
    count
}

/// Returns `true` if a notice is that of a late datagram from this address: one that responds to no
/// open poll.
fn is_late_from(notice: Notice, address: Addr) -> bool
    ensures { result ≡ is_late_from address notice }
{
    match notice {
        Notice::BadResponse(from, StationFault::Response(ResponseFault::Stray)) => from == address,
        _ => false,
    }
}
