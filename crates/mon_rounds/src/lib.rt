//! A station's rounds over sockets. It follows no standard. To run a station: `Addresses::of` its
//! core, a `SocketReceiver` and a `SocketOutbox` on one `Socket` of mon_udp, and `Rounds` over the
//! receiver. `Rounds::run` runs a `Station` through a round or the time between two,
//! `RoundReport::of` says what is reported of it, `Freshness::add` how long ago each target
//! answered and each instance had a new sample, and `Troubles::take_changes` what changed in that.
//! Contract: a round polls each target, receives, offers each peer what it is owed, receives again
//! and saves, in this order; after `Rounds::set_saves(false)` it ends without a save. What it gives
//! a station is fixed by what its receiver got. Only a datagram that was taken renews a wait, after
//! an idle wait each open poll is timed out once, and so a round ends soon whatever comes.
#![tactic(auto)]

mod addresses;
mod changes;
mod clock;
mod explaining;
mod freshness;
mod grid;
mod late;
pub mod laws;
mod polled;
mod receiver;
mod reporting;
mod round;
mod running;
mod socket;
mod source;
mod totals;

pub use addresses::Addresses;
pub use changes::{Change, Trouble, Troubles, other_engines};
pub use clock::{Clock, Restart};
pub use explaining::explain_stale;
pub use freshness::{Freshness, InstanceAge, PeerAge, SampleFields, Spell, TargetAge};
pub use grid::{milliseconds, next_start, phase_of};
pub use late::LateRow;
pub use polled::polled_targets;
pub use receiver::{Arrival, Receiver, ReceiverFault, Wait};
pub use reporting::{Notice, RoundReport};
pub use round::{Phase, Round, RoundEvent, Span};
pub use socket::{Sends, SocketOutbox, SocketReceiver, arrival_of};
pub use source::Rounds;
pub use totals::{Totals, debts_of, is_due, left_of};
