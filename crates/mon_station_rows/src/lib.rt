//! Rows of a station over a disk in memory, of worlds of stations and of a keeper. They are rows of
//! tests, which mon_rows answers.
//!
//!     station new               an empty disk, without a station; no answer is printed
//!     station open [SIZE]       opens the station from the disk, with windows of 8 or SIZE
//!                               samples; a new one is empty
//!     station open long         the same with the longest engine id and name, and windows of 64
//!     station poll TARGET       starts a poll, by the target's number
//!     station timeout ID        says that a poll was not answered in time
//!     station agent HEX         a datagram from the target's address
//!     station peer HEX          a datagram from a peer
//!     station share PEER        offers a peer what it is owed
//!     station save              saves
//!     station owed PEER         how many samples the peer is owed, and its known incarnation
//!     station report            the report
//!     station interrupted       the report, by a writer of which every other call is interrupted
//!     station run TURNS S O: EVENT; EVENT   runs the station over these events, lines as above
//!                               without their first word; call S of the source and call O of the
//!                               outbox fail
//!     station stop CALLS KEEP   saves while only CALLS calls of the disk pass, and goes on with
//!                               what a crash leaves: `keep` or `lose`
//!     world COUNT SHARES        a world of COUNT stations in which SHARES offers are made and
//!                               delivered in one run

#![tactic(auto)]

mod asking;
mod events;
mod interrupting;
mod keeper;
mod printing;
mod running;
mod setting;
mod worlds;

pub use asking::Stage;
pub use keeper::answer as answer_keeper;
pub use keeper::real_file::{print_found, save_on, time_saves};
pub use worlds::world;
