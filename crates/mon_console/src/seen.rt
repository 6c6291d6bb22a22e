//! What a station saw, and when.

use httpdate::HttpDate;
use mon_udp::Addr;

/// Which station saw a change, and when.
#[derive(Clone, Copy)]
pub struct Seen {
    /// The number of the station.
    pub station: u32,
    /// When it saw the change.
    pub date: HttpDate,
}

/// A device that is seen down or up.
#[derive(Clone, Copy)]
pub struct DeviceSeen {
    /// Where its agent is reached.
    pub target: Addr,
    /// `true` if it gives no answer, `false` if it answers again.
    pub is_down: bool,
}
