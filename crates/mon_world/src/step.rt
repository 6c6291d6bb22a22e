//! The steps of a world.

/// What happens in a world. Stations and targets count from 1, and so do the datagrams between
/// stations.
#[derive(Clone, Copy)]
pub enum Step<'a> {
    /// A station starts a poll of a target.
    StartPoll(u32, u32),
    /// These octets come to a station from the address of a target, or from a strange one if there
    /// is no such target.
    AgentSays(u32, u32, &'a [u8]),
    /// A station's poll of this request-id was not answered in time.
    Timeout(u32, u32),
    /// A station offers a peer what it is owed.
    Share(u32, u32),
    /// A datagram comes to the station that it was sent to.
    Deliver(u64),
    /// A station saves.
    Save(u32),
    /// A station is opened again from its disk.
    Restart(u32),
    /// These octets come to a station as if from a peer.
    Forge(u32, &'a [u8]),
    /// A station stops within a save after 0 to 6 calls of the disk, and is opened again from what
    /// a crash left: with all that was written since the last sync, or without it.
    Stop(u32, u8, bool),
}
