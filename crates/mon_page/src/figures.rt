//! What a station says of itself.

/// What a station says of itself.
#[derive(Debug)]
pub struct Figures {
    /// Its number.
    pub station: u32,
    /// How often it was started over its file.
    pub incarnation: u32,
    /// How many samples it took since its start.
    pub taken: u64,
    /// How many polls it gave up since its start.
    pub given_up: u64,
    /// By the station number of each peer how many samples it owes that peer.
    pub debts: Vec<(u32, u32)>,
    /// What it says of each peer, in the order of its settings.
    pub peers: Vec<PeerFigures>,
    /// How many of its saves failed since its start.
    pub failed_saves: u64,
    /// How many datagrams came since its start from an address of no target and no peer.
    pub strangers: u64,
    /// How many notifications it could not deliver and dropped since its start; `None` where it
    /// sends none.
    pub notifications_dropped: Option<u64>,
    /// When its last round ended, in seconds since 1970-01-01 00:00:00 UTC; `None` before the end
    /// of its first one.
    pub round_at: Option<u64>,
    /// How long its last round took, in milliseconds.
    pub round_ms: u64,
    /// How many of its rounds took longer than the interval since its start.
    pub overruns: u64,
    /// What it says of each target, in their order.
    pub targets: Vec<TargetFigures>,
    /// Of each instance, in their order, in how many rounds it had no new sample.
    pub ages: Vec<u32>,
    /// From which age on an instance is stale: then no format says anything of its rate and alarms.
    pub stale_after: u32,
    /// How many seconds lie between the beginnings of two rounds, at least; 0 for none.
    pub interval: u32,
}

// By hand: where one is let go, a proof has one call and not a drop of each field.
impl Drop for Figures {
    fn drop(self) {
        let Figures {
            station: _,
            incarnation: _,
            taken: _,
            given_up: _,
            debts: _,
            peers: _,
            failed_saves: _,
            strangers: _,
            notifications_dropped: _,
            round_at: _,
            round_ms: _,
            overruns: _,
            targets: _,
            ages: _,
            stale_after: _,
            interval: _,
        } = self;
    }
}

/// What a station says of a peer.
#[derive(Clone, Copy, Debug)]
pub struct PeerFigures {
    /// The peer's station number.
    pub station: u32,
    /// How many whole rounds went by since a datagram came from its address, or since the station's
    /// start.
    pub rounds: u32,
    /// Says whether it is silent: as many rounds went by as make an instance stale.
    pub silent: bool,
}

/// What a station says of a target.
#[derive(Debug)]
pub struct TargetFigures {
    /// The target's number, from 1.
    pub number: u32,
    /// Where its agent is reached, as `a.b.c.d:port`.
    pub address: String,
    /// The octets of the engine id that its responses must name.
    pub engine: Vec<u8>,
    /// Says whether its last poll was answered.
    pub up: bool,
    /// In how many rounds it did not answer since its last answer, or since the station's start.
    pub rounds: u32,
    /// How many seconds ago that was.
    pub seconds: u64,
    /// How many of its polls were given up since the station's start.
    pub given_up: u64,
    /// Why its last response was refused, if one was and no response was taken since.
    pub refusal: Option<String>,
}

// By hand: where one is let go, a proof has one call and not a drop of each field.
impl Drop for TargetFigures {
    fn drop(self) {
        let TargetFigures {
            number: _,
            address: _,
            engine: _,
            up: _,
            rounds: _,
            seconds: _,
            given_up: _,
            refusal: _,
        } = self;
    }
}
