//! The places for connections: how long a client has for what, and whose place a newcomer gets.

ghost use Rattle.std.specs.Prelude.{◌≡◌, ◌↔◌, IfNone, IfSome, IsTrue};
ghost use Rattle.std.specs.List.{position};
ghost use Rattle.mon_web.specs.Slot.{IsChosen, IsLate, IsOldest, NoneFits, is_free, limit_of, may_yield};

/// How many connections there are at most.
pub(crate) const SLOTS: usize = 32;

/// How long a client has for a request, and for taking a response, in milliseconds.
const ASKING_MS: u64 = 10_000;

/// How long a client has for closing after its last response, in milliseconds.
const CLOSING_MS: u64 = 2_000;

/// How long a client that was not answered yet is spared if a newcomer needs its place, in
/// milliseconds.
pub(crate) const SPARED_MS: u64 = 100;

/// What a place waits for.
#[derive(Clone, Copy, Debug, PartialEq, Eq)]
pub enum Stage {
    /// A client.
    Free,
    /// The client's first request.
    Asking,
    /// A further request.
    Idle,
    /// That the client takes the response.
    Sending,
    /// That the client closes, after its last response.
    Closing,
}

impl Stage {
    /// How long a client may stay in this stage, in milliseconds.
    fn limit(self) -> Option<u64>
        ensures { result ≡ limit_of self }
    {
        match self {
            Stage::Free => None,
            Stage::Asking | Stage::Idle | Stage::Sending => Some(ASKING_MS),
            Stage::Closing => Some(CLOSING_MS),
        }
    }

    /// Returns `true` if it is that of a place without a client.
    pub(crate) fn is_free(self) -> bool
        ensures { result ≡ is_free self }
    {
        match self {
            Stage::Free => true,
            _ => false,
        }
    }
}

/// A place for a connection.
#[derive(Clone, Copy, Debug, PartialEq, Eq)]
pub struct Slot {
    pub stage: Stage,
    /// When this stage started, in milliseconds since the station's start.
    pub since: u64,
    /// Something may be done for its client at once.
    pub is_ready: bool,
}

/// Returns `true` if a client has been in its stage for as long as it may: 10 seconds for a request
/// or for a response, 2 seconds after its last one.
pub fn is_late(slot: Slot, now: u64) -> bool
    ensures { IsTrue result ↔ IsLate now slot }
{
    match slot.stage.limit() {
        Some(limit) => now.saturating_sub(slot.since) >= limit,
        None => false,
    }
}

/// Returns `true` if a client may be closed for a newcomer: nothing that it sent is unread, and it
/// owes a further request, or for 100 ms its first one or its close.
fn may_yield(slot: Slot, now: u64) -> bool
    ensures { result ≡ may_yield now slot }
{
    if slot.is_ready {
        return false;
    }
    match slot.stage {
        Stage::Idle => true,
        Stage::Asking | Stage::Closing => now.saturating_sub(slot.since) >= SPARED_MS,
        Stage::Free | Stage::Sending => false,
    }
}

/// Returns which place a newcomer gets: the first free one; or else that of the client that waits
/// longest, of those that may be closed for it. `None` if there is none: then the newcomer waits.
pub fn choose_slot(slots: &[Slot], now: u64) -> Option<usize>
    ensures chosen { IfSome result (λ place. IsChosen now slots.now place) }
    ensures none { IfNone result (NoneFits now slots.now) }
{
    match free_slot(slots) {
        Some(place) => Some(place),
        None => oldest(slots, now),
    }
}

/// Returns the first free place.
fn free_slot(slots: &[Slot]) -> Option<usize>
    ensures { result ≡ position (λ (s : _). is_free s.stage) slots.now }
{
    slots.iter().position(|slot| slot.stage.is_free())
}

/// Returns the place of the client that waits longest, of those that may be closed for a newcomer.
fn oldest(slots: &[Slot], now: u64) -> Option<usize>
    ensures { IsOldest now slots.now result }
{
    let mut found: Option<usize> = None;
    let mut since = u64::MAX;
    for (place, slot) in slots.iter().enumerate() {
        if may_yield(*slot, now) && (found.is_none() || slot.since < since) {
            found = Some(place);
            since = slot.since;
        }
    }
    found
}
