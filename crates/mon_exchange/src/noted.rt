ghost use Rattle.std.specs.Prelude.{◌≡◌};
ghost use Rattle.mon_exchange.specs.Peers as peers;

/// What became of a claim that was noted.
#[derive(Clone, Copy, Debug, PartialEq, Eq)]
pub enum Noted {
    /// It is of the incarnation that is known of its station.
    Counted,
    /// It is of an older incarnation: its samples were taken, and none was marked.
    OlderIncarnation,
    /// It is of the first incarnation that is received, or of a newer one: the marks of earlier
    /// claims are gone.
    NewIncarnation,
}

/// What becomes of a claim of this incarnation, by the one that is known.
pub(crate) fn noted_as(known: Option<u32>, incarnation: u32) -> Noted
    ensures { result ≡ peers.noted_as known incarnation }
{
    match known {
        None => Noted::NewIncarnation,
        Some(known) if known < incarnation => Noted::NewIncarnation,
        Some(known) if known == incarnation => Noted::Counted,
        Some(_) => Noted::OlderIncarnation,
    }
}

/// The greater of this incarnation and the one that is known.
pub(crate) fn latest(known: Option<u32>, incarnation: u32) -> u32
    ensures { result ≡ peers.latest known incarnation }
{
    match known {
        None => incarnation,
        Some(known) => known.max(incarnation),
    }
}
