//! What the status of a response says of a text.

ghost use Rattle.std.specs.Prelude.{◌≡◌};
ghost use Rattle.mon_courier.specs.Verdict.{verdict_of};

/// What becomes of a text after a response.
#[derive(Clone, Copy, Debug, PartialEq, Eq)]
pub(crate) enum Verdict {
    /// It was delivered.
    Delivered,
    /// It is tried again.
    TriedAgain,
    /// The receiver refuses it for good.
    Refused,
}

/// Returns what becomes of a text after a response of this status (RFC 9110 section 15).
pub(crate) fn verdict_of(status: u16) -> Verdict
    ensures { result ≡ verdict_of status }
{
    if status < 200 {
        Verdict::TriedAgain
    } else if status < 300 {
        Verdict::Delivered
    } else if status == 408 || status == 429 || status >= 500 {
        Verdict::TriedAgain
    } else {
        Verdict::Refused
    }
}
