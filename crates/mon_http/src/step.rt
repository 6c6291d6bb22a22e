//! What a step of a connection comes to.

use crate::request::Request;

/// What a step of a connection comes to.
#[derive(Clone, Copy)]
pub enum StepOutcome {
    /// More octets are needed.
    Wait,
    /// A request waits for its answer.
    Asked(Request),
    /// A head was refused, and the refusal is pending.
    Refused,
}
