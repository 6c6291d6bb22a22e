//! What a wire in memory writes down.

/// What happened at the wire.
#[derive(Drop)]
pub enum Event {
    /// These octets were sent.
    Sent(Vec<u8>),
    /// A datagram was received.
    Heard(Vec<u8>),
    /// Something else was received.
    Other,
    /// The wait was over.
    Quiet,
}
