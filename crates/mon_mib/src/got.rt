use mon_ber::Value;

/// What is at a name (RFC 3416 section 4.2.1).
#[derive(Drop)]
pub enum Got {
    /// A variable with this value.
    Found(Value),
    /// The name is under no served object.
    NoObject,
    /// The name is under a served object, and no variable's.
    NoInstance,
}
