/// What may be done with the variables of an object (MAX-ACCESS, RFC 2578 section 7.3). Of its
/// values two are served.
#[derive(Clone, Copy, Debug, PartialEq, Eq)]
pub enum MaxAccess {
    /// They may be read.
    ReadOnly,
    /// They may be read, and changed by a Set.
    ReadWrite,
}
