/// What a request does with a name, if it may (viewType, RFC 3415 section 3.2).
#[derive(Clone, Copy, Debug, PartialEq, Eq)]
pub enum ViewType {
    /// Get, GetNext and GetBulk.
    Read,
    /// Set.
    Write,
}
