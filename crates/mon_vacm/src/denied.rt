/// Why a community has no view for a need, in the order of the tests (RFC 3415 section 3.2).
#[derive(Clone, Copy, Debug, PartialEq, Eq)]
pub enum Denied {
    /// No security name is given to the community.
    NoCommunity,
    /// The security name belongs to no group.
    NoGroupName,
    /// The group has no access entry with model 2 or any model.
    NoAccessEntry,
    /// The access entry names no view for the need.
    NoSuchView,
}
