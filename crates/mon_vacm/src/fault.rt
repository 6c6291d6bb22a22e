ghost use Rattle.std.specs.Prelude.{◌≡◌};
ghost use Rattle.mon_vacm.specs.PolicyFault.{number_of, name_of};

use thiserror::Error;

/// Why tables make no policy. `Policy::new` allocates nothing, so memory never runs out.
#[derive(Clone, Copy, Debug, PartialEq, Eq, Error)]
pub enum PolicyFault {
    #[error("a community is given twice")]
    DuplicateCommunity = 2,
    #[error("an access entry names a view that has no family")]
    UnknownView = 3,
    #[error("a view has a subtree twice")]
    DuplicateFamily = 4,
}

impl PolicyFault {
    /// Returns the number by which a printed line names the fault.
    pub fn number(self) -> u8
        ensures { result ≡ number_of self }
    {
        self as u8
    }

    /// Returns the name of the fault in a printed line.
    pub fn name(self) -> &'static str
        ensures { result.now ≡ name_of self }
    {
        match self {
            PolicyFault::DuplicateCommunity => "DuplicateCommunity",
            PolicyFault::UnknownView => "UnknownView",
            PolicyFault::DuplicateFamily => "DuplicateFamily",
        }
    }
}
