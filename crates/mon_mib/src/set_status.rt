//! Why a binding of a Set is refused.

ghost use Rattle.std.specs.Prelude.{◌≡◌};
ghost use Rattle.mon_mib.specs.SetStatus.{status_number};

/// The error-status of a binding that a Set may not assign, in the order of RFC 3416 section 3.
#[derive(Clone, Copy, Debug, PartialEq, Eq)]
pub enum SetStatus {
    /// The name is outside the view.
    NoAccess = 6,
    /// The value's tag is not that of the object's syntax.
    WrongType = 7,
    /// The text is longer than the object's may be.
    WrongLength = 8,
    /// The number is not one of the object's.
    WrongValue = 10,
    /// There is no such instance, and none can be made.
    NoCreation = 11,
    /// The name is under no object that a Set may change.
    NotWritable = 17,
}

impl SetStatus {
    /// The number that means it in a Response-PDU (error-status, RFC 3416 section 3).
    pub fn number(self) -> i32
        ensures { result ≡ status_number self }
    {
        self as i32
    }
}
