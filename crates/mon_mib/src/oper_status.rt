ghost use Rattle.std.specs.Prelude.{◌≡◌};
ghost use Rattle.mon_mib.specs.Status.{oper_number};

/// The status that an interface is in (ifOperStatus, RFC 2863 section 6).
#[derive(Clone, Copy, Debug, PartialEq, Eq)]
pub enum OperStatus {
    /// Ready to pass packets.
    Up = 1,
    /// Passing none.
    Down = 2,
    /// In a test mode.
    Testing = 3,
    /// It isn't known.
    Unknown = 4,
    /// Waiting for some event.
    Dormant = 5,
    /// Some component is missing.
    NotPresent = 6,
    /// Down because of a layer below.
    LowerLayerDown = 7,
}

impl OperStatus {
    /// The number that means it, 1 to 7.
    pub fn number(self) -> i32
        ensures { result ≡ oper_number self }
    {
        self as i32
    }
}
