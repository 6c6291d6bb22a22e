//! The names of error statuses.

ghost use Rattle.std.specs.Prelude.{◌≡◌};
ghost use Rattle.std.specs.Option.{option_map};
ghost use Rattle.mon_poller.specs.Status.{status_name};

/// The names of the error statuses from 0 on (RFC 3416 section 3).
const NAMES: [&str; 19] = [
    "noError",
    "tooBig",
    "noSuchName",
    "badValue",
    "readOnly",
    "genErr",
    "noAccess",
    "wrongType",
    "wrongLength",
    "wrongEncoding",
    "wrongValue",
    "noCreation",
    "inconsistentValue",
    "resourceUnavailable",
    "commitFailed",
    "undoFailed",
    "authorizationError",
    "notWritable",
    "inconsistentName",
];

/// Returns the name of an error status, 0 to 18 (RFC 3416 section 3). Another number has none.
pub fn status_name(status: i32) -> Option<&'static str>
    ensures { option_map (λ name. name.now) result ≡ status_name status }
{
    match usize::try_from(status) {
        Ok(number) => NAMES.get(number).copied(),
        Err(_) => None,
    }
}
