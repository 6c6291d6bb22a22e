ghost use Rattle.std.specs.Prelude.{◌≡◌};
ghost use Rattle.mon_mib.specs.Objects.{read_only, read_write};
ghost use Rattle.mon_mib.specs.Standing.{as_row};

use crate::max_access::MaxAccess;
use mon_ber::Tag;

/// What the standards give of an object (RFC 2578 section 7).
#[derive(Clone, Copy)]
pub(crate) struct Row {
    /// The object's own name, with which the names of its variables begin.
    pub prefix: &'static [u32],
    /// The tag of its values (SYNTAX).
    pub syntax: Tag,
    /// What may be done with its variables (MAX-ACCESS).
    pub access: MaxAccess,
}

/// An object whose variables may be read.
pub(crate) fn read_only(syntax: Tag, prefix: &'static [u32]) -> Row
    ensures { as_row result ≡ read_only syntax prefix.now }
{
    let access = MaxAccess::ReadOnly;
    Row {
        prefix,
        syntax,
        access,
    }
}

/// An object whose variables a Set may change too.
pub(crate) fn read_write(syntax: Tag, prefix: &'static [u32]) -> Row
    ensures { as_row result ≡ read_write syntax prefix.now }
{
    let access = MaxAccess::ReadWrite;
    Row {
        prefix,
        syntax,
        access,
    }
}
