//! Why reading tokens broke off.

ghost use Rattle.std.specs.Prelude.{◌≡◌};
ghost use Rattle.mon_smi.specs.declared.read_fault.ReadFault.TheVariants as read;

use crate::lexeme::Lexeme;
use std::alloc::{AllocError, AllocFailed};

/// Why tokens are no module, or not what else was read for.
#[derive(Clone, Copy)]
pub(crate) enum ReadFault<'a, 's> {
    /// Memory was refused.
    OutOfMemory,
    /// Another token is expected in place of the first of these; if there is none the text ends too
    /// early.
    BrokenOff(&'a [Lexeme<'s>]),
}

impl<'a, 's> From<AllocError> for ReadFault<'a, 's> {
    ghost from_gives = { λ _ e. e ≡ read.OutOfMemory };

    fn from(_e: AllocError) -> ReadFault<'a, 's> {
        ReadFault::OutOfMemory
    }
}

impl<'a, 's, T: Drop> From<AllocFailed<T>> for ReadFault<'a, 's> {
    ghost from_gives = { λ _ e. e ≡ read.OutOfMemory };

    fn from(_e: AllocFailed<T>) -> ReadFault<'a, 's> {
        ReadFault::OutOfMemory
    }
}
