//! Why a text is no module.

ghost use Rattle.std.specs.Prelude.{◌≡◌};
ghost use Rattle.mon_smi.specs.declared.text_fault.TextFault.TheVariants as text;
ghost use Rattle.mon_smi.specs.TextFaults.{number_of_text, name_of_text};

use crate::token::Span;
use std::alloc::{AllocError, AllocFailed};
use thiserror::Error;

/// Why a text is no module, in the order of the faults' numbers.
#[derive(Clone, Copy, Debug, Error)]
pub enum TextFault {
    /// Memory was refused.
    #[error("out of memory")]
    OutOfMemory,
    /// The text ends inside a quoted string, or before the module's END.
    #[error("the text ends too early")]
    Unclosed,
    /// No token begins here, or the token here is another one than a module has at its place.
    #[error("unexpected text")]
    Unexpected(Span),
    /// The value name here is defined already.
    #[error("a name is defined twice")]
    Duplicate(Span),
}

impl TextFault {
    /// The number of the fault, 1 to 4.
    pub fn number(self) -> u8
        ensures { result ≡ number_of_text self }
    {
        match self {
            TextFault::OutOfMemory => 1,
            TextFault::Unclosed => 2,
            TextFault::Unexpected(_) => 3,
            TextFault::Duplicate(_) => 4,
        }
    }

    /// The name of the fault, as a report prints it.
    pub fn name(self) -> &'static str
        ensures { result.now ≡ name_of_text self }
    {
        match self {
            TextFault::OutOfMemory => "OutOfMemory",
            TextFault::Unclosed => "Unclosed",
            TextFault::Unexpected(_) => "Unexpected",
            TextFault::Duplicate(_) => "Duplicate",
        }
    }
}

impl From<AllocError> for TextFault {
    ghost from_gives = { λ _ e. e ≡ text.OutOfMemory };

    fn from(_e: AllocError) -> TextFault {
        TextFault::OutOfMemory
    }
}

impl<T: Drop> From<AllocFailed<T>> for TextFault {
    ghost from_gives = { λ _ e. e ≡ text.OutOfMemory };

    fn from(_e: AllocFailed<T>) -> TextFault {
        TextFault::OutOfMemory
    }
}
