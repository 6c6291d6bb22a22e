//! The body of a response.

ghost use Rattle.std.specs.Prelude.{◌≡◌, ◌++◌, OnOk, length};
ghost use Rattle.mon_http.specs.Response.{body_text, unhealthy_text};

use crate::answer::LastRound;
use itoa::Buffer;
use std::alloc::AllocError;

/// The octets of a round's text that are not digits.
const ROUND_OCTETS: usize = 20;

/// The body of a response, which is written where it is sent from.
#[derive(Clone, Copy)]
pub(crate) struct Body<'a> {
    pub text: &'a [u8],
    /// The round that the body names after the text.
    pub last: Option<LastRound>,
}

impl Body<'_> {
    /// Returns the number of its octets.
    #[tactic(auto, unfolding(crate::specs::Response::text_with, crate::specs::Response::round_text))]
    pub(crate) fn len(self) -> usize
        ensures { result ≡ length (body_text self.entry) }
    {
        let Some(last) = self.last else {
            return self.text.len();
        };
        let mut digits = Buffer::new();
        let number = digits.format(last.number).len();
        let seconds = digits.format(last.seconds).len();
        self.text.len() + ROUND_OCTETS + number + seconds
    }

    /// Adds it to a response.
    #[tactic(auto, unfolding(crate::specs::Response::text_with, crate::specs::Response::round_text))]
    pub(crate) fn put(self, out: &mut Vec<u8>) -> Result<(), AllocError>
        ensures { OnOk result (out.new.items ≡ out.old.items ++ body_text self.entry) }
    {
        out.extend_from_slice(self.text)?;
        let Some(last) = self.last else {
            return Ok(());
        };
        let mut digits = Buffer::new();
        out.extend_from_slice(b"round ")?;
        out.extend_from_slice(digits.format(last.number).as_bytes())?;
        out.extend_from_slice(b" ended ")?;
        out.extend_from_slice(digits.format(last.seconds).as_bytes())?;
        out.extend_from_slice(b" s ago\n")
    }
}

/// Returns the body that says that no round ended in time, and which one ended last.
#[tactic(auto, unfolding(crate::specs::Response::text_with))]
pub(crate) fn unhealthy_body<'a>(last: Option<LastRound>) -> Body<'a>
    ensures { body_text result ≡ unhealthy_text last }
{
    match last {
        Some(last) => Body {
            text: b"no round ended in time: ",
            last: Some(last),
        },
        None => Body {
            text: b"no round ended in time\n",
            last: None,
        },
    }
}
