//! What a station shows over HTTP, by its receiver.

use mon_rounds::{Receiver, SocketReceiver};
use mon_udp::{Receives, Ticks};
use mon_web::Content;

/// What a station receives datagrams by, and may show such content by.
pub trait Shows<C: Content>: Receiver {
    ghost use Rattle.std.specs.Prelude.{◌≡◌, None, Option, option_and_then, option_map};
    ghost use Rattle.std.specs.Option.{is_some};
    ghost use Rattle.mon_web.specs.Pages.{View, with_round, with_texts};

    // What it shows, if it shows anything.
    ghost shown: { Self → Option View };

    /// Returns `true` if it shows anything.
    fn is_shown(&self) -> bool
        ensures { result ≡ is_some (shown self.now) };

    /// Replaces what it shows; by nothing if there was no memory for it.
    fn show(&mut self, content: Option<C>)
        ensures shown { shown self.new
            ≡ option_map (with_texts (option_map C.says content)) (shown self.old) }
        ensures failures { Self.failures self.new ≡ Self.failures self.old };

    /// Takes away what it shows, so that its buffers serve again. Until it is shown there is
    /// nothing.
    fn take_content(&mut self) -> Option<C>
        ensures taken { option_map C.says result
            ≡ option_and_then (λ view. view.texts) (shown self.old) }
        ensures shown { shown self.new ≡ option_map (with_texts None) (shown self.old) }
        ensures failures { Self.failures self.new ≡ Self.failures self.old };

    /// Takes note that the round of this number ended at this time, in milliseconds since the
    /// station's start.
    fn note_round(&mut self, at: u64, number: u32)
        ensures shown { shown self.new ≡ option_map (with_round at number) (shown self.old) }
        ensures failures { Self.failures self.new ≡ Self.failures self.old };
}

impl<C: Content, R: Ticks, S: Receives> Shows<C> for SocketReceiver<'_, R, S> {
    ghost use Rattle.std.specs.Prelude.{◌≡◌, None};

    ghost shown = { λ _. None };

    fn is_shown(&self) -> bool {
        false
    }

    fn show(&mut self, content: Option<C>)
        ensures { self.new ≡ self.old }
    {
        let _ = content;
    }

    fn take_content(&mut self) -> Option<C> {
        None
    }

    fn note_round(&mut self, at: u64, number: u32) {
        let _ = at;
        let _ = number;
    }
}
