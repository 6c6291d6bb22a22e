//! What pages show: four texts, each of which is made when it is asked for.

use std::alloc::AllocError;

/// A text that pages show.
#[derive(Clone, Copy)]
pub enum Text {
    /// The figures in Prometheus' text format, version 0.0.4.
    Metrics,
    /// The figures in OpenMetrics 1.0.
    OpenMetrics,
    /// The report as JSON.
    Report,
    /// The page for a browser.
    Page,
}

/// What pages show. What its texts say is fixed; a text is made when it is first asked for, and
/// copied for each request.
pub trait Content: Drop {
    ghost use Rattle.std.specs.Prelude.{◌≡◌, OnOk};
    ghost use Rattle.mon_web.specs.Texts.{Texts, text_of};
    ghost use Rattle.mon_web.specs.declared.content.Text.{Text as AnyText};

    // What its texts say, whether they are made or not.
    ghost says: { Self → Texts };

    // This text is made.
    ghost made: { Self → AnyText → Type 0 };

    /// Makes this text, if it is not made.
    ///
    /// # Errors
    /// `AllocError` if there is no memory for it.
    fn make(&mut self, text: Text) -> Result<(), AllocError>
        ensures made { OnOk result (made self.new text) }
        ensures says { says self.new ≡ says self.old };

    /// Returns this text, which must be made.
    fn text(&self, text: Text) -> &[u8]
        requires { made self.now text }
        ensures { result.now ≡ text_of text (says self.now) };
}
