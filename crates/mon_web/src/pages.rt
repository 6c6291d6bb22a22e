//! What a station shows over HTTP.

ghost use Rattle.std.specs.Prelude.{◌≡◌, IfSome, IsTrue, None, OnOk, Some};
ghost use Rattle.mon_http.specs.Response.{fits, reply_of};
ghost use Rattle.mon_http.specs.declared.route.Route.TheVariants as Route;
ghost use Rattle.mon_web.specs.Pages.{IsMadeFor, ended_at, health_reply, is_healthy, reply_for, view_of};

use crate::content::{Content, Text};
use mon_http::{Answer, LastRound, Route};
use std::alloc::AllocError;

/// The end of a round.
#[derive(Clone, Copy)]
pub(crate) struct Ended {
    /// The round's number.
    pub round: u32,
    /// When it ended, in milliseconds since the station's start.
    pub at: u64,
}

/// What is shown: the texts, and whether rounds end in time; and by which names.
pub struct Pages<C> {
    /// The names of the host that are served, besides `localhost` and addresses.
    pub(crate) names: Vec<String>,
    /// What the texts are built from. None if there was no memory for it.
    pub(crate) content: Option<C>,
    /// The end of the last round, if any ended.
    pub(crate) ended: Option<Ended>,
    /// How long after it the station is healthy, in milliseconds.
    pub(crate) limit: u64,
}

// By hand: where one is let go, a proof has one call and not a drop of each field.
impl<C: Drop> Drop for Pages<C> {
    fn drop(self) {
        let Pages {
            names: _,
            content: _,
            ended: _,
            limit: _,
        } = self;
    }
}

impl<C: Content> Pages<C> {
    /// Pages without texts, of a station whose rounds have to end within `limit` milliseconds of
    /// one another. A request for a host by a name is answered if the name is `localhost` or one of
    /// these, in any case and with any port; by an address it always is.
    pub fn new(limit: u64, names: Vec<String>) -> Self
        ensures names { result.names ≡ names }
        ensures content { result.content ≡ None }
        ensures ended { result.ended ≡ None }
        ensures limit { result.limit ≡ limit }
    {
        Pages {
            names,
            content: None,
            ended: None,
            limit,
        }
    }

    /// Returns the names that are served, besides `localhost` and addresses.
    pub(crate) fn names(&self) -> &[String]
        ensures { result.now ≡ self.now.names.items }
    {
        self.names.as_slice()
    }

    /// Replaces what the texts are built from; by nothing if there was no memory for it.
    pub fn show(&mut self, content: Option<C>)
        ensures content { self.new.content ≡ content }
        ensures ended { self.new.ended ≡ self.old.ended }
        ensures limit { self.new.limit ≡ self.old.limit }
        ensures names { self.new.names ≡ self.old.names }
    {
        self.content = content;
    }

    /// Takes away what the texts are built from, so that its buffers serve again. Until it is shown
    /// there are no texts.
    pub fn take_content(&mut self) -> Option<C>
        ensures taken { result ≡ self.old.content }
        ensures content { self.new.content ≡ None }
        ensures ended { self.new.ended ≡ self.old.ended }
        ensures limit { self.new.limit ≡ self.old.limit }
        ensures names { self.new.names ≡ self.old.names }
    {
        self.content.take()
    }

    /// Takes note that the round of this number ended at this time, in milliseconds since the
    /// station's start.
    pub fn note_round(&mut self, at: u64, number: u32)
        ensures ended { self.new.ended ≡ Some (ended_at at number) }
        ensures content { self.new.content ≡ self.old.content }
        ensures limit { self.new.limit ≡ self.old.limit }
        ensures names { self.new.names ≡ self.old.names }
    {
        self.ended = Some(Ended { round: number, at });
    }

    /// Returns `true` if a round ended within the limit before now.
    pub fn is_healthy(&self, now: u64) -> bool
        ensures { result ≡ is_healthy self.now.ended self.now.limit now }
    {
        match self.ended {
            Some(ended) => now.saturating_sub(ended.at) <= self.limit,
            None => false,
        }
    }

    /// Makes the text for this route, if the route has one.
    ///
    /// # Errors
    /// `AllocError` if there is no memory for it. What the pages answer stays in any case.
    pub(crate) fn make(&mut self, route: Route) -> Result<(), AllocError>
        ensures made { OnOk result (IsMadeFor C.made self.new.content route) }
        ensures view { view_of C.says self.new ≡ view_of C.says self.old }
        ensures names { self.new.names ≡ self.old.names }
    {
        match route {
            Route::Metrics => self.make_text(Text::Metrics),
            Route::OpenMetrics => self.make_text(Text::OpenMetrics),
            Route::Report => self.make_text(Text::Report),
            Route::Page => self.make_text(Text::Page),
            Route::Health => Ok(()),
        }
    }

    /// Makes a text, if there is something to make it of.
    fn make_text(&mut self, text: Text) -> Result<(), AllocError>
        ensures made { OnOk result (IfSome self.new.content (λ c. C.made c text)) }
        ensures view { view_of C.says self.new ≡ view_of C.says self.old }
        ensures names { self.new.names ≡ self.old.names }
    {
        match &mut self.content {
            Some(content) => content.make(text),
            None => Ok(()),
        }
    }

    /// Returns what is answered to a request for this route at this time. The text for it must be
    /// made.
    pub(crate) fn answer(&self, route: Route, now: u64) -> Answer<'_>
        requires { IsMadeFor C.made self.now.content route }
        ensures reply { reply_of result ≡ reply_for (view_of C.says self.now) now route }
        ensures fits { IsTrue (fits route result) }
    {
        match (route, &self.content) {
            (Route::Health, _) => self.health(now),
            (_, None) => Answer::OutOfMemory,
            (Route::Metrics, Some(content)) => Answer::Metrics(content.text(Text::Metrics)),
            (Route::OpenMetrics, Some(content)) => {
                Answer::OpenMetrics(content.text(Text::OpenMetrics))
            }
            (Route::Report, Some(content)) => Answer::Report(content.text(Text::Report)),
            (Route::Page, Some(content)) => Answer::Page(content.text(Text::Page)),
        }
    }

    /// Returns whether rounds end in time, which one ended last, and how long before now.
    fn health(&self, now: u64) -> Answer<'_>
        ensures reply { reply_of result ≡ health_reply self.now.ended self.now.limit now }
        ensures fits { IsTrue (fits Route.Health result) }
    {
        let Some(ended) = self.ended else {
            return Answer::Unhealthy(None);
        };
        let last = LastRound {
            number: ended.round,
            seconds: now.saturating_sub(ended.at) / 1000,
        };
        if self.is_healthy(now) {
            Answer::Healthy(last)
        } else {
            Answer::Unhealthy(Some(last))
        }
    }
}
