//! What a station answers to a request.

ghost use Rattle.std.specs.Prelude.{◌≡◌};
ghost use Rattle.mon_http.specs.Response.{body_text, reply_of};

use crate::body::{Body, unhealthy_body};
use crate::response::{Media, Status};

/// The last round that ended.
#[derive(Clone, Copy)]
pub struct LastRound {
    /// Its number.
    pub number: u32,
    /// How long ago it ended, in whole seconds.
    pub seconds: u64,
}

/// What a station answers. Each route has its own; `OutOfMemory` is for any.
#[derive(Clone, Copy)]
pub enum Answer<'a> {
    /// To `/metrics`: figures in Prometheus' text format, version 0.0.4.
    Metrics(&'a [u8]),
    /// To `/metrics`: figures in OpenMetrics 1.0.
    OpenMetrics(&'a [u8]),
    /// To `/report.json`: the report as JSON.
    Report(&'a [u8]),
    /// To `/`: the page.
    Page(&'a [u8]),
    /// To `/healthz`: rounds end in time, and the last was this one.
    Healthy(LastRound),
    /// To `/healthz`: no round ended in time. The last was this one, if any ended.
    Unhealthy(Option<LastRound>),
    /// No memory for the body.
    OutOfMemory,
}

impl<'a> Answer<'a> {
    /// Returns the status, 200 or 503.
    pub(crate) fn status(self) -> Status
        ensures { result ≡ (reply_of self.entry).status }
    {
        match self {
            Answer::Unhealthy(_) | Answer::OutOfMemory => Status::ServiceUnavailable,
            _ => Status::Success,
        }
    }

    /// Returns the type of the body.
    pub(crate) fn media(self) -> Media
        ensures { result ≡ (reply_of self.entry).media }
    {
        match self {
            Answer::Metrics(_) => Media::Prometheus,
            Answer::OpenMetrics(_) => Media::OpenMetrics,
            Answer::Report(_) => Media::Json,
            Answer::Page(_) => Media::Html,
            _ => Media::Plain,
        }
    }

    /// Returns the body.
    #[tactic(auto, unfolding(crate::specs::Response::text_with))]
    pub(crate) fn body(self) -> Body<'a>
        ensures { body_text result ≡ (reply_of self.entry).body }
    {
        match self {
            Answer::Metrics(text)
            | Answer::OpenMetrics(text)
            | Answer::Report(text)
            | Answer::Page(text) => Body { text, last: None },
            Answer::Healthy(last) => Body {
                text: b"ok: ",
                last: Some(last),
            },
            Answer::Unhealthy(last) => unhealthy_body(last),
            Answer::OutOfMemory => Body {
                text: b"out of memory\n",
                last: None,
            },
        }
    }
}
