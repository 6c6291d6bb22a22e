//! What is answered on a connection.

ghost use Rattle.std.specs.Prelude.{◌≡◌, ◌⊎◌, [], false, IfOk, OnErr, OnOk};
ghost use Rattle.mon_http.specs.Conversation.{with_reply};
ghost use Rattle.mon_http.specs.Request.{IsJudged};
ghost use Rattle.mon_http.specs.declared.request.Verdict.{Verdict};
ghost use Rattle.mon_http.specs.declared.request.Verdict.TheVariants as Verdicts;
ghost use Rattle.mon_web.specs.Response.{IsResponse};
ghost use Rattle.mon_web.specs.Pages.{out_of_memory, reply_for, view_of};

use crate::content::Content;
use crate::pages::Pages;
use httpdate::HttpDate;
use mon_http::{Answer, Connection, Request, StepOutcome};
use std::alloc::AllocError;

/// A time.
#[derive(Clone, Copy)]
pub struct Moment {
    /// In milliseconds since the station's start.
    pub now: u64,
    /// By the wall clock, if that is in range of a date.
    pub date: Option<HttpDate>,
}

/// Answers what came on a connection, by what the pages show. Returns `true` if there was something
/// to answer. If there is no memory for a text, that is answered.
///
/// # Errors
/// `AllocError` if there is no memory for a response; the connection does not change then.
pub(crate) fn respond<C: Content>(
    connection: &mut Connection,
    pages: &mut Pages<C>,
    at: Moment,
) -> Result<bool, AllocError>
    requires open { connection.old.closing ≡ false }
    requires sent { connection.old.unsent ≡ [] }
    ensures answered { IfOk result (λ done. IsResponse (view_of C.says pages.old) at connection.old
        done connection.new) }
    ensures kept { OnErr result (connection.new ≡ connection.old) }
    ensures cause { OnErr result (
        (v : Verdict) × IsJudged (view_of C.says pages.old).names connection.old.unread v) }
    ensures pages { view_of C.says pages.new ≡ view_of C.says pages.old }
{
    match connection.step(at.date, pages.names())? {
        StepOutcome::Wait => Ok(false),
        StepOutcome::Refused => Ok(true),
        StepOutcome::Asked(request) => {
            answer_or_tell(connection, pages, at, request)?;
            Ok(true)
        }
    }
}

/// Answers a request for a host of the pages' by what the pages show, or that there is no memory
/// for that.
fn answer_or_tell<C: Content>(
    connection: &mut Connection,
    pages: &mut Pages<C>,
    at: Moment,
    request: Request,
) -> Result<(), AllocError>
    requires open { connection.old.closing ≡ false }
    requires sent { connection.old.unsent ≡ [] }
    requires asked { IsJudged (view_of C.says pages.old).names connection.old.unread
        (Verdicts.Asked request) }
    ensures answered { OnOk result (
        (connection.new ≡
        with_reply at.date request (reply_for (view_of C.says pages.old) at.now request.route)
        connection.old)
        ⊎ (connection.new ≡ with_reply at.date request out_of_memory connection.old)) }
    ensures kept { OnErr result (connection.new ≡ connection.old) }
    ensures pages { view_of C.says pages.new ≡ view_of C.says pages.old }
{
    if pages.make(request.route).is_err() {
        return connection.answer(at.date, pages.names(), request, Answer::OutOfMemory);
    }
    let said = pages.answer(request.route, at.now);
    match connection.answer(at.date, pages.names(), request, said) {
        Ok(()) => Ok(()),
        Err(_) => connection.answer(at.date, pages.names(), request, Answer::OutOfMemory),
    }
}
