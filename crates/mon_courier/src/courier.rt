//! The courier.

ghost use Rattle.std.specs.Prelude.{◌≡◌, ◌-◌, ◌^◌, IfOk, min};
ghost use Rattle.mon_notify.specs.Mail.{after_put};
ghost use Rattle.mon_courier.specs.Courier.{all_dropped, failed, fresh, has_text, is_due, prepared, rest_of, with_mail, with_plan};
ghost use Rattle.mon_courier.specs.Plan.{after_loss, failure_news};
ghost use Rattle.mon_courier.specs.Turn.{IsBeginning, IsConnecting, IsFlight, IsStart, IsTurn, judged, judged_news, waited, waited_news};

use crate::exchange::{Exchange, Stop};
use crate::news::{Cause, News};
use crate::plan::Plan;
use crate::stream::Stream;
use crate::verdict::{Verdict, verdict_of};
use mon_http_client::Target;
use mon_notify::Outbox;
use mon_udp::Addr;
use std::alloc::{AllocError, Global};
use std::io;
use std::marker::Model;
use std::net::Net;

/// How often a stream is asked in a turn at most.
const MAX_CALLS: u8 = 32;

/// How long an attempt may take up to the end of the response's head, in milliseconds.
const LIMIT_MS: u64 = 5_000;

/// After how many milliseconds a turn is needed while a request is in flight.
const TICK_MS: u64 = 50;

/// A connection to the receiver.
#[derive(Drop)]
pub(crate) struct Line<S> {
    pub(crate) stream: S,
    /// When the attempt started, in milliseconds.
    pub(crate) since: u64,
}

/// Delivers texts to a receiver by HTTP POST, one at a time and in their order, over streams of
/// this kind. No call waits, and no call but [`CourierBy::new`] allocates.
#[derive(Drop)]
pub struct CourierBy<S> {
    outbox: Outbox,
    exchange: Exchange,
    /// The request is that of a text which was taken from the outbox.
    is_taken: bool,
    /// The connection over which it is delivered, while an attempt goes on.
    line: Option<Line<S>>,
    plan: Plan,
    address: Addr,
}

/// Delivers texts to a receiver over the operating system's streams.
pub type Courier = CourierBy<mio::net::TcpStream>;

impl<S> Model for CourierBy<S> {
    ghost use Rattle.std.specs.Prelude.{All};
    ghost use Rattle.mon_courier.specs.Courier.{IsShort, State};

    ghost Value = { State S };

    ghost view = { λ c. record {
      mail = c.outbox;
      parts = c.exchange;
      taken = c.is_taken;
      line = c.line;
      plan = c.plan;
      address = c.address;
    } };

    ghost invariant = { λ c. All IsShort c.outbox.waiting };
}

impl<S: Stream + Drop> CourierBy<S> {
    /// Makes a courier to this target, with no text yet. All memory is allocated here.
    ///
    /// # Errors
    /// `AllocError` if there is no memory for it.
    pub fn new(alloc: Global, target: &Target<'_>) -> Result<Self, AllocError>
        ensures { IfOk result (λ c. c ≡ fresh target.now.host.now target.now.path.now
            target.now.address) }
    {
        Ok(CourierBy {
            outbox: Outbox::new(alloc)?,
            exchange: Exchange::new(alloc, target)?,
            is_taken: false,
            line: None,
            plan: Plan::first(),
            address: target.address,
        })
    }

    /// Puts a text behind those that wait. If 256 texts wait, the oldest is dropped and counted. A
    /// text of more than 4,096 octets is not put, and counted.
    pub fn put(&mut self, text: &[u8])
        ensures { self.new ≡ with_mail (after_put text.now self.old.mail) self.old }
    {
        self.outbox.put(text);
    }

    /// Takes note that a text could not be made, which is counted.
    pub fn lose(&mut self)
        ensures { self.new ≡ with_plan (after_loss self.old.plan) self.old }
    {
        self.plan = self.plan.after_loss();
    }

    /// Returns how many texts were not delivered and never will be: those dropped since more came,
    /// too long, not made, or refused by the receiver. It stays at its greatest.
    pub fn dropped(&self) -> u64
        ensures { result ≡ min (all_dropped self.now) (2 ^ 64 - 1) }
    {
        self.outbox
            .dropped()
            .saturating_add(self.outbox.too_long())
            .saturating_add(self.plan.lost)
            .saturating_add(self.plan.refused)
    }

    /// Returns `true` if a text is in hand or waits.
    fn has_text(&self) -> bool
        ensures { result ≡ has_text self.now }
    {
        self.is_taken || self.outbox.len() > 0
    }

    /// Returns in how many milliseconds from `now` a turn is needed at the latest. `None` if no
    /// text waits or is in hand.
    pub fn rest(&self, now: u64) -> Option<u64>
        ensures { result ≡ rest_of now self.now }
    {
        if self.line.is_some() {
            return Some(TICK_MS);
        }
        if self.has_text() {
            Some(self.plan.due.saturating_sub(now))
        } else {
            None
        }
    }

    /// Goes on with what is in flight as far as it can without waiting; if nothing is, begins the
    /// next attempt if it is due, and goes on with it. `now` is in milliseconds, on a clock that
    /// never goes back. Returns what must be reported, if anything.
    pub fn turn<R: Net>(&mut self, rt: &R, now: u64) -> Option<News>
        ensures { IsTurn S.asked_connect S.asked_write S.asked_read now self.old self.new result }
    {
        match self.line.take() {
            Some(line) => self.go_on(line, now),
            None => self.start(rt, now),
        }
    }

    /// Returns `true` if an attempt may begin now: there is a text for it, and the pause is over.
    fn is_due(&self, now: u64) -> bool
        ensures { result ≡ is_due now self.now }
    {
        self.has_text() && self.plan.due <= now
    }

    /// Begins the next attempt if it is due, and goes on with it.
    fn start<R: Net>(&mut self, rt: &R, now: u64) -> Option<News>
        ensures { IsStart S.asked_connect S.asked_write S.asked_read now self.old self.new result }
    {
        if self.is_due(now) {
            self.begin(rt, now)
        } else {
            None
        }
    }

    /// Begins the next attempt, and goes on with it.
    fn begin<R: Net>(&mut self, rt: &R, now: u64) -> Option<News>
        ensures { IsBeginning S.asked_connect S.asked_write S.asked_read now self.old self.new
            result }
    {
        self.prepare();
        match self.connect(rt) {
            Ok(stream) => self.go_on(Line { stream, since: now }, now),
            Err(error) => self.fail(Cause::Connect(error.kind()), now),
        }
    }

    /// Begins to connect to the receiver.
    fn connect<R: Net>(&self, rt: &R) -> io::Result<S>
        ensures { IsConnecting S.asked_connect self.now.address result }
    {
        S::connect(rt, self.address.socket())
    }

    /// Makes the request ready for an attempt: that of the text in hand, or else that of the oldest
    /// text, which is then taken.
    fn prepare(&mut self)
        ensures { self.new ≡ prepared self.old }
    {
        if self.is_taken {
            self.exchange.restart();
            return;
        }
        if let Some(text) = self.outbox.first() {
            self.exchange.fill(text);
            self.outbox.remove_first();
            self.is_taken = true;
        }
    }

    /// Goes on with an attempt as far as it can without waiting.
    fn go_on(&mut self, line: Line<S>, now: u64) -> Option<News>
        ensures { IsFlight S.asked_write S.asked_read now line.stream line.since self.old self.new
            result }
    {
        let mut line = line;
        match self.exchange.go_on(&mut line.stream, MAX_CALLS) {
            Stop::Waits => self.wait(line, now),
            Stop::Fails(cause) => self.fail(cause, now),
            Stop::Responds(status) => self.judge(status, now),
        }
    }

    /// Keeps an attempt in flight, unless it took too long: then it failed.
    fn wait(&mut self, line: Line<S>, now: u64) -> Option<News>
        ensures state { self.new ≡ waited now line self.old }
        ensures news { result ≡ waited_news now line.since self.old.plan.is_failing }
    {
        if now.saturating_sub(line.since) < LIMIT_MS {
            self.line = Some(line);
            None
        } else {
            self.fail(Cause::Silent, now)
        }
    }

    /// Takes note that an attempt failed.
    fn fail(&mut self, cause: Cause, now: u64) -> Option<News>
        ensures state { self.new ≡ failed now self.old }
        ensures news { result ≡ failure_news cause self.old.plan.is_failing }
    {
        let news = self.plan.failure_news(cause);
        self.plan = self.plan.after_failure(now);
        news
    }

    /// Takes note of the status of a response.
    fn judge(&mut self, status: u16, now: u64) -> Option<News>
        ensures state { self.new ≡ judged now status self.old }
        ensures news { result ≡ judged_news status self.old.plan.is_failing }
    {
        match verdict_of(status) {
            Verdict::Delivered => {
                let news = self.plan.delivery_news();
                self.is_taken = false;
                self.plan = self.plan.after_delivery(now);
                news
            }
            Verdict::TriedAgain => self.fail(Cause::Status(status), now),
            Verdict::Refused => {
                self.is_taken = false;
                self.plan = self.plan.after_refusal(now);
                Some(News::Refused(status))
            }
        }
    }
}
