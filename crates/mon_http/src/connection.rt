//! A connection: the octets that came and were not answered, and those to be sent.

ghost use Rattle.std.specs.Prelude.{◌≡◌, ◌≤◌, ◌+◌, ◌-◌, ◌++◌, [], true, false, IsTrue, IfOk, List, ℕ, OnErr, OnOk, drop, length, map, string_bytes, vec_capacity};
ghost use Rattle.mon_http.specs.Front.{skip_line_ends};
ghost use Rattle.mon_http.specs.Conversation.{start, with_octets, with_sent, with_text, with_reply, with_refusal, IsStep};
ghost use Rattle.mon_http.specs.Request.{IsJudged, IsProgress};
ghost use Rattle.mon_http.specs.Response.{reply_of, fits, response_text, refusal_text, sent_body};
ghost use Rattle.mon_http.specs.declared.request.Refusal.{Refusal as RefusalData};
ghost use Rattle.mon_http.specs.declared.request.Verdict.TheVariants as Verdicts;

use crate::answer::Answer;
use crate::front::{line_ends, scan};
use crate::request::{Refusal, Request, Verdict, judge, long_status, refuse};
use crate::response::{Head, Media, Status, put_head};
use crate::step::StepOutcome;
use httpdate::HttpDate;
use std::alloc::{AllocError, Global};
use std::marker::Model;

/// The most octets that are kept unread: those of the longest head.
const MAX_OCTETS: usize = 8192;

/// The capacity for the head of a response, which is longer than any.
const HEAD_CAPACITY: usize = 512;

/// A connection.
#[derive(Drop)]
pub struct Connection {
    /// What responses are allocated by.
    alloc: Global,
    input: Vec<u8>,
    /// The number of octets within which no head ends.
    scanned: usize,
    /// The line there has no octet but CR so far.
    is_blank: bool,
    output: Vec<u8>,
    sent: usize,
    is_closing: bool,
}

impl Model for Connection {
    ghost use Rattle.std.specs.Prelude.{◌≡◌, ◌≤◌, vec_capacity, vec_len, drop};
    ghost use Rattle.mon_http.specs.Conversation.{Conversation};
    ghost use Rattle.mon_http.specs.Front.{skip_line_ends};
    ghost use Rattle.mon_http.specs.Scan.{IsScanned};

    ghost Value = { Conversation };

    ghost view = { λ c. record {
      unread = c.input.items;
      unsent = drop c.sent c.output.items;
      closing = c.is_closing;
    } };

    ghost invariant = { λ c. (vec_len c.input ≤ 8192) × (8192 ≤ vec_capacity c.input)
        × (c.sent ≤ vec_len c.output)
        × (c.scanned ≤ vec_len c.input) × (skip_line_ends c.input.items ≡ c.input.items)
        × IsScanned c.input.items c.scanned c.is_blank };
}

/// Adds octets, except line ends at the front. It allocates nothing.
fn add_octets(input: &mut Vec<u8>, octets: &[u8])
    requires room { length input.old.items + length octets.now ≤ 8192 }
    requires capacity { 8192 ≤ vec_capacity input.old }
    requires front { skip_line_ends input.old.items ≡ input.old.items }
    ensures octets { input.new.items ≡ skip_line_ends (input.old.items ++ octets.now) }
    ensures capacity { 8192 ≤ vec_capacity input.new }
{
    if input.is_empty() {
        let skipped = line_ends(octets);
        input.extend_from_slice(&octets[skipped..]).unwrap();
    } else {
        input.extend_from_slice(octets).unwrap();
    }
}

/// Removes the head of this length, and the line ends after it.
fn remove_head(input: &mut Vec<u8>, len: usize)
    requires { len ≤ length input.old.items }
    ensures rest { input.new.items ≡ skip_line_ends (drop len input.old.items) }
    ensures capacity { vec_capacity input.new ≡ vec_capacity input.old }
{
    let skipped = line_ends(&input[len..]);
    input.drain(..len + skipped);
}

/// Makes the response to a request.
fn response(
    alloc: Global,
    date: Option<HttpDate>,
    request: Request,
    answer: Answer<'_>,
) -> Result<Vec<u8>, AllocError>
    ensures { IfOk result (λ text. text.items
        ≡ response_text date request (reply_of answer.entry)) }
{
    let body = answer.body();
    let mut out = Vec::with_capacity(alloc, HEAD_CAPACITY)?;
    let head = Head {
        status: answer.status(),
        media: answer.media(),
        len: body.len(),
        keep_alive: request.keep_alive,
        date,
    };
    put_head(&mut out, &head)?;
    if request.with_body {
        body.put(&mut out)?;
    }
    Ok(out)
}

/// Makes the response of a refusal.
fn refusal_response(
    alloc: Global,
    date: Option<HttpDate>,
    refusal: Refusal,
) -> Result<Vec<u8>, AllocError>
    ensures { IfOk result (λ text. text.items ≡ refusal_text date refusal) }
{
    let mut out = Vec::with_capacity(alloc, HEAD_CAPACITY)?;
    let head = Head {
        status: refusal.status,
        media: Media::Plain,
        len: 0,
        keep_alive: refusal.keep_alive,
        date,
    };
    put_head(&mut out, &head)?;
    Ok(out)
}

impl Connection {
    /// Makes a connection on which nothing came. All its capacity for requests is allocated here.
    ///
    /// # Errors
    /// `AllocError` if there is no memory for it.
    pub fn new(alloc: Global) -> Result<Self, AllocError>
        ensures { IfOk result (λ c. c ≡ start) }
    {
        Ok(Connection {
            alloc,
            input: Vec::with_capacity(alloc, MAX_OCTETS)?,
            scanned: 0,
            is_blank: false,
            output: Vec::new(alloc),
            sent: 0,
            is_closing: false,
        })
    }

    /// Returns the number of octets that it can take.
    pub fn room(&self) -> usize
        ensures { result ≡ 8192 - length self.now.unread }
    {
        MAX_OCTETS - self.input.len()
    }

    /// Takes octets. It allocates nothing.
    pub fn receive(&mut self, octets: &[u8])
        requires { length self.old.unread + length octets.now ≤ 8192 }
        ensures { self.new ≡ with_octets octets.now self.old }
    {
        add_octets(&mut self.input, octets);
    }

    /// Judges the front of the octets, if a head ends there or they are too many for one.
    fn progress(&mut self, names: &[String]) -> Option<Verdict>
        ensures kept { self.new ≡ self.old }
        ensures progress { IsProgress (map string_bytes names.now) self.old.unread result }
    {
        let found = scan(&self.input, self.scanned, self.is_blank);
        match found.end {
            Some(n) => Some(judge(names, &self.input[..n])),
            None => {
                self.scanned = self.input.len();
                self.is_blank = found.blank;
                if self.input.len() < MAX_OCTETS {
                    None
                } else {
                    Some(refuse(long_status(&self.input), false, 0))
                }
            }
        }
    }

    /// Puts a response in place of the head of this length.
    fn put(&mut self, len: usize, keep_alive: bool, text: Vec<u8>)
        requires whole { len ≤ length self.old.unread }
        ensures { self.new ≡ with_text len keep_alive text.items self.old }
    {
        remove_head(&mut self.input, len);
        self.scanned = 0;
        self.is_blank = false;
        self.output = text;
        self.sent = 0;
        self.is_closing = !keep_alive;
    }

    /// Judges what came, once all that was pending is sent. A bad head is refused at once; a
    /// request is left for [`Connection::answer`]. Hosts of these names are served, `localhost` and
    /// addresses.
    ///
    /// # Errors
    /// `AllocError` if there is no memory for a refusal; nothing changes then.
    pub fn step(
        &mut self,
        date: Option<HttpDate>,
        names: &[String],
    ) -> Result<StepOutcome, AllocError>
        requires open { self.old.closing ≡ false }
        requires sent { self.old.unsent ≡ [] }
        ensures done { IfOk result (λ step. IsStep (map string_bytes names.now) date self.old step
            self.new) }
        ensures kept { OnErr result (self.new ≡ self.old) }
        ensures cause { OnErr result ((refusal : RefusalData)
            × IsJudged (map string_bytes names.now) self.old.unread (Verdicts.Refused refusal)) }
    {
        match self.progress(names) {
            None => Ok(StepOutcome::Wait),
            Some(Verdict::Asked(request)) => Ok(StepOutcome::Asked(request)),
            Some(Verdict::Refused(refusal)) => {
                let text = refusal_response(self.alloc, date, refusal)?;
                self.put(refusal.len, refusal.keep_alive, text);
                Ok(StepOutcome::Refused)
            }
        }
    }

    /// Answers the request at the front, with what its route is for. It must be one that
    /// [`Connection::step`] handed out by these names: one for another host is never answered.
    ///
    /// # Errors
    /// `AllocError` if there is no memory for the response; nothing changes then.
    pub fn answer(
        &mut self,
        date: Option<HttpDate>,
        names: &[String],
        request: Request,
        answer: Answer<'_>,
    ) -> Result<(), AllocError>
        requires open { self.old.closing ≡ false }
        requires sent { self.old.unsent ≡ [] }
        requires asked { IsJudged (map string_bytes names.now) self.old.unread
            (Verdicts.Asked request) }
        requires fits { IsTrue (fits request.route answer) }
        ensures answered { OnOk result (self.new ≡ with_reply date request (reply_of answer.entry)
            self.old) }
        ensures kept { OnErr result (self.new ≡ self.old) }
    {
        // They are only what the request was judged by: nothing is looked up in them again.
        let _ = names;
        let text = response(self.alloc, date, request, answer)?;
        self.put(request.len, request.keep_alive, text);
        Ok(())
    }

    /// Returns the octets that are not sent yet.
    pub fn pending(&self) -> &[u8]
        ensures { result.now ≡ self.now.unsent }
    {
        &self.output[self.sent..]
    }

    /// Takes note that the first `n` pending octets were sent.
    pub fn sent(&mut self, n: usize)
        requires { n ≤ length self.old.unsent }
        ensures { self.new ≡ with_sent n self.old }
    {
        self.sent += n;
    }

    /// Returns `true` if it closes once nothing is pending.
    pub fn is_closing(&self) -> bool
        ensures { result ≡ self.now.closing }
    {
        self.is_closing
    }
}
