//! The variable bindings of a response as they grow, within a limit on its size.

ghost use Rattle.std.specs.Prelude.{◌≡◌, ◌≤◌, ◌-◌, ◌^◌, ◌↔◌, ◌⊎◌, ◌++◌, ◌∷◌, [], length, get_or, List, Ok, true, false, IsTrue, IfOk};
ghost use Rattle.mon_pdu.specs.declared.message.Binding.{Binding as AnyBinding};
ghost use Rattle.mon_ber.specs.Writing.{size_counted};
ghost use Rattle.mon_pdu.specs.Sizes.{with_bindings};
ghost use Rattle.mon_pdu.specs.Writing.{list_contents};
ghost use Rattle.mon_agent.specs.Bulk.{is_end, all_end_of_mib_view};
ghost use Rattle.mon_agent.specs.ResponseBuilder.{FitsWith, last};
ghost use Rattle.mon_agent.specs.Reply.{count_of, IsOut, IsWithinLimit};

use crate::reply::Reply;
use crate::sending::send_measured;
use mon_ber::Value;
use mon_ber::writing::LIMIT;
use mon_oid::Oid;
use mon_pdu::{Binding, Bindings, Body, Bulk, Message, Pdu, binding_size, size_bound, size_with};
use std::alloc::{AllocError, Global};
use std::marker::Model;

/// A response that takes variable bindings as long as it is within a limit, in octets. Its size is
/// kept as it grows.
#[derive(Drop)]
pub(crate) struct ResponseBuilder {
    head: Message,
    max_message_size: i32,
    bindings: Vec<Binding>,
    list: usize,
}

impl Model for ResponseBuilder {
    ghost use Rattle.std.specs.Prelude.{◌≡◌, ◌⊎◌, [], length};
    ghost use Rattle.mon_ber.specs.Writing.{size_counted};
    ghost use Rattle.mon_pdu.specs.Writing.{list_contents};
    ghost use Rattle.mon_pdu.specs.Sizes.{with_bindings};
    ghost use Rattle.mon_agent.specs.ResponseBuilder.{Grown, IsSized};

    ghost Value = { Grown };

    ghost view = { λ g. record {
      head = g.head;
      max_message_size = g.max_message_size;
      bindings =
          g.bindings.items;
    } };

    ghost invariant = { λ g. IsSized g.head g.max_message_size g.bindings.items g.list };
}

impl ResponseBuilder {
    /// The response with no variable bindings yet. Of `head` all but its variable bindings counts.
    pub(crate) fn new(alloc: Global, head: Message, max_message_size: i32) -> Self
        ensures head { result.head ≡ head }
        ensures max_message_size { result.max_message_size ≡ max_message_size }
        ensures empty { result.bindings ≡ [] }
    {
        ResponseBuilder {
            head,
            max_message_size,
            bindings: Vec::new(alloc),
            list: 0,
        }
    }

    /// Adds a variable binding if the response is within its limit with it. Returns `true` if it
    /// is.
    pub(crate) fn push(&mut self, binding: Binding) -> Result<bool, AllocError>
        ensures head { self.new.head ≡ self.old.head }
        ensures max_message_size { self.new.max_message_size ≡ self.old.max_message_size }
        ensures more { result ≡ Ok true → self.new.bindings ≡ self.old.bindings ++ binding ∷ [] }
        ensures full { result ≡ Ok false
            → (self.new.bindings ≡ self.old.bindings) × ¬ (FitsWith self.old
            (self.old.bindings ++ binding ∷ [])) }
    {
        let list = (self.list + binding_size(&binding)).min(LIMIT);
        if !has_room(&self.head, list, self.max_message_size) {
            drop(binding);
            return Ok(false);
        }
        self.bindings.push(binding)?;
        self.list = list;
        Ok(true)
    }

    /// The name of the variable binding this many places before the end.
    pub(crate) fn name_before(&self, places: usize) -> &Oid
        requires some { 1 ≤ places }
        requires within { places ≤ length self.now.bindings }
        ensures { (other : AnyBinding) → result.now ≡ (get_or self.now.bindings
            (length self.now.bindings - places) other).name }
    {
        &self.bindings[self.bindings.len() - places].name
    }

    /// Returns `true` if each of the last variable bindings, this many of them, has the value
    /// endOfMibView.
    pub(crate) fn all_end_of_mib_view(&self, width: usize) -> bool
        requires { width ≤ length self.now.bindings }
        ensures { result ≡ all_end_of_mib_view (last width self.now.bindings) }
    {
        are_at_end(&self.bindings[self.bindings.len() - width..])
    }

    /// Looks at the response, which then is known to be within its limit, or to have no variable
    /// bindings.
    pub(crate) fn invariants(&self)
        ensures { (self.now.bindings ≡ []) ⊎ FitsWith self.now self.now.bindings }
    {
        // Proof: so says the invariant.
        let _list = self.list;
    }

    /// Sends the response with its variable bindings, which were measured as they came. Where it is
    /// above the limit, tooBig or nothing is sent.
    pub(crate) fn send(self, alloc: Global) -> Result<Reply, AllocError>
        ensures { let reply = with_bindings self.head self.bindings in
            IfOk result (IsOut self.max_message_size reply reply) }
    {
        let list = self.list;
        let max_message_size = self.max_message_size;
        send_measured(alloc, self.into_message(), list, max_message_size)
    }

    /// The response with its variable bindings. It is within its limit, or has none.
    pub(crate) fn into_message(self) -> Message
        ensures message { result ≡ with_bindings self.head self.bindings }
        ensures within { (self.bindings ≡ []) ⊎ FitsWith self self.bindings }
    {
        with_bindings(self.head, self.bindings)
    }
}

/// Returns the message with other variable bindings.
pub(crate) fn with_bindings(message: Message, bindings: Vec<Binding>) -> Message
    ensures { result ≡ with_bindings message bindings.items }
{
    let Message { community, body } = message;
    let bindings = Bindings::new(bindings);
    let body = match body {
        Body::Pdu(pdu) => Body::Pdu(Pdu { bindings, ..pdu }),
        Body::Bulk(bulk) => Body::Bulk(Bulk { bindings, ..bulk }),
    };
    Message { community, body }
}

/// Returns `true` if each of these has the value endOfMibView.
fn are_at_end(bindings: &[Binding]) -> bool
    ensures { result ≡ all_end_of_mib_view bindings.now }
{
    bindings.iter().all(|binding| is_end(&binding.value))
}

/// Returns `true` if a value is endOfMibView.
pub(crate) fn is_end(value: &Value) -> bool
    ensures { result ≡ is_end value.now }
{
    matches!(value, Value::EndOfMibView)
}

/// Returns `true` if a response is within a limit with variable bindings that take `list` octets.
/// Only one that is close to the limit is measured for it.
fn has_room(head: &Message, list: usize, max_message_size: i32) -> bool
    requires { list ≤ 2 ^ 32 }
    ensures { (bindings : List AnyBinding) → list ≡ size_counted (length (list_contents bindings))
        → IsTrue result ↔ IsWithinLimit max_message_size (with_bindings head.now bindings) }
{
    if is_within(size_bound(head, list), max_message_size) {
        return true;
    }
    is_within(size_with(head, list), max_message_size)
}

/// Returns `true` if a size is within a limit; only size 0 is within a limit below 1.
pub(crate) fn is_within(size: usize, max_message_size: i32) -> bool
    ensures { IsTrue result ↔ (size ≤ count_of max_message_size) }
{
    size <= max_message_size.max(0) as usize
}
