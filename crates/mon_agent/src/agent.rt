//! The agent.

ghost use Rattle.std.specs.Prelude.{◌≡◌, ◌≢◌, ℕ, true, List, Err, IfOk, IfSome, IfNone, OnErr};
ghost use Rattle.mon_vacm.specs.declared.denied.Denied.TheVariants.{NoCommunity};
ghost use Rattle.mon_vacm.specs.declared.view_type.ViewType.TheVariants.{Read};
ghost use Rattle.mon_vacm.specs.Borrowed.{granted, view_of};
ghost use Rattle.mon_vacm.specs.Tables.{PolicyTables as AnyLists};
ghost use Rattle.mon_vacm.specs.View.{IsInView};
ghost use Rattle.mon_mib.specs.Counters.{counted, no_counts};
ghost use Rattle.mon_mib.specs.declared.counters.Counter.TheVariants.{InPackets};
ghost use Rattle.mon_mib.specs.Known.{Known as AnyKnown, known_of};
ghost use Rattle.mon_mib.specs.Map.{known_by, map_counters, map_device, map_settings, with_counters};
ghost use Rattle.mon_agent.specs.Answer.{IsAnswer, IsSilenceOf, cause_of, is_request, need_of, raised_by};
ghost use Rattle.mon_agent.specs.Ready.{IsReady, IsReadyFor, IsRoomy};
ghost use Rattle.mon_agent.specs.Sent.{IsReadOut};

use crate::buffers::ReplyBuffers;
use crate::fault::AgentFault;
use crate::reading::read;
use crate::ready::{Ready, make_answer};
use crate::reply::{Reply, Silence};
use crate::sending::{make_return, send};
use mon_mib::{Counter, Counters, Device, Mib, Moment, Search, Settings};
use mon_pdu::{Body, Message, PduFault, PduKind, read_message};
use mon_vacm::{Access, Denied, Policy, ViewType};
use std::alloc::{AllocError, Global};

/// authorizationError (RFC 3416 section 3).
const AUTHORIZATION_ERROR: i32 = 16;

/// An SNMPv2c agent over a device: its policy, and its map of variables with what it has counted.
pub struct Agent<D: Drop> {
    /// Which community may do what with which names.
    pub(crate) policy: Policy,
    /// The variables.
    pub(crate) mib: Mib<D>,
}

// By hand: where one is let go, a proof has one call and not a drop of each field.
impl<D: Drop> Drop for Agent<D> {
    fn drop(self) {
        let Agent { policy: _, mib: _ } = self;
    }
}

impl<D: Device + Drop> Agent<D> {
    ghost use Rattle.mon_agent.specs.State.{policy_of, settings_of, counters_of, device_of};

    /// An agent with this policy and these settings over a device, which has counted nothing yet.
    pub fn new(policy: Policy, settings: Settings, device: D) -> Self
        ensures policy { policy_of result ≡ policy }
        ensures settings { settings_of result ≡ settings }
        ensures counters { counters_of result ≡ no_counts }
        ensures device { device_of result ≡ device }
    {
        Agent {
            policy,
            mib: Mib::new(settings, device),
        }
    }

    /// What the agent has counted.
    pub fn counters(&self) -> Counters
        ensures { result ≡ counters_of self.now }
    {
        self.mib.counters()
    }

    /// What serves the texts that can be set, and the interfaces.
    pub fn device(&self) -> &D
        ensures { result.now ≡ device_of self.now }
    {
        self.mib.device()
    }

    /// Answers a datagram at a time, or is silent, as `answer_into` does, with buffers of its
    /// own.
    ///
    /// # Errors
    /// `OutOfMemory`; then everything is as it was, the counters and the device too.
    pub fn answer(
        &mut self,
        alloc: Global,
        datagram: &[u8],
        moment: Moment,
    ) -> Result<Reply, AgentFault>
        // The reply, and what becomes of the device: only a Set that is granted and refused in
        // nothing changes it.
        ensures answer { let known = known_of (settings_of self.old)
            (counted (counters_of self.old) InPackets) (D.held (device_of self.old)) moment in
            IfOk result (IsAnswer D.held D.failed D.refuses (policy_of self.old) known (device_of self.old) (device_of self.new) datagram.now) }
        ensures counters { IfOk result (λ reply. (counters_of self.new)
            ≡ raised_by reply (counted (counters_of self.old) InPackets)) }

        // The rest stays.
        ensures policy { policy_of self.new ≡ policy_of self.old }
        ensures settings { settings_of self.new ≡ settings_of self.old }

        // A fault changes nothing.
        ensures fault { OnErr result (self.new ≡ self.old) }
    {
        let mut buffers = ReplyBuffers::new(alloc);
        self.answer_into(alloc, datagram, moment, &mut buffers)
    }

    /// Answers a datagram at a time, or is silent. Every datagram counts in snmpInPkts before it
    /// is answered, and then in the counter of its cause where it is not answered. A Set that is
    /// refused, or is too big, assigns nothing; all memory of a Set, its response's too, is taken
    /// before the first assignment. A Get or GetNext whose response fits, and a GetBulk, is read in
    /// place and written into the buffers; the reply has the memory of one of them, which
    /// `ReplyBuffers::keep` takes back.
    ///
    /// # Errors
    /// `OutOfMemory`; then everything is as it was, the counters and the device too.
    pub fn answer_into(
        &mut self,
        alloc: Global,
        datagram: &[u8],
        moment: Moment,
        buffers: &mut ReplyBuffers,
    ) -> Result<Reply, AgentFault>
        // The reply, and what becomes of the device: only a Set that is granted and refused in
        // nothing changes it.
        ensures answer { let known = known_of (settings_of self.old)
            (counted (counters_of self.old) InPackets) (D.held (device_of self.old)) moment in
            IfOk result (IsAnswer D.held D.failed D.refuses (policy_of self.old) known (device_of self.old) (device_of self.new) datagram.now) }
        ensures counters { IfOk result (λ reply. (counters_of self.new)
            ≡ raised_by reply (counted (counters_of self.old) InPackets)) }

        // The rest stays.
        ensures policy { policy_of self.new ≡ policy_of self.old }
        ensures settings { settings_of self.new ≡ settings_of self.old }

        // A fault changes nothing.
        ensures fault { OnErr result (self.new ≡ self.old) }
    {
        let before = self.mib.counters();
        self.mib.count(Counter::InPackets);
        match self.prepare(alloc, datagram, moment, buffers) {
            Ok(ready) => {
                let reply = self.finish(ready);
                raise(&mut self.mib, &reply);
                Ok(reply)
            }
            Err(fault) => {
                self.mib.recount(before);
                Err(fault)
            }
        }
    }

    /// What the agent is about to do about a datagram.
    fn prepare(
        &self,
        alloc: Global,
        datagram: &[u8],
        moment: Moment,
        buffers: &mut ReplyBuffers,
    ) -> Result<Ready, AgentFault>
        ensures ready { let known = known_by D.held self.now.mib moment in
            IfOk result (IsReady D.held D.failed D.refuses self.now.policy known (map_device self.now.mib) datagram.now) }
        ensures room { IfOk result IsRoomy }
    {
        if let Some(octets) = self.in_place(alloc, datagram, moment, buffers) {
            return Ok(Ready::Answer(Reply::Send(octets)));
        }
        self.prepare_message(alloc, datagram, moment)
    }

    /// What the agent is about to do about a datagram, by the message that it begins with.
    fn prepare_message(
        &self,
        alloc: Global,
        datagram: &[u8],
        moment: Moment,
    ) -> Result<Ready, AgentFault>
        ensures ready { let known = known_by D.held self.now.mib moment in
            IfOk result (IsReady D.held D.failed D.refuses self.now.policy known (map_device self.now.mib) datagram.now) }
        ensures room { IfOk result IsRoomy }
    {
        match read_message(alloc, datagram) {
            Ok(message) => self.prepare_for(alloc, message, moment),
            Err(fault) => match cause_of(fault) {
                Some(cause) => Ok(Ready::Answer(Reply::Silent(cause))),
                None => Err(AgentFault::OutOfMemory),
            },
        }
    }

    /// What the agent is about to do about a message.
    fn prepare_for(
        &self,
        alloc: Global,
        message: Message,
        moment: Moment,
    ) -> Result<Ready, AgentFault>
        ensures ready { let known = known_by D.held self.now.mib moment in
            IfOk result (IsReadyFor D.held D.failed D.refuses self.now.policy known (map_device self.now.mib) message) }
        ensures room { IfOk result IsRoomy }
    {
        let need = need_of(&message.body);
        let access = self.policy.access(message.community.as_slice(), need);
        if let Some(cause) = silence_of(&access, &message.body) {
            drop(message);
            return Ok(Ready::Answer(Reply::Silent(cause)));
        }
        match access {
            Err(_) => {
                let denied = make_return(message, AUTHORIZATION_ERROR, 0);
                make_answer(send(alloc, denied, self.mib.settings().max_message_size))
            }
            Ok(access) => match need {
                ViewType::Write => self.prepare_set(alloc, access, message, moment),
                ViewType::Read => make_answer(self.read_in(alloc, access, message, moment)),
            },
        }
    }

    /// What is sent for a request to read that is granted in a view.
    fn read_in(
        &self,
        alloc: Global,
        access: Access<'_>,
        message: Message,
        moment: Moment,
    ) -> Result<Reply, AllocError>
        requires request { is_request message.body ≡ true }
        requires read { need_of message.body ≡ Read }
        ensures { let known = known_by D.held self.now.mib moment in
            IfOk result (IsReadOut known (IsInView self.now.policy.families (view_of access.entry)) message) }
    {
        let mut search = Search::new(alloc, &self.mib, &self.policy, access, moment);
        read(alloc, &mut search, message)
    }

    /// Does what it was about to do. It allocates nothing.
    fn finish(&mut self, ready: Ready) -> Reply
        requires { IsRoomy ready }
        ensures answer { (policy : AnyLists) (k : AnyKnown) (datagram : List ℕ)
            → IsReady D.held D.failed D.refuses policy k (map_device self.old.mib) datagram ready
            → IsAnswer D.held D.failed D.refuses policy k (map_device self.old.mib)
            (map_device self.new.mib) datagram result }
        ensures policy { self.new.policy ≡ self.old.policy }
        ensures settings { map_settings self.new.mib ≡ map_settings self.old.mib }
        ensures counters { map_counters self.new.mib ≡ map_counters self.old.mib }
    {
        match ready {
            Ready::Answer(reply) => reply,
            Ready::Assign(set) => Reply::Send(self.assign(set)),
        }
    }
}

/// Why a datagram that could not be read is not answered; none where memory ran out.
fn cause_of(fault: PduFault) -> Option<Silence>
    ensures { result ≡ cause_of fault }
{
    match fault {
        PduFault::OutOfMemory => None,
        PduFault::BadVersion(_) => Some(Silence::BadVersion),
        _ => Some(Silence::BadMessage),
    }
}

/// Counts a reply by its cause.
fn raise<D: Device + Drop>(mib: &mut Mib<D>, reply: &Reply)
    ensures { mib.new ≡ with_counters mib.old (raised_by reply.now (map_counters mib.old)) }
{
    match reply {
        Reply::Silent(Silence::BadMessage) => mib.count(Counter::ParseErrors),
        Reply::Silent(Silence::BadVersion) => mib.count(Counter::BadVersions),
        Reply::Silent(Silence::BadCommunity) => mib.count(Counter::BadCommunities),
        Reply::Silent(Silence::TooBigTwice) => mib.count(Counter::SilentDrops),
        Reply::Silent(Silence::NotARequest) | Reply::Send(_) => {}
    }
}

/// What a message needs of a view.
fn need_of(body: &Body) -> ViewType
    ensures { result ≡ need_of body.now }
{
    match body {
        Body::Pdu(pdu) if pdu.kind == PduKind::Set => ViewType::Write,
        _ => ViewType::Read,
    }
}

/// Returns `true` if a message is a request that is answered.
fn is_request(body: &Body) -> bool
    ensures { result ≡ is_request body.now }
{
    match body {
        Body::Pdu(pdu) => matches!(pdu.kind, PduKind::Get | PduKind::GetNext | PduKind::Set),
        Body::Bulk(_) => true,
    }
}

/// Why a message of this body that is given this access is not answered, if it is not.
fn silence_of(access: &Result<Access<'_>, Denied>, body: &Body) -> Option<Silence>
    ensures some { IfSome result (IsSilenceOf (granted access.now) body.now) }
    ensures none { IfNone result ((granted access.now ≢ Err NoCommunity)
        × (is_request body.now ≡ true)) }
{
    if matches!(access, Err(Denied::NoCommunity)) {
        return Some(Silence::BadCommunity);
    }
    if !is_request(body) {
        return Some(Silence::NotARequest);
    }
    None
}
