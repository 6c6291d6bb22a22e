//! A Set in two phases (RFC 3416 section 4.2.5).

ghost use Rattle.std.specs.Prelude.{◌≡◌, ◌<◌, ◌≤◌, ◌^◌, ℕ, pos, length, IfOk, IfSome, IfNone};
ghost use Rattle.mon_pdu.specs.Grammar.{bindings_of};
ghost use Rattle.mon_pdu.specs.Writing.{written_message};
ghost use Rattle.mon_vacm.specs.Borrowed.{view_of};
ghost use Rattle.mon_vacm.specs.View.{IsInView};
ghost use Rattle.mon_mib.specs.declared.commit.Commit.{Commit as AnyCommit};
ghost use Rattle.mon_mib.specs.Commit.{IsCommitted, failures_by_then};
ghost use Rattle.mon_mib.specs.Map.{known_by, map_counters, map_device, map_settings};
ghost use Rattle.mon_agent.specs.Assigned.{greatest, returned, status_of, place_of};
ghost use Rattle.mon_agent.specs.Ready.{HasRoomForErrors, IsNumbered, IsReadyToSet, IsReturned, IsRoomy};

use crate::agent::Agent;
use crate::fault::AgentFault;
use crate::ready::{Assigning, Ready, make_answer, make_assigning};
use crate::reply::Reply;
use crate::sending::{NO_ERROR, make_return, send_too_big, size_within, write};
use mon_mib::{Commit, Device, Moment, SetFault};
use mon_pdu::{Body, Message, write_within};
use mon_vacm::Access;
use std::alloc::{AllocError, Global};

/// commitFailed (RFC 3416 section 3).
const COMMIT_FAILED: i32 = 14;

/// undoFailed (RFC 3416 section 3).
const UNDO_FAILED: i32 = 15;

impl<D: Device + Drop> Agent<D> {
    /// What the agent is about to do about a Set that is granted in a view. First the Set's size is
    /// judged, then each variable binding; then all memory for assigning and for the response is
    /// taken.
    pub(crate) fn prepare_set(
        &self,
        alloc: Global,
        access: Access<'_>,
        message: Message,
        moment: Moment,
    ) -> Result<Ready, AgentFault>
        ensures ready { let known = known_by D.held self.now.mib moment in
            IfOk result (IsReadyToSet D.held D.failed D.refuses known (IsInView self.now.policy.families (view_of access.entry)) (map_device self.now.mib) message) }
        ensures room { IfOk result IsRoomy }
    {
        mon_pdu::laws::counts();
        mon_pdu::laws::shrinks();
        let max_message_size = self.mib.settings().max_message_size;
        let Some(count) = count_bindings(&message.body) else {
            return make_answer(send_too_big(alloc, message, max_message_size));
        };
        let response = make_return(message, NO_ERROR, count);
        let Some(size) = size_within(&response, max_message_size) else {
            return make_answer(send_too_big(alloc, response, max_message_size));
        };
        let bindings = response.body.bindings();
        match self
            .mib
            .test_set(alloc, &self.policy, access, bindings, moment)
        {
            Ok(plan) => make_assigning(alloc, plan, response, size),
            Err(fault) => make_answer(make_refusal(alloc, response, size, fault)),
        }
    }

    /// Assigns what a Set asks for, and writes its response. It allocates nothing.
    pub(crate) fn assign(&mut self, set: Assigning) -> Vec<u8>
        requires { HasRoomForErrors set }
        ensures assigned { (outcome : AnyCommit) × IsCommitted D.held D.refuses set.plan
            (D.held (map_device self.old.mib)) (D.held (map_device self.new.mib)) outcome
            × (D.failed (map_device self.new.mib) ≡ failures_by_then outcome
            (D.failed (map_device self.old.mib)))
            × (result.items ≡ written_message (returned set.response (status_of outcome)
            (pos (place_of outcome)))) }
        ensures shorter { length result.items ≤ length (written_message set.response) }

        // The rest stays.
        ensures policy { self.new.policy ≡ self.old.policy }
        ensures settings { map_settings self.new.mib ≡ map_settings self.old.mib }
        ensures counters { map_counters self.new.mib ≡ map_counters self.old.mib }
    {
        mon_pdu::laws::shrinks();
        let Assigning {
            plan,
            response,
            room,
        } = set;
        let (error_status, place) = error_of(&self.mib.commit(plan));
        let response = make_return(response, error_status, index_of(place));
        let mut octets = room;
        write_within(&mut octets, &response);
        octets
    }
}

/// How many variable bindings a PDU has, unless they are too many for an error index.
fn count_bindings(body: &Body) -> Option<i32>
    ensures some { IfSome result (λ count. count ≡ pos (length (bindings_of body.now))) }
    ensures few { IfSome result (λ count. length (bindings_of body.now) < 2 ^ 31) }
    ensures none { IfNone result (2 ^ 31 ≤ length (bindings_of body.now)) }
{
    i32::try_from(body.bindings().len()).ok()
}

/// The response to a Set of which a variable binding is refused, in this many octets.
fn make_refusal(
    alloc: Global,
    response: Message,
    size: usize,
    fault: SetFault,
) -> Result<Reply, AllocError>
    requires greatest { response ≡ greatest response }
    requires few { length (bindings_of response.body) < 2 ^ 31 }
    requires number { IsNumbered (length (bindings_of response.body)) fault }
    requires size { size ≡ length (written_message response) }
    requires small { size < 2 ^ 32 }
    ensures { IfOk result (IsReturned response fault) }
{
    mon_pdu::laws::shrinks();
    match fault {
        SetFault::OutOfMemory => Err(AllocError),
        SetFault::Refused { status, index } => {
            let response = make_return(response, status.number(), index_of(index));
            write(alloc, &response, size)
        }
    }
}

/// The error status of what assigning has come to, and the number of the variable binding that its
/// error index names.
fn error_of(commit: &Commit) -> (i32, usize)
    ensures status { result.0 ≡ status_of commit.now }
    ensures place { result.1 ≡ place_of commit.now }
{
    match commit {
        Commit::Done => (NO_ERROR, 0),
        Commit::CommitFailed(failed) => (COMMIT_FAILED, *failed),
        Commit::UndoFailed { .. } => (UNDO_FAILED, 0),
    }
}

/// The error index that names a variable binding.
fn index_of(place: usize) -> i32
    requires { place < 2 ^ 31 }
    ensures { result ≡ pos place }
{
    place as i32
}
