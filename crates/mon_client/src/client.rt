//! The client commands: a question, its reply, and the text that is printed.

ghost use Rattle.std.specs.Prelude.{◌≡◌, string_bytes};
ghost use Rattle.mon_udp.specs.Told.{GoesOnBy};
ghost use Rattle.mon_client.specs.AtWire.{socket_failures};
ghost use Rattle.mon_client.specs.Printed.{IsQuestionAnswered, IsPrinted};
ghost use Rattle.mon_client.specs.Question.{asked_in};

use crate::asking::send_request;
use crate::printed::bindings_text;
use crate::question::Question;
use crate::wire::Wire;
use mon_app::AppFault;
use mon_pdu::{Bindings, Body, Message};
use mon_smi::NameTexts;
use std::alloc::Global;

/// Asks an agent, and returns its answer as text: a line for each variable binding of the reply.
/// Names are printed as `names` has it, also those that are values.
///
/// # Errors
/// `AgentStatus` where the reply has an error status; else as `send_request`.
pub fn answer_text<W: Wire, S: NameTexts>(
    alloc: Global,
    wire: &mut W,
    question: &Question<'_>,
    names: &S,
) -> Result<String, AppFault>
    ensures answer { GoesOnBy (λ log. IsPrinted (S.shown names.now) string_bytes
        (asked_in question.now) log result) (W.log wire.old) (W.log wire.new) }
    ensures failures { W.failures wire.new ≡ socket_failures result (W.failures wire.old) }
{
    let bindings = answers(alloc, wire, question)?;
    Ok(bindings_text(alloc, bindings.as_slice(), names)?)
}

/// Asks an agent, and returns the variable bindings of its reply, if that has no error status.
pub(crate) fn answers<W: Wire>(
    alloc: Global,
    wire: &mut W,
    question: &Question<'_>,
) -> Result<Bindings, AppFault>
    ensures answer { GoesOnBy (λ log. IsQuestionAnswered (asked_in question.now) log result)
        (W.log wire.old) (W.log wire.new) }
    ensures failures { W.failures wire.new ≡ socket_failures result (W.failures wire.old) }
{
    let Message { body, .. } = send_request(alloc, wire, question)?;
    match body {
        Body::Pdu(pdu) => {
            if pdu.error_status != 0 {
                return Err(AppFault::AgentStatus {
                    status: pdu.error_status,
                    index: pdu.error_index,
                });
            }
            Ok(pdu.bindings)
        }
        Body::Bulk(bulk) => Ok(bulk.bindings),
    }
}
