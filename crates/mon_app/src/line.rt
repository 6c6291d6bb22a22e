//! What a line of the input offers.

ghost use Rattle.mon_app.specs.Gives.{Gives};
ghost use Rattle.mon_app.specs.Reading.{stamp_of, body_reading};
ghost use Rattle.mon_app.specs.Response.{response_in};
ghost use Rattle.mon_poller.specs.Lent.{lent_stamp};

use crate::refusal::Refusal;
use crate::response::Response;
use mon_pdu::{Binding, Body, PduKind};
use mon_poller::Stamp;
use mon_poller::stamp::{ENGINE_BOOTS, ENGINE_ID, ENGINE_TIME};

/// Reads the stamp of three bindings, whose engine id has 5 to 32 octets.
#[tactic(auto, unfolding(crate::specs::Reading::stamp_of))]
fn stamp_of<'a>(first: &'a Binding, second: &Binding, third: &Binding) -> Result<Stamp<'a>, Refusal>
    ensures { Gives (λ s. lent_stamp s) result (stamp_of first.now second.now third.now) }
{
    let are_named = first.name.parts() == ENGINE_ID.as_slice()
        && second.name.parts() == ENGINE_BOOTS.as_slice()
        && third.name.parts() == ENGINE_TIME.as_slice();
    if !are_named {
        return Err(Refusal::BadStamp);
    }
    let Some(stamp) = Stamp::of(&first.value, &second.value, &third.value) else {
        return Err(Refusal::BadStamp);
    };
    let len = stamp.engine.as_slice().len();
    if len < 5 || len > 32 {
        return Err(Refusal::BadStamp);
    }
    Ok(stamp)
}

/// Reads the response that a message's body is: its first three variable bindings are its stamp.
#[tactic(auto, unfolding(crate::specs::Reading::body_reading, crate::specs::Reading::response_of))]
pub(crate) fn read_body(body: &Body) -> Result<Response<'_>, Refusal>
    ensures { Gives (λ r. response_in r) result (body_reading body.now) }
{
    match body {
        Body::Bulk(_) => Err(Refusal::NotAResponse),
        Body::Pdu(pdu) => {
            if pdu.kind != PduKind::Response {
                return Err(Refusal::NotAResponse);
            }
            if pdu.error_status != 0 {
                return Err(Refusal::AgentError);
            }
            let [first, second, third, others @ ..] = pdu.bindings.as_slice() else {
                return Err(Refusal::BadStamp);
            };
            let stamp = stamp_of(first, second, third)?;
            Ok(Response {
                stamp,
                bindings: others,
            })
        }
    }
}
