//! The snmpEngine group of an agent.

ghost use Rattle.std.specs.Prelude.{◌≡◌, ℕ, List, MatchResult, Err};
ghost use Rattle.mon_survey.specs.Engine.{IsEngine, is_count};

use crate::fault::SurveyFault;
use mon_ber::Value;

/// Returns `true` if the value is a number from 0 on, as snmpEngineBoots and snmpEngineTime are.
fn is_count(value: &Value) -> bool
    ensures { result ≡ is_count value.now }
{
    match value {
        Value::Integer(number) => *number >= 0,
        _ => false,
    }
}

/// Returns the agent's engine id from its answers to snmpEngineID.0, snmpEngineBoots.0 and
/// snmpEngineTime.0 (RFC 3411 section 5).
///
/// # Errors
/// `NoEngine` where the first is not 5 to 32 octets or one of the others no number from 0 on.
pub fn engine_of<'a>(id: &'a Value, boots: &Value, time: &Value) -> Result<&'a [u8], SurveyFault>
    ensures { MatchResult result (λ engine. IsEngine id.now boots.now time.now engine.now)
        (λ e. (e ≡ SurveyFault.NoEngine) × ((engine : List ℕ)
        → ¬ (IsEngine id.now boots.now time.now engine))) }
{
    let Value::Octets(octets) = id else {
        return Err(SurveyFault::NoEngine);
    };
    let engine = octets.as_slice();
    if engine.len() < 5 || engine.len() > 32 || !is_count(boots) || !is_count(time) {
        return Err(SurveyFault::NoEngine);
    }
    Ok(engine)
}
