//! When agents restarted, by the stamps of their responses.

ghost use Rattle.std.specs.Prelude.{◌≡◌};
ghost use Rattle.mon_rounds.specs.Clock.{clock_after, clock_by, no_clock, restart_after};

use mon_station::TargetStamp;

/// A restart of an agent between two responses to polls of a target, of which one was taken
/// directly after the other.
#[derive(Clone, Copy, Debug)]
pub struct Restart {
    /// The agent's snmpEngineBoots in the response after it.
    pub boots: u32,
    /// The agent's snmpEngineTime in that response, in seconds.
    pub time: u32,
    /// `None` if its boots rose. Else they are what they were, and this is the greatest time, in
    /// seconds, of the responses before it with these boots.
    pub until: Option<u32>,
}

/// What the responses to a target's polls that were taken say of its agent's clock.
#[derive(Clone, Copy, Debug)]
pub struct Clock {
    /// The stamp of the newest one, if one was taken since the station's start.
    pub last: Option<TargetStamp>,
    /// The greatest time, in seconds, of the newest ones, one after another, that have the boots of
    /// the last one; 0 if there is none.
    pub greatest: u32,
    /// The last restart that one of them showed in the last round, or in the last spell after it.
    pub restart: Option<Restart>,
}

impl Clock {
    /// Returns that of a target of which no response was taken.
    pub(crate) fn new() -> Self
        ensures { result ≡ no_clock }
    {
        Clock {
            last: None,
            greatest: 0,
            restart: None,
        }
    }
}

/// Returns the clock of the target of this number after a round, or the time after it, in which
/// these responses were taken.
pub(crate) fn clock_after(clock: Clock, number: u16, answered: &[TargetStamp]) -> Clock
    ensures { result ≡ clock_after number answered.now clock }
{
    let mut after = Clock {
        restart: None,
        ..clock
    };
    for stamp in answered {
        after = clock_by(after, number, *stamp);
    }
    after
}

/// Returns the clock of the target of this number after a response of this stamp.
fn clock_by(clock: Clock, number: u16, stamp: TargetStamp) -> Clock
    ensures { result ≡ clock_by number clock stamp }
{
    if stamp.target != number {
        return clock;
    }
    Clock {
        last: Some(stamp),
        greatest: match clock.last {
            Some(last) if last.boots == stamp.boots => clock.greatest.max(stamp.time),
            _ => stamp.time,
        },
        restart: restart_after(clock, stamp),
    }
}

/// Returns the last restart after a response of this stamp: the one between it and the response
/// before, if the boots rose, or stayed and the time fell.
fn restart_after(clock: Clock, stamp: TargetStamp) -> Option<Restart>
    ensures { result ≡ restart_after clock.last clock.greatest stamp clock.restart }
{
    let Some(last) = clock.last else {
        return clock.restart;
    };
    let (boots, time) = (stamp.boots, stamp.time);
    if last.boots < boots {
        return Some(Restart {
            boots,
            time,
            until: None,
        });
    }
    if last.boots == boots && time < last.time {
        return Some(Restart {
            boots,
            time,
            until: Some(clock.greatest),
        });
    }
    clock.restart
}
