//! What settings are read as: how long a round takes at most, and which targets they have.

ghost use Rattle.std.specs.Prelude.{◌≡◌, IfOk};
ghost use Rattle.mon_settings.specs.StationAccepted.{station_view};
ghost use Rattle.mon_survey.specs.Longest.{longest_of};

use mon_poller::Target;
use mon_settings::{StationSettings, greatest_tries, round_time};
use std::alloc::{AllocError, Global};

/// How long a round of settings takes at most, and what that follows from.
#[derive(Clone, Copy)]
pub struct LongestRound {
    /// Its length in milliseconds.
    pub most: u64,
    /// How long nothing must come before a wait times out, in milliseconds.
    pub wait_ms: u32,
    /// How often a poll is sent at most, over all targets.
    pub tries: u8,
}

/// Returns how long a round of a station of these settings takes at most.
fn longest_round(settings: &StationSettings) -> LongestRound
    ensures { result ≡ longest_of (station_view settings.now) }
{
    LongestRound {
        most: round_time(settings).most,
        wait_ms: settings.wait_ms,
        tries: greatest_tries(settings.core.targets()),
    }
}

/// Settings that were written and read back.
#[derive(Drop)]
pub struct Drafted {
    /// Their text.
    pub text: String,
    /// How long a round of a station of them takes at most.
    pub longest: LongestRound,
    /// The targets that poll the agent, as they were read.
    pub targets: Vec<Target>,
}

/// What settings are read as.
#[derive(Drop)]
pub(crate) struct Reading {
    pub(crate) longest: LongestRound,
    pub(crate) targets: Vec<Target>,
}

/// Returns what settings are read as, with copies of these targets.
pub(crate) fn reading_of(
    alloc: Global,
    settings: &StationSettings,
    targets: &[Target],
) -> Result<Reading, AllocError>
    ensures longest { IfOk result (λ r. r.longest ≡ longest_of (station_view settings.now)) }
    ensures targets { IfOk result (λ r. r.targets.items ≡ targets.now) }
{
    Ok(Reading {
        longest: longest_round(settings),
        targets: copy_targets(alloc, targets)?,
    })
}

/// Returns copies of targets.
fn copy_targets(alloc: Global, targets: &[Target]) -> Result<Vec<Target>, AllocError>
    ensures { IfOk result (λ copies. copies.items ≡ targets.now) }
{
    let mut copies = Vec::with_capacity(alloc, targets.len())?;
    for target in targets {
        copies.push(target.try_clone(alloc)?)?;
    }
    Ok(copies)
}

/// Returns settings of this text, which was read as this.
pub(crate) fn drafted_of(text: String, reading: Reading) -> Drafted
    ensures text { result.text ≡ text }
    ensures longest { result.longest ≡ reading.longest }
    ensures targets { result.targets.items ≡ reading.targets.items }
{
    let Reading { longest, targets } = reading;
    Drafted {
        text,
        longest,
        targets,
    }
}
