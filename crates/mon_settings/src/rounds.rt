//! How long a round of a station may take.

ghost use Rattle.std.specs.Prelude.{◌≡◌, ◌≤◌, ◌*◌};
ghost use Rattle.mon_settings.specs.RoundTime.{greatest_tries, has_some, waits};

use crate::station::StationSettings;
use mon_poller::Target;

/// How many times its length a wait lasts at most, whatever comes.
const MOST: u64 = 4;

/// How long a round may take, in milliseconds. Handling datagrams takes further time.
#[derive(Clone, Copy)]
pub struct RoundTime {
    /// If all targets answer.
    pub least: u64,
    /// If none does.
    pub silent: u64,
    /// Whatever comes.
    pub most: u64,
}

/// Returns how long a round of a station of these settings may take.
pub fn round_time(settings: &StationSettings) -> RoundTime
    ensures least { result.least ≡ waits settings.now.wait_ms 0 (has_some settings.now.core.peers) }
    ensures silent { result.silent ≡ waits settings.now.wait_ms
        (greatest_tries settings.now.core.targets) (has_some settings.now.core.peers) }
    ensures most { result.most ≡ 4 * waits settings.now.wait_ms
        (greatest_tries settings.now.core.targets) (has_some settings.now.core.peers) }
    ensures short { result.most ≤ 4415226380288 }
{
    let has_peers = !settings.core.peers().is_empty();
    let tries = u32::from(greatest_tries(settings.core.targets()));
    let silent = waits(settings.wait_ms, tries, has_peers);
    RoundTime {
        least: waits(settings.wait_ms, 0, has_peers),
        silent,
        most: MOST * silent,
    }
}

/// Returns how many milliseconds a round waits in which this many waits with open polls time out.
fn waits(wait_ms: u32, quiet: u32, has_peers: bool) -> u64
    ensures { result ≡ waits wait_ms quiet has_peers }
{
    u64::from(wait_ms) * (1 + u64::from(quiet) + u64::from(has_peers))
}

/// Returns how often a poll is sent at most, over all targets.
pub fn greatest_tries(targets: &[Target]) -> u8
    ensures { result ≡ greatest_tries targets.now }
{
    let mut most = 0;
    for target in targets {
        if target.tries > most {
            most = target.tries;
        }
    }
    most
}
