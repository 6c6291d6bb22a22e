//! The small agent that lines ask: its settings, and the agent that they make.

use mon_agent::Agent;
use mon_client::{Asking, Question};
use mon_mib::SimDevice;
use mon_oid::Oid;
use mon_settings::{AgentSettings, read_agent};
use std::alloc::Global;

/// The settings: `public` reads all but ifPhysAddress, and `private` writes the objects of mib-2
/// too.
const TEXT: &str = r#"
listen = "127.0.0.1:16100"
limit = 484
engine = "8000000001"
boots = 1
descr = "lab"
object_id = "1.3.6.1.4.1.32473.1"
contact = ""
name = "r1"
location = ""
services = 4
community = [{ community = "public", security = "ro" }, { community = "private", security = "rw" }]
group = [{ security = "ro", group = "g1" }, { security = "rw", group = "g2" }]
access = [{ group = "g1", model = 2, read = "all" }, { group = "g2", model = 0, read = "all", write = "mib" }]
view = [
  { view = "all", subtree = "1.3.6.1", included = true },
  { view = "all", subtree = "1.3.6.1.2.1.2.2.1.6", included = false },
  { view = "mib", subtree = "1.3.6.1.2.1", included = true },
]

[[interface]]
index = 1
descr = "e1"
type = 6
mtu = 1500
speed = 1000000000
phys = ""
name = "e1"
alias = ""
in_octets = { start = 0, rate = 0 }
in_packets = { start = 0, rate = 0 }
out_octets = { start = 0, rate = 0 }
out_packets = { start = 0, rate = 0 }

[[interface]]
index = 2
descr = "e2"
type = 6
mtu = 1500
speed = 1000000000
phys = ""
name = "e2"
alias = ""
in_octets = { start = 0, rate = 0 }
in_packets = { start = 0, rate = 0 }
out_octets = { start = 0, rate = 0 }
out_packets = { start = 0, rate = 0 }
"#;

/// Reads the settings.
pub(crate) fn settings(alloc: Global) -> Option<AgentSettings> {
    read_agent(alloc, TEXT).ok()
}

/// Makes the question under request-id 7.
pub(crate) fn question<'a>(
    asking: Asking<'a>,
    community: &'a [u8],
    names: &'a [Oid],
) -> Question<'a> {
    Question {
        asking,
        request_id: 7,
        community,
        names,
    }
}

/// Makes the agent of the settings.
pub(crate) fn agent(alloc: Global) -> Option<Agent<SimDevice>> {
    let AgentSettings {
        settings,
        texts,
        policy,
        interfaces,
        ..
    } = settings(alloc)?;
    let device = SimDevice::new(interfaces, texts).ok()?;
    Some(Agent::new(policy, settings, device))
}
