//! The settings of an agent.

ghost use Rattle.std.specs.Prelude.{IfErr, IfOk};
ghost use Rattle.mon_mib.specs.Held.{AreIndexes};
ghost use Rattle.mon_mib.specs.Sim.{indexes_of};
ghost use Rattle.mon_settings.specs.Accepted.{IsAgent, agent_view};
ghost use Rattle.mon_settings.specs.Agent.{agent_of, set_texts_of, system_of};
ghost use Rattle.mon_settings.specs.Keys.{Reads};
ghost use Rattle.mon_settings.specs.Text.{IsReadAs, IsRefusal, Says};
ghost use Rattle.toml.specs.View.{table_view};

use crate::fault::{Read, SettingsFault, given};
use crate::grammar::{SettingsKind, top_keys};
use crate::key::Key;
use crate::leaf::Reader;
use crate::tables::{read_interfaces, read_policy};
use crate::text::tree;
use mon_mib::{Interface, Settings, SysTexts};
use mon_udp::Addr;
use mon_vacm::Policy;
use std::alloc::Global;

/// The settings of an agent.
#[derive(Drop)]
pub struct AgentSettings {
    /// Where it listens.
    pub listen: Addr,
    /// What it serves as it is.
    pub settings: Settings,
    /// The texts that can be set.
    pub texts: SysTexts,
    /// Which community may read or write which names.
    pub policy: Policy,
    /// The interfaces of the simulated device. Their indexes rise strictly, from 1 to 2147483647.
    pub interfaces: Vec<Interface>,
}

/// What is outside of the lists.
#[derive(Drop)]
pub(crate) struct System {
    pub(crate) listen: Addr,
    pub(crate) settings: Settings,
    pub(crate) texts: SysTexts,
}

/// The texts that can be set.
#[tactic(auto, unfolding(crate::specs::Agent::set_texts_of))]
fn read_texts(reader: &Reader<'_>) -> Read<SysTexts>
    ensures { Reads (λ s. s) (set_texts_of (table_view reader.now.table.now)) result }
{
    let contact = given!(reader.octets(Key::Contact, 0, 255));
    let name = given!(reader.octets(Key::Name, 0, 255));
    let location = given!(reader.octets(Key::Location, 0, 255));
    Ok(SysTexts {
        contact,
        name,
        location,
    })
}

#[tactic(auto, unfolding(crate::specs::Agent::system_of))]
fn read_system(reader: &Reader<'_>) -> Read<System>
    ensures { Reads (λ s. s) (system_of (table_view reader.now.table.now)) result }
{
    let listen = given!(reader.addr(Key::Listen));
    let max_message_size = given!(reader.int(Key::Limit, 484, 8192));
    let engine = given!(reader.hex(Key::Engine, 5, 32));
    let boots = given!(reader.int_or(Key::Boots, 1, 1, 2147483647));
    let descr = given!(reader.octets(Key::Descr, 0, 255));
    let object_id = given!(reader.oid(Key::ObjectId));
    let texts = given!(read_texts(reader));
    let services = given!(reader.int(Key::Services, 0, 127));
    Ok(System {
        listen,
        settings: Settings {
            descr,
            object_id,
            services,
            engine,
            boots,
            max_message_size,
        },
        texts,
    })
}

#[tactic(auto, unfolding(crate::specs::Agent::agent_of))]
fn read_tree(reader: &Reader<'_>) -> Read<AgentSettings>
    ensures gives { Reads (λ s. agent_view s) (agent_of (table_view reader.now.table.now)) result }
    ensures indexes { IfOk result (λ s. AreIndexes (indexes_of s.interfaces.items)) }
{
    given!(reader.only(top_keys(SettingsKind::Agent)));
    let system = given!(read_system(reader));
    let policy = given!(read_policy(reader), drop system);
    let interfaces = given!(read_interfaces(reader), drop policy, drop system);
    Ok(AgentSettings {
        listen: system.listen,
        settings: system.settings,
        texts: system.texts,
        policy,
        interfaces,
    })
}

/// Reads an agent's settings from a text in TOML 1.1.
///
/// The keys, in the order in which they are read: `listen`; `limit` 484 to 8192 octets; `engine`,
/// hex of 5 to 32 octets; `boots` 1 to 2147483647, 1 where it is left out; `descr`; `object_id`;
/// `contact`, `name`, `location`; `services` 0 to 127; and the lists `community`, `group`,
/// `access`, `view` and `interface`, of at most 256 tables each. In each table unknown keys are
/// refused first. The policy is made once its four lists are read.
///
/// # Errors
/// The first fault: `NotToml`; `UnknownKey` with the place of the table; `Missing` and `BadValue`
/// with the place of the key; `OutOfMemory`.
pub fn read_agent(alloc: Global, text: &str) -> Result<AgentSettings, SettingsFault>
    // Memory aside, settings are read exactly where the text is an agent's, and then they are what
    // it says.
    ensures accepted { IsReadAs agent_view (Says IsAgent text.now) result }
    ensures refused { IfErr result (IsRefusal agent_of text.now) }
    ensures indexes { IfOk result (λ s. AreIndexes (indexes_of s.interfaces.items)) }
{
    match tree(alloc, text) {
        Ok(table) => read_tree(&Reader {
            alloc,
            table: &table,
        }),
        Err(fault) => Err(fault),
    }
}
