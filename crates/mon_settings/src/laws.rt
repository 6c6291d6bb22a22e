//! Laws of how settings are read. Each is a function that does nothing.

ghost use Rattle.std.specs.Prelude.{◌≡◌, ◌↔◌, ℕ, List, Option, Some, Ok, Err};
ghost use Rattle.toml.specs.Data.{Members};
ghost use Rattle.mon_oid.specs.Oid.{IsOid, Spells};
ghost use Rattle.mon_settings.specs.Accepted.{IsAgent, Agent};
ghost use Rattle.mon_settings.specs.Agent.{agent_of};
ghost use Rattle.mon_settings.specs.Leaf.{oid_of};
ghost use Rattle.mon_settings.specs.SettingsFault.{IsOfStationTree, IsOfTree};
ghost use Rattle.mon_settings.specs.Resolving.{resolution};
ghost use Rattle.mon_settings.specs.Station.{station_of};
ghost use Rattle.mon_settings.specs.StationAccepted.{IsStation, Resolves, Station};
ghost use Rattle.mon_smi.specs.Names.{AreDistinct};
ghost use Rattle.mon_smi.specs.declared.definition.Definition.{Definition};
ghost use Rattle.mon_settings.specs.declared.fault.SettingsFault.{SettingsFault};

/// A tree is read as settings exactly where each key that is asked for is there, each key there is
/// one of those, no value is out of its range, the tables make a policy and the indexes rise; and
/// the settings are those values.
pub fn accepted()
    ensures { (t : Members) (a : Agent) → (agent_of t ≡ Ok a) ↔ IsAgent t a }
{}

/// A text is read as an object identifier exactly where it spells that identifier.
pub fn identifiers()
    ensures { (text parts : List ℕ) → (oid_of text ≡ Some parts)
        ↔ (IsOid parts × Spells text parts) }
{}

/// A tree that is refused misses a key, or has a bad value or an unknown key.
pub fn refused()
    ensures { (t : Members) (e : SettingsFault) → agent_of t ≡ Err e → IsOfTree e }
{}

/// Under definitions with no name twice, a text resolves to the identifier that it means, and
/// to `None` if it means no identifier.
pub fn resolving()
    ensures { (defs : List Definition) → AreDistinct defs → Resolves defs (resolution defs) }
{
    mon_smi::laws::parents();
    mon_smi::laws::one_reading();
}

/// A tree is read as a station's settings exactly where each key that is asked for is there, each
/// key there is one of those, no value is out of its range, every name means an identifier, and the
/// lists agree; and the settings are those values.
pub fn stations()
    ensures { (defs : List Definition) → AreDistinct defs → (t : Members) (s : Station)
        → (station_of (resolution defs) t ≡ Ok s) ↔ IsStation defs t s }
{
    resolving();
}

/// A tree that is refused as a station's settings misses a key, has a bad value or an unknown key,
/// or names what is unknown.
pub fn stations_refused()
    ensures { (find : List ℕ → Option (List ℕ)) (t : Members) (e : SettingsFault)
        → station_of find t ≡ Err e → IsOfStationTree e }
{}
