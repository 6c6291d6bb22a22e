//! Settings that are there.

ghost use Rattle.std.specs.Prelude.{◌≡◌, map, string_bytes};
ghost use Rattle.mon_console.specs.Naming.{AreNames};
ghost use Rattle.mon_host.specs.Log.{GoesOnBy};
ghost use Rattle.mon_settings_commands.specs.Appended.{AreNamesIn, IsExisting};

use mon_console::{Failure, known_names_in, module_files_in, read_text, station_settings_in};
use mon_host::Host;
use mon_settings::StationSettings;
use mon_smi::Names;
use std::alloc::Global;

/// Settings that are there: their text, the names of their modules, and what they say.
pub(crate) struct Existing {
    text: String,
    pub(crate) names: Names,
    pub(crate) station: StationSettings,
}

// By hand: where one is let go, a proof has one call and not a drop of each field.
impl Drop for Existing {
    fn drop(self) {
        let Existing {
            text: _,
            names: _,
            station: _,
        } = self;
    }
}

impl Existing {
    /// The settings, to add to.
    pub(crate) fn lent(&self) -> mon_survey::Existing<'_>
        ensures text { result.text.now ≡ string_bytes self.now.text }
        ensures station { result.station.now ≡ self.now.station }
        ensures names { result.names.now ≡ self.now.names }
    {
        mon_survey::Existing {
            text: self.text.as_str(),
            station: &self.station,
            names: &self.names,
        }
    }
}

/// Reads the settings in a file.
pub(crate) fn existing_in<H: Host>(
    alloc: Global,
    host: &mut H,
    path: &str,
) -> Result<Existing, Failure>
    ensures { GoesOnBy (λ log. IsExisting path.now log result) (H.log host.old) (H.log host.new) }
{
    let text = read_text(alloc, host, path)?;
    let names = names_in(alloc, host, path, text.as_str())?;
    let station = station_settings_in(alloc, path, text.as_str(), &names)?;
    Ok(Existing {
        text,
        names,
        station,
    })
}

/// The names of the modules that settings list.
fn names_in<H: Host>(alloc: Global, host: &mut H, path: &str, text: &str) -> Result<Names, Failure>
    ensures { GoesOnBy (λ log. AreNamesIn text.now log result) (H.log host.old) (H.log host.new) }
{
    let files = module_files_in(alloc, path, text)?;
    names_by(alloc, host, files.as_slice())
}

/// The names of the modules in files.
fn names_by<H: Host>(alloc: Global, host: &mut H, files: &[String]) -> Result<Names, Failure>
    ensures { GoesOnBy (λ log. AreNames (map string_bytes files.now) log result)
        (H.log host.old) (H.log host.new) }
{
    Ok(known_names_in(alloc, host, files)?.into_names())
}
