//! The settings of stations, and why settings were refused and where.

ghost use Rattle.std.specs.Prelude.{◌≡◌, false};
ghost use Rattle.mon_console.specs.Settings.{AreModuleFiles, AreSettings, IsStationFile};
ghost use Rattle.mon_host.specs.Log.{GoesOnBy};

use crate::failure::Failure;
use crate::files::read_text;
use crate::naming::known_names_in;
use crate::printing::Printing;
use mon_cli::Printed;
use mon_faults::{Fault, explain};
use mon_host::Host;
use mon_settings::{SettingsFault, SettingsKind, StationSettings, module_files, read_station};
use mon_smi::Names;
use std::alloc::Global;

/// Returns what the file of a station's settings says, by the names of the modules that it lists,
/// and how its reports are printed.
pub fn read_station_file<H: Host>(
    alloc: Global,
    host: &mut H,
    path: &str,
    printed: Printed<'_, '_>,
) -> Result<(StationSettings, Printing), Failure>
    ensures { GoesOnBy (λ log. IsStationFile path.now printed.entry log result)
        (H.log host.old) (H.log host.new) }
{
    let text = read_text(alloc, host, path)?;
    let files = module_files_in(alloc, path, text.as_str())?;
    let known = known_names_in(alloc, host, files.as_slice())?;
    let settings = station_settings_in(alloc, path, text.as_str(), known.names())?;
    let printing = Printing::of(alloc, host, printed, known, files.as_slice())?;
    Ok((settings, printing))
}

/// Returns the files of the modules that a text of settings lists.
pub fn module_files_in(alloc: Global, path: &str, text: &str) -> Result<Vec<String>, Failure>
    ensures { AreModuleFiles text.now result }
{
    match module_files(alloc, text) {
        Ok(files) => Ok(files),
        Err(fault) => Err(settings_failure(alloc, SettingsKind::Station, path, text, fault)),
    }
}

/// Returns the settings of a station that a text says by these names.
pub fn station_settings_in(
    alloc: Global,
    path: &str,
    text: &str,
    names: &Names,
) -> Result<StationSettings, Failure>
    ensures { AreSettings text.now names.now result }
{
    match read_station(alloc, text, names) {
        Ok(settings) => Ok(settings),
        Err(fault) => Err(settings_failure(alloc, SettingsKind::Station, path, text, fault)),
    }
}

/// Why the settings in a file, an agent's or a station's, were refused: the file, and what is wrong
/// in it and where.
pub fn settings_failure(
    alloc: Global,
    of: SettingsKind,
    path: &str,
    text: &str,
    fault: SettingsFault,
) -> Failure
    ensures fault { result.fault ≡ Fault.Settings fault }
    ensures whole { result.is_cut ≡ false }
{
    let why = explain(alloc, fault, of, text);
    let line = why.and_then(|why| format!(in alloc; "{path}: {why}"));
    Failure::said(Fault::Settings(fault), line)
}
