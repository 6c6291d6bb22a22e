//! The command `report`.

ghost use Rattle.std.specs.Prelude.{◌≡◌, option_map};
ghost use Rattle.mon_file_commands.specs.Command.{IsReportCommand, path_or_empty};
ghost use Rattle.mon_host.specs.Log.{GoesOnBy};

use crate::own::print_file_report;
use crate::saved::print_settings_report;
use mon_cli::ReportArgs;
use mon_console::Failure;
use mon_host::Host;
use std::alloc::Global;

/// Prints the report of the windows in a station's file, and says on standard error how long ago it
/// was saved: of the file that the arguments give, by what it holds itself and without alarms; else
/// of that of the settings. The station is not started, and the file is only read.
///
/// # Errors
/// The settings, a module or the labels were refused; the file could not be read, is damaged or
/// holds no image; or the report could not be printed.
pub fn print_saved_report<H: Host>(
    alloc: Global,
    host: &mut H,
    words: ReportArgs<'_, '_>,
) -> Result<(), Failure>
    ensures { GoesOnBy (λ log. IsReportCommand words.entry log result)
        (H.log host.old) (H.log host.new) }
{
    match words.file {
        Some(file) => print_file_report(alloc, host, file, words.labels, words.printed),
        None => {
            let path = path_or_empty(words.settings);
            print_settings_report(alloc, host, path, words.labels, words.printed)
        }
    }
}

/// Returns the path, the empty one if none is given.
fn path_or_empty<'a>(path: Option<&'a str>) -> &'a str
    ensures { result.now ≡ path_or_empty (option_map (λ p. p.now) path.entry) }
{
    match path {
        Some(path) => path,
        None => "",
    }
}
