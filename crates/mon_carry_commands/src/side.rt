//! The settings between which windows are carried.

ghost use Rattle.std.specs.Prelude.{◌≡◌};
ghost use Rattle.mon_host.specs.Log.{GoesOnBy};
ghost use Rattle.mon_carry_commands.specs.Side.{AreApart, IsSide, side_of};

use mon_board::Watch;
use mon_cli::{Named, Printed};
use mon_console::{Failure, read_station_file};
use mon_formats::Format;
use mon_host::Host;
use mon_settings::StationSettings;
use std::alloc::Global;

/// Where settings have their station's file, and what they watch.
pub(crate) struct Side {
    pub(crate) file: String,
    pub(crate) watch: Watch,
}

// By hand: where one is let go, a proof has one call and not a drop of each field.
impl Drop for Side {
    fn drop(self) {
        let Side { file: _, watch: _ } = self;
    }
}

/// Reads the settings of a station in a file. How reports are printed matters not: `carry` prints
/// none.
pub(crate) fn read_side<H: Host>(alloc: Global, host: &mut H, path: &str) -> Result<Side, Failure>
    ensures { GoesOnBy (λ log. IsSide path.now log result) (H.log host.old) (H.log host.new) }
{
    let plain = Printed {
        format: Format::Text,
        chosen: false,
        sort: None,
        station_label: false,
        named: Named {
            modules: &[],
            shown: false,
        },
    };
    let (settings, _) = read_station_file(alloc, host, path, plain)?;
    Ok(side_of(settings))
}

/// Returns the file of settings, and what they watch.
fn side_of(settings: StationSettings) -> Side
    ensures { result ≡ side_of settings }
{
    let StationSettings { core, file, .. } = settings;
    Side {
        file,
        watch: core.into_parts().watch,
    }
}

/// Refuses two settings that name one file.
pub(crate) fn require_apart(alloc: Global, old: &str, new: &str) -> Result<(), Failure>
    ensures { AreApart old.now new.now result }
{
    if old != new {
        return Ok(());
    }
    Err(Failure::text(alloc, new, "a file other than that of the old settings"))
}
