//! Texts in TOML 1.1, and their trees.

ghost use Rattle.std.specs.Prelude.{◌≡◌, Some, IfErr, IfOk};
ghost use Rattle.mon_settings.specs.Text.{IsUnread};
ghost use Rattle.toml.specs.Parse.{parse_document};
ghost use Rattle.toml.specs.View.{table_view};

use crate::fault::SettingsFault;
use std::alloc::Global;
use toml::Table;

/// The tree of a text.
pub(crate) fn tree(alloc: Global, text: &str) -> Result<Table, SettingsFault>
    ensures tree { IfOk result (λ t. parse_document text.now ≡ Some (table_view t)) }
    ensures unread { IfErr result (IsUnread text.now) }
{
    match toml::table_from_str(alloc, text) {
        Ok(table) => Ok(table),
        Err(error) => match error.span() {
            Some(span) => Err(SettingsFault::NotToml(span.start)),
            None => Err(SettingsFault::OutOfMemory),
        },
    }
}
