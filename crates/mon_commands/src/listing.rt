//! The command `mib`.

ghost use Rattle.std.specs.Prelude.{map};
ghost use Rattle.mon_host.specs.Log.{GoesOnBy};
ghost use Rattle.mon_commands.specs.Mib.{IsListed, IsMib};

use mon_cli::MibArgs;
use mon_console::{Failure, KnownNames, known_names, name_failure, no_module, print, read_text};
use mon_host::Host;
use mon_smi::{ListFault, read_module};
use std::alloc::{AllocError, Global};

/// Prints the names of the module in a file, by the names of other modules too.
pub fn print_names<H: Host>(
    alloc: Global,
    host: &mut H,
    words: MibArgs<'_, '_>,
) -> Result<(), Failure>
    ensures { GoesOnBy (λ log. IsMib words.entry.file.now
        (map (λ f. f.now) words.entry.modules.now) log result)
        (H.log host.old) (H.log host.new) }
{
    let text = read_text(alloc, host, words.file)?;
    let known = known_names(alloc, host, words.modules)?;
    let lines = list(alloc, words.file, &text, known)?;
    print(alloc, host, lines.as_bytes())
}

/// Returns the names that the module in a text defines, with their identifiers, a line each.
/// The names of other modules that it uses are these.
fn list(alloc: Global, path: &str, text: &str, known: KnownNames) -> Result<String, Failure>
    ensures { IsListed text.now known.names result }
{
    let module = match read_module(alloc, text) {
        Ok(module) => module,
        Err(fault) => return Err(no_module(alloc, path, text, fault)),
    };
    let mut known = known;
    known.add(alloc, path, &module)?;
    match mon_smi::list(alloc, known.names(), module.defs.as_slice()) {
        Ok(lines) => Ok(lines),
        Err(ListFault::OutOfMemory) => Err(Failure::from(AllocError)),
        Err(ListFault::Unnamed(name, fault)) => {
            Err(name_failure(alloc, known.names(), name, fault))
        }
    }
}
