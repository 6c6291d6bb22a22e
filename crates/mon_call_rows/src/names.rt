//! Names that are added where memory is refused once.

use mon_row_texts::{put, put_fault, put_name};
use mon_smi::{Module, Names, NamesFault, read_module};
use std::alloc::Global;

/// Answers a line `adds NAME MODULE`: what adding the module answers, what the name then means, and
/// what adding the module again answers.
pub(crate) fn answer(alloc: Global, text: &mut String, line: &str) -> Option<()> {
    let (name, module) = line.strip_prefix("adds ")?.split_once(' ')?;
    let module = read_module(alloc, module).ok()?;
    let mut names = Names::new(alloc).ok()?;
    put_added(alloc, text, &mut names, &module)?;
    put(text, ", ")?;
    put_meaning(alloc, text, &names, name)?;
    put(text, ", ")?;
    put_added(alloc, text, &mut names, &module)
}

/// Adds a module, a second time if memory ran out the first time, and says what was answered.
fn put_added(alloc: Global, text: &mut String, names: &mut Names, module: &Module) -> Option<()> {
    let added = match names.add(alloc, module) {
        Err(NamesFault::OutOfMemory) => names.add(alloc, module),
        done => done,
    };
    match added {
        Ok(()) => put(text, "Ok"),
        Err(why) => put_fault(text, why.number(), why.name()),
    }
}

/// Says what a name means.
fn put_meaning(alloc: Global, text: &mut String, names: &Names, name: &str) -> Option<()> {
    match names.resolve(alloc, name) {
        Ok(meaning) => put_name(alloc, text, &meaning),
        Err(why) => put_fault(text, why.number(), why.name()),
    }
}
