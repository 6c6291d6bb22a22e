//! The engines of which nothing is carried.

ghost use Rattle.mon_carry_commands.specs.Engines.{AreEngines, IsEngine};

use hex::FromHexError;
use mon_ber::Octets;
use mon_console::Failure;
use std::alloc::{AllocError, Global};

/// Returns the engine ids that texts write in hex digits.
pub(crate) fn engines_of(alloc: Global, texts: &[&str]) -> Result<Vec<Octets>, Failure>
    ensures { AreEngines texts.now result }
{
    let mut engines = Vec::with_capacity(alloc, texts.len())?;
    for text in texts {
        let engine = engine_of(alloc, text)?;
        engines.push(engine)?;
    }
    Ok(engines)
}

/// Returns the engine id that a text writes in hex digits.
fn engine_of(alloc: Global, text: &str) -> Result<Octets, Failure>
    ensures { IsEngine text.now result }
{
    match hex::decode(alloc, text) {
        Ok(octets) => Ok(Octets::new(octets)),
        Err(FromHexError::OutOfMemory) => Err(Failure::from(AllocError)),
        Err(_) => Err(Failure::text(alloc, text, "an engine id in hex digits")),
    }
}
