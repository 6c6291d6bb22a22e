//! Reading a whole input.

ghost use Rattle.std.specs.Prelude.{◌≡◌, ◌<◌, ◌^◌, IfOk, IfErr, IfSome, length};
ghost use Rattle.mon_app.specs.Input.{IsFaultOfInput};

use crate::counted::Counted;
use crate::fault::AppFault;
use std::alloc::{AllocError, Global};
use std::io;
use std::io::Read;

/// How many octets one read may give.
const CHUNK: usize = 65_536;

/// How many reads an input may take.
const READS: u32 = 1_048_576;

/// Returns this many zeros.
fn zeros(alloc: Global, len: usize) -> Result<Vec<u8>, AllocError>
    ensures { IfOk result (λ v. length v.items ≡ len) }
{
    vec![in alloc; 0u8; len]
}

/// The octets of a reader to its end, in at most 1048576 reads of at most 65536 octets.
///
/// # Errors
/// `FileFault` if a read fails, or if this many reads came to no end; `OutOfMemory` if there is no
/// memory for the octets.
pub fn read_all<R: Read>(alloc: Global, reader: &mut Counted<R>) -> Result<Vec<u8>, AppFault>
    requires { reader.old.counts.reads < 2 ^ 63 }
    ensures whole { IfOk result (λ octets. IfSome (R.remaining reader.old.reader)
        (λ all. octets.items ≡ all)) }
    ensures fault { IfErr result (IsFaultOfInput reader.old.counts reader.new.counts) }
{
    let mut chunk = zeros(alloc, CHUNK)?;
    let mut octets = Vec::new(alloc);
    for _ in 0..READS {
        match reader.read(chunk.as_mut_slice()) {
            Ok(0) => return Ok(octets),
            Ok(len) => octets.extend_from_slice(&chunk[..len])?,
            Err(error) => {
                if error.kind() != io::ErrorKind::Interrupted {
                    return Err(AppFault::from(error));
                }
            }
        }
    }
    Err(AppFault::FileFault)
}
