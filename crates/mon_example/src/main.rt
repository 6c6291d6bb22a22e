//! The smallest program over these crates: prints what windows of 8 samples keep of the responses
//! on standard input, one a line in hex digits. `snmpmon replay` does the same with windows of any
//! size.
//!
//!     rt try < ../../examples/three-responses.hex
#![tactic(auto)]

use std::io::{self, Read, Write};

/// How many samples a window holds.
const WINDOW: usize = 8;

fn main(rt: HostRuntime) -> io::Result<()> {
    let mut input = Vec::new(rt.alloc());
    rt.reader().read_to_end(&mut input)?;
    let text = mon_app::replay(rt.alloc(), WINDOW, input.as_slice())?;
    io::writer(&rt).write_all(text.as_slice())
}
