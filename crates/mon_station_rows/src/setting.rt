//! What the station is set up with.

use mon_row_texts::put;
use mon_settings::{Addr, Core, read_station};
use mon_smi::Names;
use std::alloc::Global;

/// What comes before the window's size.
const BEFORE: &str = "station = 1
listen = \"127.0.0.1:16101\"
file = \"a.mon\"
wait_ms = 200
window = ";

/// What comes between the window's size and the engine id.
const TARGET: &str = "

[[target]]
address = \"127.0.0.1:16100\"
community = \"public\"
tries = 2
engine = \"";

/// What comes between the engine id and the object's name.
const OBJECT: &str = "\"
objects = [{ name = \"";

/// What comes after the object's name: the peers 2 and 3.
const AFTER: &str = "\" }]

[[peer]]
station = 2
address = \"127.0.0.1:16102\"

[[peer]]
station = 3
address = \"127.0.0.1:16103\"
";

/// An engine id and the name of an object, ifInOctets.1.
const USUAL: [&str; 2] = ["8000000001", "1.3.6.1.2.1.2.2.1.10.1"];

/// The longest engine id, and the beginning of the longest name.
const LONGEST: [&str; 2] = [
    "8000000001020304050607080910111213141516171819202122232425262728",
    "1.3.6.1.4.1.32473",
];

/// How many numbers the longest name has.
const MAX_PARTS: usize = 128;

/// Where the target's datagrams come from.
pub(crate) const AGENT: Addr = Addr {
    octets: [127, 0, 0, 1],
    port: 16100,
};

/// Makes the core of a station of one object: `1` and the like is the window's size, `long` has the
/// longest engine id and name and a window of 64.
pub(crate) fn core(alloc: Global, word: &str) -> Option<Core> {
    let mut text = String::new(alloc);
    if word == "long" {
        put_before(&mut text, "64", LONGEST[0])?;
        put(&mut text, LONGEST[1])?;
        // The name goes on with as many numbers as it may have.
        for _ in LONGEST[1].split('.').count()..MAX_PARTS {
            put(&mut text, ".4294967295")?;
        }
    } else {
        put_before(&mut text, word, USUAL[0])?;
        put(&mut text, USUAL[1])?;
    }
    put(&mut text, AFTER)?;
    let names = Names::new(alloc).ok()?;
    Some(read_station(alloc, text.as_str(), &names).ok()?.core)
}

/// Appends what comes before the object's name.
fn put_before(text: &mut String, size: &str, engine: &str) -> Option<()> {
    put(text, BEFORE)?;
    put(text, size)?;
    put(text, TARGET)?;
    put(text, engine)?;
    put(text, OBJECT)
}
