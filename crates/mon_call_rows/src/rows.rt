//! Lines of single calls that datagrams do not show: a device that counts, a wire or a reader in
//! memory that fails, memory that is refused once, and the numbers of enums. The expected lines are
//! worked by hand, from the standards and docs/FORMATS.md.
//!
//!     agent set HEX             what an agent replies to a Set, which comes again if memory ran
//!                               out the first time: whether it had counted nothing then, the
//!                               reply, how many messages it has counted, and its name
//!     agent silences            the causes of silence
//!     agent faults              the faults of an agent
//!     client get NAME           the Get of a name under request-id 7
//!     client next NAME          the GetNext
//!     client bulk N M NAME      the GetBulk with N non-repeaters and M repetitions
//!     client set TEXT NAME      the Set to a text
//!     client asks COMMUNITY HEX,..   what a Get of sysName.0 prints over a wire that receives
//!                               something else before each of these datagrams, and what it sends
//!     client walks NAME HEX     what a walk from a name prints where each request is answered by
//!                               this message under the request's id, and why it ends
//!     client strides NAME HEX   the same of a walk by GetBulk
//!     mib next MANY MOST NAME   the name after another one on a device of MANY interfaces, and
//!                               whether the device was asked 1 to MOST times
//!     mib changes CHANGE; ..    changes of a device, `alias INDEX TEXT` or `admin INDEX STATUS
//!                               SINCE`: of each its undoing or the fault, and how often the device
//!                               has failed
//!     mib objects               how many objects there are
//!     mib object NAME INDEX     the access and syntax of an object, and its name at an index
//!     mib admin, mib oper       the statuses of an interface
//!     mib moment N              N, if the agent's time can be N hundredths of a second
//!     mib counts N              a counter that was at N after one more, and one that was at 0
//!     mib set-faults            the faults of a Set, with the error-statuses
//!     mib device-faults         the faults of a device
//!     reader gives HEX          what is read of a reader that gives these octets at once, and how
//!                               often it was read, was at its end and failed
//!     reader slow N             the same of one that gives an octet a read, is interrupted before
//!                               each, and fails after N
//!     smi adds NAME MODULE      adds a module to the names, again if memory ran out the first
//!                               time: the answer, what the name then means, and the answer to
//!                               adding the module again

use crate::{agent, client, mib, names, reading};
use mon_row_texts::put;
use std::alloc::Global;

/// Appends the answer to a line of this first word.
pub fn answer(alloc: Global, text: &mut String, word: &str, rest: &str) -> Option<()> {
    match word {
        "agent" => agent::answer(alloc, text, rest),
        "client" => client::answer(alloc, text, rest),
        "mib" => mib::answer(alloc, text, rest),
        "reader" => reading::answer(alloc, text, rest),
        "smi" => names::answer(alloc, text, rest),
        _ => None,
    }
}

/// Appends what is between two parts of an answer, if a part is there.
pub(crate) fn put_between(text: &mut String, between: &str) -> Option<()> {
    if text.is_empty() {
        return Some(());
    }
    put(text, between)
}
