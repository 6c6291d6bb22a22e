ghost use Rattle.std.specs.Prelude.{◌≡◌, map, IfOk};
ghost use Rattle.mon_smi.specs.BuiltIn.{rooted, built_in};

use crate::definition::Definition;
use crate::numbers::Numbers;
use crate::word::Word;
use std::alloc::{AllocError, Global};

/// `iso` of ASN.1, and the names of the module SNMPv2-SMI (RFC 2578 section 2), with all of their
/// numbers.
const BUILT_IN: [(&str, &[u32]); 17] = [
    ("iso", &[1]),
    ("org", &[1, 3]),
    ("dod", &[1, 3, 6]),
    ("internet", &[1, 3, 6, 1]),
    ("directory", &[1, 3, 6, 1, 1]),
    ("mgmt", &[1, 3, 6, 1, 2]),
    ("mib-2", &[1, 3, 6, 1, 2, 1]),
    ("transmission", &[1, 3, 6, 1, 2, 1, 10]),
    ("experimental", &[1, 3, 6, 1, 3]),
    ("private", &[1, 3, 6, 1, 4]),
    ("enterprises", &[1, 3, 6, 1, 4, 1]),
    ("security", &[1, 3, 6, 1, 5]),
    ("snmpV2", &[1, 3, 6, 1, 6]),
    ("snmpDomains", &[1, 3, 6, 1, 6, 1]),
    ("snmpProxys", &[1, 3, 6, 1, 6, 2]),
    ("snmpModules", &[1, 3, 6, 1, 6, 3]),
    ("zeroDotZero", &[0, 0]),
];

/// The definitions of the built-in names.
pub(crate) fn built_in(alloc: Global) -> Result<Vec<Definition>, AllocError>
    ensures { IfOk result (λ v. v.items ≡ built_in) }
{
    definitions(alloc, &BUILT_IN)
}

/// Definitions with no parent, one for each row.
fn definitions(alloc: Global, rows: &[(&str, &[u32])]) -> Result<Vec<Definition>, AllocError>
    ensures { IfOk result (λ v. v.items ≡ map (λ row. rooted row.0.now row.1.now) rows.now) }
{
    let mut definitions = Vec::new(alloc);
    for row in rows {
        let name = Word::from_str(alloc, row.0)?;
        let numbers = Numbers::from_slice(alloc, row.1)?;
        definitions.push(Definition {
            name,
            parent: None,
            numbers,
        })?;
    }
    Ok(definitions)
}
