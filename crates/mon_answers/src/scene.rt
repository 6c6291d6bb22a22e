//! How recorded datagrams arrive, and how their replies are printed.

use mon_mib::Moment;
use mon_smi::Labels;

/// How datagrams arrive, and how their replies are printed.
#[derive(Clone, Copy)]
pub struct Scene<'a, 'n> {
    /// The time at which each of them arrives.
    pub at: Moment,
    /// How many times each of them arrives; 0 counts as 1.
    pub times: u32,
    /// The names with which a reply is printed as a client prints it; if absent, it is printed in
    /// hex digits.
    pub labels: Option<&'a Labels<'n>>,
}
