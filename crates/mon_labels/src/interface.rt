//! The labels of one interface.

ghost use Rattle.std.specs.Prelude.{◌≡◌, option_map};
ghost use Rattle.std.specs.List.{find, list_any};
ghost use Rattle.mon_labels.specs.Described.{described, is_of};

/// The labels of an interface.
#[derive(Debug)]
pub struct InterfaceLabels {
    /// The engine id of its agent, 5 to 32 octets (RFC 3411 section 5, snmpEngineID).
    pub engine: Vec<u8>,
    /// Its ifIndex, 1 to 2147483647 (RFC 2863).
    pub index: u32,
    /// Its ifName, if it is given (RFC 2863).
    pub if_name: Option<String>,
    /// Its ifAlias, if it is given (RFC 2863).
    pub if_alias: Option<String>,
    /// Its speed in bits a second, at least 1, if it is given.
    pub speed: Option<u64>,
}

// By hand: where one is let go, a proof has one call and not a drop of each field.
impl Drop for InterfaceLabels {
    fn drop(self) {
        let InterfaceLabels {
            engine: _,
            index: _,
            if_name: _,
            if_alias: _,
            speed: _,
        } = self;
    }
}

impl InterfaceLabels {
    /// Returns `true` if this is the interface of this index at this engine.
    fn is_of(&self, engine: &[u8], index: u32) -> bool
        ensures { result ≡ is_of engine.now index (described self.now) }
    {
        self.index == index && self.engine.as_slice() == engine
    }
}

/// Returns `true` if one of the interfaces has this index at this engine.
pub(crate) fn is_there(interfaces: &[InterfaceLabels], engine: &[u8], index: u32) -> bool
    ensures { result ≡ list_any (λ l. is_of engine.now index (described l)) interfaces.now }
{
    interfaces.iter().any(|labels| labels.is_of(engine, index))
}

/// Returns the interface of this index at this engine, if there is one.
pub(crate) fn find_interface<'a>(
    interfaces: &'a [InterfaceLabels],
    engine: &[u8],
    index: u32,
) -> Option<&'a InterfaceLabels>
    ensures { option_map (λ l. l.now) result ≡ find (λ l. is_of engine.now index (described l))
        interfaces.now }
{
    interfaces.iter().find(|labels| labels.is_of(engine, index))
}
