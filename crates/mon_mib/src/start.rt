ghost use Rattle.std.specs.Prelude.{◌≡◌, ◌↔◌, [], ℕ, IsTrue};
ghost use Rattle.mon_mib.specs.Order.{start_of};

/// From which instance on the names of an object exceed a name.
#[derive(Clone, Copy)]
pub(crate) enum Start {
    /// All do.
    First,
    /// Those of the instances above this one.
    Above(u32),
    /// None does.
    Nowhere,
}

impl Start {
    ghost use Rattle.mon_mib.specs.Order.{IsFrom};

    /// Returns `true` if all instances from here on are also from another start on.
    pub(crate) fn is_after(self, other: Start) -> bool
        ensures { IsTrue result → (i : ℕ) → IsFrom self i → IsFrom other i }
    {
        match (self, other) {
            (Start::Nowhere, _) | (_, Start::First) => true,
            (Start::Above(own), Start::Above(last)) => last <= own,
            _ => false,
        }
    }

    /// Returns `true` if an instance is from here on.
    pub(crate) fn has(self, instance: u32) -> bool
        ensures { IsTrue result ↔ IsFrom self instance }
    {
        match self {
            Start::First => true,
            Start::Above(last) => last < instance,
            Start::Nowhere => false,
        }
    }
}

/// From which instance on the names `prefix.i` exceed the name, in the order of RFC 3416 section
/// 4.2.2. Most names begin with the prefix.
pub(crate) fn find_start(prefix: &[u32], name: &[u32]) -> Start
    ensures { result ≡ start_of prefix.now name.now }
{
    match name.strip_prefix(prefix) {
        Some(rest) => start_behind(rest),
        None => start_apart(prefix, name),
    }
}

/// What `find_start` returns of a name whose numbers behind the prefix these are.
fn start_behind(rest: &[u32]) -> Start
    ensures { result ≡ start_of [] rest.now }
{
    match rest {
        [instance, ..] => Start::Above(*instance),
        [] => Start::First,
    }
}

/// What `find_start` returns, by comparing number by number.
fn start_apart(prefix: &[u32], name: &[u32]) -> Start
    ensures { result ≡ start_of prefix.now name.now }
{
    let mut rest = name;
    for part in prefix {
        let [first, others @ ..] = rest else {
            return Start::First;
        };
        if part < first {
            return Start::Nowhere;
        }
        if first < part {
            return Start::First;
        }
        rest = others;
    }
    start_behind(rest)
}
