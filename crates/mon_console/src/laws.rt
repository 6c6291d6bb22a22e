//! Laws of the definitions. Each function does nothing, and its clause is the law.

ghost use Rattle.std.specs.Prelude.{◌≡◌, ◌⊎◌, ◌++◌, ◌∷◌, [], ℕ, List, Ok, Result, String, codes};
ghost use Rattle.std.specs.Global.{Global};
ghost use Rattle.mon_console.specs.Files.{IsPublishing, IsReplacing, IsText};
ghost use Rattle.mon_console.specs.declared.failure.Failure.{Failure};
ghost use Rattle.mon_host.specs.AtHost.{AtHost, FileRead, FileUnread, Permitted, Renamed, Written};
ghost use Rattle.mon_host.specs.Reason.{Why};

/// Where a file was replaced, a new one was written next to it and renamed, and nothing else was
/// done.
pub fn replaced_once()
    ensures { (path octets : List ℕ) (log : List AtHost) (done : Unit {0})
        → IsReplacing path octets log (Ok done)
        → log ≡ Written (path ++ codes ".new") octets ∷ Renamed (path ++ codes ".new") path ∷ [] }
{}

/// Where a file was published, a new one was written next to it, all users were permitted to read
/// that, and it was renamed, in this order, and nothing else was done.
pub fn published_once()
    ensures { (path octets : List ℕ) (log : List AtHost) (done : Unit {0})
        → IsPublishing path octets log (Ok done)
        → log ≡ Written (path ++ codes ".new") octets ∷ Permitted (path ++ codes ".new")
        ∷ Renamed (path ++ codes ".new") path ∷ [] }
{}

/// Where the text in a file was read, or was not, one call was made.
pub fn read_once()
    ensures { (path : List ℕ) (log : List AtHost) (result : Result (String Global) Failure)
        → IsText path log result
        → ((octets : List ℕ) × (log ≡ FileRead path octets ∷ []))
        ⊎ ((why : Why) × (log ≡ FileUnread path why ∷ [])) }
{}
