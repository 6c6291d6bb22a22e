//! Laws over the definitions. Each is a function that does nothing; its clauses are the law.

ghost use Rattle.std.specs.Prelude.{◌≡◌, ◌≢◌, ◌++◌, ℕ, List};
ghost use Rattle.mon_http_client.specs.declared.response.Progress.{Progress};
ghost use Rattle.mon_http_client.specs.declared.response.Progress.TheVariants.{More};
ghost use Rattle.mon_http_client.specs.Response.{IsProgress};

/// Octets come to one thing.
pub fn one_verdict()
    ensures { (octets : List ℕ) (p q : Progress) → IsProgress octets p → IsProgress octets q
        → p ≡ q }
{}

/// Whatever pieces the octets come in, they come to what the whole of them comes to: once the first
/// of them come to a response or are refused, whatever follows changes nothing.
pub fn any_cut()
    ensures settled { (octets more : List ℕ) (p : Progress) → p ≢ More → IsProgress octets p
        → IsProgress (octets ++ more) p }
    ensures same { (octets more : List ℕ) (p q : Progress) → p ≢ More → IsProgress octets p
        → IsProgress (octets ++ more) q → p ≡ q }
{}
