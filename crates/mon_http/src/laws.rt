//! Laws over the definitions. Each is a function that does nothing; its clauses are the law.

ghost use Rattle.std.specs.Prelude.{◌≡◌, ◌≤◌, ◌⊎◌, ◌++◌, ℕ, List, [], true, length};
ghost use Rattle.httparse.specs.Grammar.{RequestHead, print_request, ReadsRequest};
ghost use Rattle.mon_http.specs.declared.request.Verdict.{Verdict};
ghost use Rattle.mon_http.specs.Request.{most_octets, verdict_of, IsJudged, IsQuiet};
ghost use Rattle.mon_http.specs.Front.{skip_line_ends};
ghost use Rattle.mon_http.specs.Conversation.{Conversation, Moment, Talk, History, IsAtRest};

/// Whatever pieces the octets come in, what is answered is what the whole of them says; so two
/// connections on which the same octets came answer the same, and so does one that closed before
/// all of them came.
pub fn any_cut()
    ensures answered { (names : List (List ℕ)) (moments : ℕ → Moment) (k : ℕ)
        (received sent : List ℕ) (c : Conversation)
        → History names moments k received sent c → IsAtRest c
        → Talk names moments 0 (skip_line_ends received) (sent ++ c.unsent) c.closing }
    ensures same { (names : List (List ℕ)) (moments : ℕ → Moment) (k l : ℕ)
        (received more sent sent' : List ℕ) (c d : Conversation)
        → History names moments k received sent c → IsAtRest c
        → History names moments l (received ++ more) sent' d → IsAtRest d
        → (c.closing ≡ true) ⊎ (more ≡ []) → (sent ++ c.unsent ≡ sent' ++ d.unsent)
        × (c.closing ≡ d.closing) }
{}

/// A request of the grammar with at most 32 fields and 8192 octets is judged by its parts, whatever
/// follows.
pub fn requests()
    ensures { (names : List (List ℕ)) (octets : List ℕ) (h : RequestHead) (rest : List ℕ)
        → ReadsRequest octets h rest → h.blank ≡ []
        → length h.fields ≤ 32 → length (print_request h) ≤ most_octets
        → IsJudged names octets (verdict_of names h (length (print_request h))) }
{}

/// Octets have one verdict at most, and none while more are needed.
pub fn one_verdict()
    ensures same { (names : List (List ℕ)) (octets : List ℕ) (v w : Verdict)
        → IsJudged names octets v → IsJudged names octets w → v ≡ w }
    ensures apart { (names : List (List ℕ)) (octets : List ℕ) (v : Verdict)
        → IsJudged names octets v → IsQuiet octets → ⊥ }
{}
