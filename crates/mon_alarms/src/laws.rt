//! Laws of alarms. Each is a function that does nothing.

ghost use Rattle.std.specs.Prelude.{◌≡◌, ◌≢◌, ◌+◌, ◌≤◌, ◌∷◌, ◌++◌, ℕ, suc, Bool, not, List, [], All, Contains, None, if◌then◌else◌, nat_lt, option_map};
ghost use Rattle.std.specs.List.{flat_map, last_or};
ghost use Rattle.mon_alarms.specs.Announcing.{Alternates, announced_over, quiet, settled};
ghost use Rattle.mon_alarms.specs.Changes.{is_raised, raised_after, raised_over, raises, reported_between, reported_of};
ghost use Rattle.mon_alarms.specs.Rule.{Rule};
ghost use Rattle.mon_alarms.specs.declared.alarm.AlarmState.{AlarmState};
ghost use Rattle.mon_alarms.specs.declared.change.AlarmEvent.{AlarmEvent};

/// Whatever windows two looks find: after what they report an alarm is raised exactly if it is
/// raised over the window of the second.
pub fn leads_to_now()
    ensures { (rule : Rule) → (was is : List ℕ) → raised_after (raised_over rule was)
        (reported_between rule was is) ≡ raised_over rule is }
{}

/// Of events that are reported the last one is the last of all.
pub fn names_the_last()
    ensures { (events : List (AlarmEvent × Bool)) → reported_of events ≢ []
        → last_or None (reported_of events) ≡ option_map (λ e. e.0) (last_or None events) }
{}

/// Two looks that find the same window report nothing.
pub fn reports_once()
    ensures { (rule : Rule) → (xs : List ℕ) → reported_between rule xs xs ≡ [] }
{}

/// Whatever comes before each look: each event that is announced is one of them.
pub fn announces_events()
    ensures { (after : ℕ) (state : AlarmState) (looks : List (List AlarmEvent))
        → All (Contains (flat_map (λ es. es) looks)) (announced_over after (settled state) looks) }
{}

/// Announcements alternate: one of a raised alarm follows one of a clear alarm, and the other way
/// round. The first one differs from what was known at the start.
pub fn announcements_alternate()
    ensures { (after : ℕ) (state : AlarmState) (looks : List (List AlarmEvent))
        → Alternates (is_raised state) (announced_over after (settled state) looks) }
{}

/// Whatever came before: an event that begins another state than the one announced last, and that
/// no other event follows, is announced once, at the look that makes it `after` of them. After as
/// many looks without another event what was announced last is what the last event leads to.
pub fn announces_what_lasts()
    ensures once { (after n : ℕ) (state : AlarmState) (looks : List (List AlarmEvent))
        (events : List AlarmEvent) (event : AlarmEvent) → 1 ≤ after
        → raises event ≡ not (raised_after (is_raised state)
        (announced_over after (settled state) looks))
        → announced_over after (settled state) (looks ++ (events ++ event ∷ []) ∷ quiet n)
        ≡ announced_over after (settled state) looks ++ (if nat_lt (suc n) after then []
        else event ∷ []) }
    ensures leads { (after n : ℕ) (state : AlarmState) (looks : List (List AlarmEvent))
        (events : List AlarmEvent) (event : AlarmEvent) → 1 ≤ after → after ≤ n + 1
        → raised_after (is_raised state) (announced_over after (settled state)
        (looks ++ (events ++ event ∷ []) ∷ quiet n)) ≡ raises event }
{}

/// An alarm that changes before every look is not announced, if a change must hold in two looks or
/// more.
pub fn announces_no_flapping()
    ensures { (after : ℕ) (state : AlarmState) (looks : List (List AlarmEvent)) → 2 ≤ after
        → All (λ es. es ≢ []) looks → announced_over after (settled state) looks ≡ [] }
{}
