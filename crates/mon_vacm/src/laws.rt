//! Laws of views and decisions. Each is a function that does nothing.

ghost use Rattle.std.specs.Prelude.{◌≡◌, ◌⊎◌, ℕ, List, Contains};
ghost use Rattle.mon_vacm.specs.declared.family.ViewTreeFamily.{ViewTreeFamily as AnyFamily};
ghost use Rattle.mon_vacm.specs.declared.decision.Decision.{Decision as AnyDecision};
ghost use Rattle.mon_vacm.specs.declared.view_type.ViewType.{ViewType as AnyNeed};
ghost use Rattle.mon_vacm.specs.Decision.{IsRight};
ghost use Rattle.mon_vacm.specs.Tables.{PolicyTables, AreFamiliesDistinct};
ghost use Rattle.mon_vacm.specs.View.{Decides, IsInView};

/// At most one family decides on a name.
pub fn one_decides()
    ensures { (families : List AnyFamily) (view name : List ℕ) (f g : AnyFamily)
        → AreFamiliesDistinct families
        → Decides families view name f → Decides families view name g → f ≡ g }
{}

/// Neither the order of the families nor a repetition matters.
pub fn only_members()
    ensures { (xs ys : List AnyFamily) (view name : List ℕ)
        → ((f : AnyFamily) → Contains xs f → Contains ys f) →
        ((f : AnyFamily) → Contains ys f → Contains xs f)
        → IsInView xs view name → IsInView ys view name }
{}

/// Of a community, a need and a name only one decision is right.
pub fn one_decision()
    ensures { (tables : PolicyTables) (community : List ℕ) (need : AnyNeed) (name : List ℕ)
        (d e : AnyDecision)
        → IsRight tables community need name d → IsRight tables community need name e → d ≡ e }
{}

/// Returns `true` if a name is in a view is decided.
pub fn decided()
    ensures { (families : List AnyFamily) (view name : List ℕ)
        → IsInView families view name ⊎ ¬ (IsInView families view name) }
{}
