//! Laws of the served objects, of the map of variables, and of changes. Each is a function that
//! does nothing.

ghost use Rattle.std.specs.Prelude.{◌≡◌, ◌↔◌, ◌++◌, ◌∷◌, [], ℕ, List, Option, Contains, AllPairs, IsTrue, false};
ghost use Rattle.std.specs.declared.cmp.Ordering.TheVariants.{Less};
ghost use Rattle.mon_pdu.specs.declared.message.Binding.{Binding};
ghost use Rattle.mon_ber.specs.Grammar.{tag_of};
ghost use Rattle.mon_vacm.specs.declared.family.ViewTreeFamily.{ViewTreeFamily};
ghost use Rattle.mon_vacm.specs.View.{IsInView};
ghost use Rattle.mon_mib.specs.declared.got.Got.{Got as AnyGot};
ghost use Rattle.mon_mib.specs.declared.object.Object.{Object as AnyObject};
ghost use Rattle.mon_mib.specs.declared.change.Change.{Change as AnyChange};
ghost use Rattle.mon_mib.specs.Change.{changed, undoing, same_target};
ghost use Rattle.mon_mib.specs.Held.{Held, AreIndexes};
ghost use Rattle.mon_mib.specs.Known.{Known, variable_value, vars};
ghost use Rattle.mon_mib.specs.Next.{IsVariable, IsNext, IsGot};
ghost use Rattle.mon_mib.specs.Objects.{objects, prefix_of, syntax_of};
ghost use Rattle.mon_mib.specs.Order.{start_of, IsFrom, name_cmp, is_before};

/// The names under a prefix that exceed a name are those from its start on.
pub fn start()
    ensures { (prefix name : List ℕ) (i : ℕ)
        → (name_cmp name (prefix ++ i ∷ []) ≡ Less) ↔ IsFrom (start_of prefix name) i }
{}

/// All names under a prefix come before all names under a later one.
pub fn apart()
    ensures { (p q rest others : List ℕ) → IsTrue (is_before p q)
        → name_cmp (p ++ rest) (q ++ others) ≡ Less }
{}

/// The served objects are in the order of their names, and none's name begins another's: each name
/// under an object comes before each name under a later one.
pub fn objects_rise()
    ensures { AllPairs (λ o q. (rest others : List ℕ) → name_cmp (prefix_of o ++ rest)
        (prefix_of q ++ others) ≡ Less) objects }
{}

/// The list of all variables has those of the objects, and no others.
pub fn variables()
    ensures { (k : Known) (b : Binding) → Contains (vars k) b ↔ IsVariable objects k b }
{}

/// Each value has the tag of its object's syntax.
pub fn typed()
    ensures { (k : Known) (o : AnyObject) (i : ℕ) → tag_of (variable_value k o i) ≡ syntax_of o }
{}

/// A name is that of one variable at most.
pub fn one_variable()
    ensures { (k : Known) (a b : Binding) → IsVariable objects k a → IsVariable objects k b
        → a.name ≡ b.name → a ≡ b }
{}

/// Only one answer is right for Get of a name.
pub fn one_got()
    ensures { (k : Known) (x : List ℕ) (r s : AnyGot) → IsGot k x r → IsGot k x s → r ≡ s }
{}

/// Only one answer is right for the successor of a name.
pub fn one_next()
    ensures { (k : Known) (families : List ViewTreeFamily) (view x : List ℕ) (r s : Option Binding)
        → IsNext objects k (IsInView families view) x r → IsNext objects k (IsInView families view)
        x s → r ≡ s }
{}

/// The list of all variables is in the order of their names, where the indexes rise.
pub fn variables_rise()
    ensures { (k : Known) → AreIndexes k.held.indexes → AllPairs
        (λ a b. name_cmp a.name b.name ≡ Less) (vars k) }
{}

/// The undoing of a change puts back what was there.
pub fn undone()
    ensures { (c : AnyChange) (h : Held) → changed (undoing c h) (changed c h) ≡ h }
{}

/// Changes of different things can be made in either order.
pub fn swapped()
    ensures { (c d : AnyChange) (h : Held) → same_target c d ≡ false
        → changed c (changed d h) ≡ changed d (changed c h) }
{}
