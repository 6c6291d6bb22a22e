//! Laws of identifiers. Each is a function that does nothing.

ghost use Rattle.std.specs.Prelude.{◌≡◌, ◌+◌, ◌^◌, ◌<◌, ◌≤◌, ◌↔◌, ◌++◌, ◌∷◌, [], ℕ, List, All, length};
ghost use Rattle.std.specs.Ordering.{nat_cmp};
ghost use Rattle.std.specs.Cmp.Lexicographic.{slice_cmp};
ghost use Rattle.std.specs.declared.cmp.Ordering.TheVariants.{Less};
ghost use Rattle.mon_oid.specs.Oid.{IsOid, ComesBefore, AreNumbers, Spells, dotted};

/// A text spells one list of numbers at most.
pub fn one_reading()
    ensures { (a b : List ℕ) → AreNumbers a → AreNumbers b → dotted a ≡ dotted b → a ≡ b }
{}

/// What is written for an identifier spells it, so it is read back.
pub fn read_back()
    ensures { (oid : List ℕ) → IsOid oid → Spells (dotted oid) oid }
{}

/// The order is by the first sub-identifier that differs, and a proper prefix comes first.
pub fn order()
    ensures { (a b : List ℕ) → (slice_cmp nat_cmp a b ≡ Less) ↔ ComesBefore a b }
{}

/// An identifier with more sub-identifiers after it is one, up to 128 of them.
pub fn extended()
    ensures { (oid more : List ℕ) → IsOid oid → length oid + length more ≤ 128
        → All (λ part. part < 2 ^ 32) more → IsOid (oid ++ more) }
{}

/// An identifier with one more sub-identifier after it is one, up to 128 of them.
pub fn pushed()
    ensures { (oid : List ℕ) (part : ℕ) → IsOid oid → length oid < 128 → part < 2 ^ 32
        → IsOid (oid ++ part ∷ []) }
{}
