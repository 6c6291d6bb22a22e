//! Laws of names, tokens and modules. Each is a function that does nothing.

ghost use Rattle.std.specs.Prelude.{◌≡◌, ◌↔◌, ℕ, List, Some};
ghost use Rattle.mon_smi.specs.declared.definition.Definition.{Definition as AnyDefinition};
ghost use Rattle.mon_smi.specs.declared.token.Token.{Token as AnyToken};
ghost use Rattle.mon_smi.specs.Tokens.{AreTokens, RisesFrom};
ghost use Rattle.mon_smi.specs.Lexemes.{AreTokensOf};
ghost use Rattle.mon_smi.specs.Grammar.{Derives};
ghost use Rattle.mon_smi.specs.Names.{AreDistinct, StandsFor, MeansNumbers, EndsUndefined, IsCircular};
ghost use Rattle.mon_smi.specs.Parents.{numbers_of};
ghost use Rattle.mon_smi.specs.Nearest.{IsNameOf};
ghost use Rattle.mon_smi.specs.Labels.{name_text};
ghost use Rattle.mon_oid.specs.Oid.{IsOid};

/// A name means at most one identifier.
pub fn one_meaning()
    ensures { (defs : List AnyDefinition) (w p q : List ℕ) → AreDistinct defs → StandsFor defs w p
        → StandsFor defs w q → p ≡ q }
{}

/// A name whose chain of parents ends at no definition means nothing.
pub fn lost()
    ensures { (defs : List AnyDefinition) (w q : List ℕ) → AreDistinct defs → StandsFor defs w q
        → ¬ (EndsUndefined defs w) }
{}

/// A name whose chain of parents comes to a name again means nothing.
pub fn circular()
    ensures { (defs : List AnyDefinition) (w q : List ℕ) → AreDistinct defs → StandsFor defs w q
        → ¬ (IsCircular defs w) }
{}

/// Following the parents of a name yields the numbers that it means, and nothing if it means none.
pub fn parents()
    ensures { (defs : List AnyDefinition) (w q : List ℕ) → AreDistinct defs
        → (numbers_of defs w ≡ Some q) ↔ StandsFor defs w q }
{}

/// Each identifier is written in one way: as its nearest name and the rest, or with dots where it
/// has none.
pub fn one_text()
    ensures { (defs : List AnyDefinition) (oid text : List ℕ) → AreDistinct defs → IsOid oid
        → (text ≡ name_text defs oid) ↔ IsNameOf defs oid text }
{}

/// A text means one list of numbers at most.
pub fn one_reading()
    ensures { (defs : List AnyDefinition) (text p q : List ℕ) → AreDistinct defs
        → MeansNumbers defs text p → MeansNumbers defs text q → p ≡ q }
{
    mon_oid::laws::one_reading();
}

/// A text has one list of tokens at most.
pub fn one_cut()
    ensures { (text : List ℕ) (a b : List AnyToken) → AreTokens text a → AreTokens text b → a ≡ b }
{}

/// Each token's bytes, from its start to its end, are in the text and are spelled as its kind is.
pub fn slices()
    ensures { (text : List ℕ) (tokens : List AnyToken) → AreTokens text tokens
        → AreTokensOf text tokens }
{}

/// Tokens have a byte at least, and none begins before the one before it ends.
pub fn rising()
    ensures { (text : List ℕ) (tokens : List AnyToken) → AreTokens text tokens
        → RisesFrom 0 tokens }
{}

/// A text derives one module at most.
pub fn one_module()
    ensures { (text v w : List ℕ) (a b : List AnyDefinition) → Derives text v a → Derives text w b
        → (v ≡ w) × (a ≡ b) }
{}
