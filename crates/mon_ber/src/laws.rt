//! Laws over the spellings of values. Each is a function that does nothing.

ghost use Rattle.std.specs.Prelude.{◌≡◌, ◌<◌, ◌≤◌, ℕ, List, All, [], ◌++◌, Ok, length};
ghost use Rattle.mon_ber.specs.declared.value.Value.{Value};
ghost use Rattle.mon_ber.specs.Grammar.{Spells};
ghost use Rattle.mon_ber.specs.Reading.{value_at};
ghost use Rattle.mon_ber.specs.Writing.{written, HasLength, IsValid};

/// What is written for a value is one of its spellings.
pub fn written()
    ensures { (v : Value) → IsValid v → HasLength v → Spells (written v) v }
{}

/// No spelling of a value in octets is shorter than what is written for it.
pub fn shortest()
    ensures { (text : List ℕ) (v : Value) → All (λ octet. octet < 256) text → Spells text v
        → length (written v) ≤ length text }
{}

/// No spelling of a value is a proper prefix of a spelling of any value, and each has one meaning.
pub fn front()
    ensures { (text more : List ℕ) (v w : Value) → Spells text v → Spells (text ++ more) w
        → (more ≡ []) × (v ≡ w) }
{}

/// What is read from octets was spelled by those in front of what is left.
pub fn taken()
    ensures { (octets : List ℕ) (v : Value) (rest : List ℕ) → All (λ octet. octet < 256) octets
        → value_at octets ≡ Ok (v, rest)
        → (text : List ℕ) × Spells text v × (octets ≡ text ++ rest) }
{}

/// What spells a value is read, whatever follows it.
pub fn read_back()
    ensures { (text : List ℕ) (v : Value) (rest : List ℕ) → Spells text v
        → value_at (text ++ rest) ≡ Ok (v, rest) }
{}
