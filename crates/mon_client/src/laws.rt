//! Laws over what a text means. Each is a function that does nothing; its clauses are the law.

ghost use Rattle.std.specs.Prelude.{◌≡◌, ℕ, List};
ghost use Rattle.mon_ber.specs.declared.value.Value.{Value};
ghost use Rattle.mon_client.specs.declared.value.ValueKind.{ValueKind};
ghost use Rattle.mon_client.specs.Meaning.{MeansValue};

/// A text means one value at most, for a kind.
pub fn one_value()
    ensures { (kind : ValueKind) (text : List ℕ) (a b : Value) → MeansValue kind text a
        → MeansValue kind text b → a ≡ b }
{
    mon_oid::laws::one_reading();
}
