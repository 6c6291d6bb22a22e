//! Laws of the layouts. Each is a function that does nothing.

ghost use Rattle.std.specs.Prelude.{◌≡◌, ◌++◌, ℕ, List, length, Ok};
ghost use Rattle.mon_ber.proofs.Promised.{IsBytes};
ghost use Rattle.mon_fields.specs.Layout.{samples_octets, AreSamples};
ghost use Rattle.mon_fields.specs.Reading.{samples_at};

/// What is read as samples is their layout, and their layout is read as them, whatever follows.
pub fn samples()
    ensures takes { (n : ℕ) (octets samples rest : List ℕ) → IsBytes octets
        → samples_at n octets ≡ Ok (samples, rest)
        → (octets ≡ samples_octets samples ++ rest) × (length samples ≡ n) × AreSamples samples }
    ensures again { (samples rest : List ℕ) → AreSamples samples
        → samples_at (length samples) (samples_octets samples ++ rest) ≡ Ok (samples, rest) }
{
    mon_sample::laws::one_number();
}
