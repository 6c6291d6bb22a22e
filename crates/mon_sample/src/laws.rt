//! Laws of samples and their records. Each is a function that does nothing.

ghost use Rattle.std.specs.Prelude.{◌≡◌, ◌<◌, ◌^◌, ℕ};
ghost use Rattle.std.specs.Ordering.{nat_cmp};
ghost use Rattle.std.specs.Cmp.Lexicographic.{slice_cmp};
ghost use Rattle.mon_sample.specs.Key.{key, IsSample};
ghost use Rattle.mon_sample.specs.Record.{octets_of, spelled, layout};

/// The order of the samples' octets is the order of their numbers.
pub fn order()
    ensures { (s t : ℕ) → IsSample s → IsSample t → slice_cmp nat_cmp (octets_of s) (octets_of t)
        ≡ nat_cmp s t }
{}

/// A sample's octets spell it.
pub fn one_number()
    ensures { (s : ℕ) → IsSample s → spelled (octets_of s) ≡ s }
{}

/// A sample's octets are those of its boots, time, discontinuity, tag and value, one after another.
pub fn octets_by_field()
    ensures { (boots time discontinuity tag value : ℕ) → time < 2 ^ 32 → discontinuity < 2 ^ 32
        → tag < 2 ^ 8 → value < 2 ^ 64
        → octets_of (key boots time discontinuity tag value)
        ≡ layout boots time discontinuity tag value }
{}
