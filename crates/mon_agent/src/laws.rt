//! Laws of what is answered. Each is a function that does nothing; its clause is the law.

ghost use Rattle.std.specs.Prelude.{◌≡◌, ℕ, List};
ghost use Rattle.mon_pdu.specs.declared.message.Binding.{Binding};
ghost use Rattle.mon_vacm.specs.declared.family.ViewTreeFamily.{ViewTreeFamily};
ghost use Rattle.mon_vacm.specs.View.{IsInView};
ghost use Rattle.mon_mib.specs.Known.{Known};
ghost use Rattle.mon_agent.specs.Bulk.{IsStepper};
ghost use Rattle.mon_agent.specs.Step.{IsNextAnswer};

/// Only one answer is right for a name in a GetNext.
pub fn one_step()
    ensures { (k : Known) (families : List ViewTreeFamily) (view name : List ℕ) (a b : Binding)
        → IsNextAnswer k (IsInView families view) name a → IsNextAnswer k (IsInView families view)
        name b → a ≡ b }
{
    mon_mib::laws::one_next();
}

/// Each name in a GetNext has an answer: some function gives it to every name.
pub fn stepper()
    ensures { (k : Known) (families : List ViewTreeFamily) (view : List ℕ)
        → (next : List ℕ → Binding) × IsStepper k (IsInView families view) next }
{
    mon_vacm::laws::decided();
    mon_mib::laws::variables();
}
