//! Laws of reports. Each is a function that does nothing.

ghost use Rattle.std.specs.Prelude.{◌≡◌, ◌++◌, [], List, ℕ, Bool, Option};
ghost use Rattle.mon_board.specs.Watch.{Watch};
ghost use Rattle.mon_board.specs.Windows.{IsPartOf, window};
ghost use Rattle.mon_window.specs.Window.{Samples};
ghost use Rattle.mon_report.specs.Report.{report};
ghost use Rattle.mon_report.specs.Written.{AppendsIf};

/// Equal watches with equal windows have equal reports.
pub fn equal_windows()
    ensures { (watch : Watch) (some others : ℕ → Samples) → ((i : ℕ) → some i ≡ others i)
        → report watch some ≡ report watch others }
{}

/// Equal watches that took the same samples, in whatever order and however often, have equal
/// reports.
pub fn equal_samples()
    ensures { (watch : Watch) (some others : List (ℕ × ℕ)) → IsPartOf some others
        → IsPartOf others some
        → report watch (window watch some) ≡ report watch (window watch others) }
{
    mon_board::laws::windows_meet();
}

/// Texts that were written one after another are one text, also where the writer failed in between.
pub fn written()
    ensures none { (held : Option (List ℕ)) (ok : Bool) → AppendsIf held ok held ok [] }
    ensures more { (a b c : Option (List ℕ)) (p q r : Bool) (xs ys : List ℕ) → AppendsIf a p b q xs
        → AppendsIf b q c r ys → AppendsIf a p c r (xs ++ ys) }
{}
