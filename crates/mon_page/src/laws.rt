//! Laws over the definitions. Each is a function that does nothing; its clauses are the law.

ghost use Rattle.std.specs.Prelude.{◌≡◌, ◌≤◌, ◌<◌, ◌+◌, ◌++◌, ℕ, List, [], Option, None, Some, All, IsPermutation, codes, false, filter, get_or, length, slice_get};
ghost use Rattle.std.specs.List.{flat_map};
ghost use Rattle.mon_report.specs.Report.{Entry};
ghost use Rattle.mon_page.specs.Cells.{newest_of};
ghost use Rattle.mon_page.specs.Devices.{devices};
ghost use Rattle.mon_page.specs.Escape.{escaped, text_read, IsLineOf, IsPlain};
ghost use Rattle.mon_page.specs.Freshness.{ages_of, is_fresh, limit_of};
ghost use Rattle.mon_page.specs.Labelled.{labelled, IsUnlabelled};
ghost use Rattle.mon_page.specs.Page.{counts_of, figure_cells, label_line, page_text, peers_of, raised_alarms, raised_of};
ghost use Rattle.mon_page.specs.Plot.{across, below_top};
ghost use Rattle.mon_page.specs.Rows.{row_of, row_state, rows_of, Row};
ghost use Rattle.mon_page.specs.Seats.{interfaces, others};
ghost use Rattle.mon_page.specs.declared.extras.InstanceLabels.{InstanceLabels};
ghost use Rattle.mon_page.specs.declared.extras.Presentation.{Presentation};
ghost use Rattle.mon_page.specs.declared.figures.Figures.{Figures};
ghost use Rattle.mon_page.specs.declared.plot.Scale.{Scale};

/// An escaped text has no `<`, `>` or `"`, and is read as the text that was escaped, so each `&`
/// begins a reference. So the line of an ifName or an ifAlias is one element, which is read as its
/// title and the text.
pub fn escaped_texts()
    ensures plain { (text : List ℕ) → All IsPlain (flat_map escaped text) }
    ensures read_back { (text : List ℕ) → text_read None (flat_map escaped text) ≡ text }
    ensures if_name { (text : List ℕ) → IsLineOf (label_line (codes "ifName") text)
        (codes "ifName " ++ text) }
    ensures if_alias { (text : List ℕ) → IsLineOf (label_line (codes "ifAlias") text)
        (codes "ifAlias " ++ text) }
{}

/// The page of instances whose labels say nothing is that of instances without labels.
pub fn empty_labels()
    ensures { (shown : List ℕ → List ℕ) (labels : List InstanceLabels) (entries : List Entry)
        (station : Option Figures) (presentation : Presentation)
        → All IsUnlabelled labels
        → page_text shown (labelled labels entries) station presentation
        ≡ page_text shown (labelled [] entries) station presentation }
{}

/// The instance at a place is shown with the window, the labels and the age at that place.
pub fn rows_in_place()
    ensures { (station : Option Figures) (labels : List InstanceLabels) (entries : List Entry)
        (i : ℕ) (e : Entry) (other : Row) → i < length entries
        → get_or (rows_of station (labelled labels entries)) i other
        ≡ row_of (limit_of station) (slice_get (ages_of station) i)
        (get_or entries i e, slice_get labels i) }
{}

/// An instance is stale if its age is at the limit or above. Its cells say no more than its newest
/// value and its age: those before the plot are those of any other stale instance with this value,
/// whatever rates both have.
pub fn stale_cells()
    ensures stale { (limit age : ℕ) → limit ≤ age → is_fresh limit (Some age) ≡ false }
    ensures state { (row : Row) → row.fresh ≡ false → row_state row ≡ codes "stale" }
    ensures alarms { (row : Row) → row.fresh ≡ false → raised_of row ≡ [] }
    ensures alike { (some other : Row) → some.fresh ≡ false → other.fresh ≡ false
        → newest_of some.entry.items ≡ newest_of other.entry.items
        → figure_cells some ≡ figure_cells other }
{}

/// The numbers of raised alarms and of devices in the head are those of the lists below it. The
/// list of alarms has those of each instance in their order, each once. Each peer is
/// counted, or listed as silent.
pub fn counted()
    ensures alarms { (station : Option Figures) (rows : List Row)
        → (counts_of station rows).raised ≡ length (raised_alarms rows) }
    ensures devices { (station : Option Figures) (rows : List Row)
        → (counts_of station rows).devices ≡ length (devices rows) }
    ensures peers { (station : Option Figures) (rows : List Row)
        → (counts_of station rows).heard + length (filter (λ p. p.silent) (peers_of station))
        ≡ (counts_of station rows).peers }
    ensures each { (rows more : List Row) → raised_alarms (rows ++ more)
        ≡ raised_alarms rows ++ raised_alarms more }
{}

/// The newest sample is at the right edge, and a later one is never left of an earlier one. A
/// greater level is never below a lesser one, and the lowest is at the lower edge.
pub fn plotted_points()
    ensures newest { (span : ℕ) → across span span ≡ 240 }
    ensures rising { (span earlier elapsed : ℕ) → earlier ≤ elapsed
        → across span earlier ≤ across span elapsed }
    ensures higher { (scale : Scale) (lower level : ℕ) → lower ≤ level
        → below_top scale level ≤ below_top scale lower }
    ensures lowest { (scale : Scale) → below_top scale scale.low ≡ 40 }
{}

/// The devices, one after another, have all instances in their order. Of each device every instance
/// is shown once: in the row of its interface or among the others.
pub fn shared_out()
    ensures devices { (rows : List Row) → flat_map (λ d. d) (devices rows) ≡ rows }
    ensures once { (device : List Row) → IsPermutation device
        (flat_map (λ i. i) (interfaces device) ++ others device) }
{}
