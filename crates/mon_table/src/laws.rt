//! Laws over the definitions. Each is a function that does nothing; its clauses are the law.

ghost use Rattle.std.specs.Prelude.{◌≡◌, All, Bool, List, [], length};
ghost use Rattle.std.specs.List.Sorted.{IsPermutation};
ghost use Rattle.mon_page.specs.declared.extras.Sort.{Sort};
ghost use Rattle.mon_table.specs.Cells.{Cells, Listed};
ghost use Rattle.mon_table.specs.Order.{AreOrdered, ordered_from};
ghost use Rattle.mon_table.specs.Table.{IsNarrow, row_cells, title_cells, widths_of};
ghost use Rattle.mon_table.specs.declared.rows.Row.{Row};

/// In each order a table has the same rows, each as often, and no row of a device is heavier than
/// the one above it.
pub fn orders()
    ensures same { (order : Sort) (l : Listed) (rows : List Row)
        → IsPermutation rows (ordered_from order l [] rows) }
    ensures sorted { (order : Sort) (l : Listed) (rows : List Row)
        → AreOrdered order l (ordered_from order l [] rows) }
{}

/// The names of rows begin in one column, that of their title, if no alarm, number of samples or
/// age is wider than its column: six, seven and five octets.
pub fn names_in_one_column()
    ensures { (aged : Bool) (cells : List Cells) → All IsNarrow cells
        → All (λ c. length (row_cells (widths_of cells) aged c)
        ≡ length (title_cells (widths_of cells) aged)) cells }
{}
