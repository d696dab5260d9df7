// What is known of the order of MethodList: it should run on from class to class (ECMA-335 II.22.37), but no file has to keep to it. One
// pass over the column tells, and a mark in the layout says so to every search after it.

#![tactic(auto)]

ghost use Rattle.std.specs.Prelude.{◌≡◌, ◌<◌};
ghost use Rattle.rows.specs.Columns as columns;
ghost use Rattle.rows.specs.Layout.{Laid, Ascends, rows_at, cell};
ghost use Rattle.marks.specs.Marks.{Tells, Marked};

use rows::columns;

// Whether no number of a column is less than the one in the row before it.
fn ascends(tables: &[u8], layout: &[u32], column: usize) -> bool
    requires laid { Laid tables.now layout.now }
    requires column_lt_count { column < columns.count }
    ensures { Tells result (Ascends (cell tables.now layout.now column) (rows_at layout.now column)) }
{
    let n = rows::count_rows(layout, column);
    let mut last = 0;
    for i in 0..n {
        let here = rows::read_column(tables, layout, column, i);
        if here < last {
            return false;
        }
        last = here;
    }
    true
}

// Mark METHOD_LIST if it ascends.
pub fn mark_methods(tables: &[u8], layout: &mut [u32])
    requires { Laid tables.now layout.old }
    ensures { Marked tables.now layout.old layout.new }
{
    if ascends(tables, layout, columns::METHOD_LIST) {
        layout[columns::MARK] = 1;
    }
}
