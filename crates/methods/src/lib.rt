// Which methods a class has (`finalize`, where it drains the methods): the classes take theirs from the last to the first, each by its
// MethodList column (ECMA-335 II.22.37), of what those after it have left.

#![tactic(auto)]

ghost use Rattle.std.specs.Prelude.{◌≡◌, List, ℕ, ◌-◌, ◌<◌, ◌≤◌};
ghost use Rattle.classes.specs.Numbering.{class_of};
ghost use Rattle.record.specs.Methods.{takes, left_after};
ghost use Rattle.rows.specs.Columns as columns;
ghost use Rattle.rows.specs.Layout.{Laid, rows_at, view_in};
ghost use Rattle.methods.specs.Ranges.{RangeOf};

use classes::TypeDefRow;
use numbers::wide;
use rows::columns;

// The methods of a class: from the first up to the end, counted from 0.
#[derive(Drop)]
pub struct Range {
    pub first: usize,
    pub end: usize,
}

// How many methods are left once a class with this MethodList column has taken its own.
#[tactic(auto, unfolding(record::specs::Methods::takes))]
fn take_from(column: u32, left: usize) -> usize
    ensures { result ≡ takes column left }
{
    if column == 0 {
        return left;
    }
    wide(column - 1).min(left)
}

// How many methods the classes after a TypeDef row have left, taken class by class.
fn scan_left(tables: &[u8], layout: &[u32], row: usize) -> usize
    requires laid { Laid tables.now layout.now }
    requires row_nonzero { (0 < row) × (row ≤ rows_at layout.now columns.method_list) }
    ensures { (strings blob : List ℕ) → result ≡ left_after (view_in tables.now layout.now strings blob) (row - 1) }
{
    let mut left = rows::count_rows(layout, columns::METHOD_NAME);
    let n = rows::count_rows(layout, columns::METHOD_LIST);
    for r in (row..n).rev() {
        let first = rows::read_column(tables, layout, columns::METHOD_LIST, r);
        left = take_from(first, left);
    }
    left
}

// The same. Where MethodList is known to ascend, the next class alone decides, unless its column is 0: no class after it begins before it.
fn left_after(tables: &[u8], layout: &[u32], row: usize) -> usize
    requires laid { Laid tables.now layout.now }
    requires row_nonzero { (0 < row) × (row ≤ rows_at layout.now columns.method_list) }
    ensures { (strings blob : List ℕ) → result ≡ left_after (view_in tables.now layout.now strings blob) (row - 1) }
{
    if rows::is_marked(layout, columns::METHOD_LIST)
        && row < rows::count_rows(layout, columns::METHOD_LIST)
    {
        let next = rows::read_column(tables, layout, columns::METHOD_LIST, row);
        if next != 0 {
            return take_from(next, rows::count_rows(layout, columns::METHOD_NAME));
        }
    }
    scan_left(tables, layout, row)
}

// The methods of the class at a TypeDef row.
pub fn method_range(tables: &[u8], layout: &[u32], row: TypeDefRow) -> Range
    requires laid { Laid tables.now layout.now }
    requires lt_row { (1 < row.0) × (row.0 ≤ rows_at layout.now columns.method_list) }
    ensures { (strings blob : List ℕ) → RangeOf (view_in tables.now layout.now strings blob) (class_of row) result.first result.end }
{
    let own = wide(row.0);
    let end = left_after(tables, layout, own);
    let first = take_from(
        rows::read_column(tables, layout, columns::METHOD_LIST, own - 1),
        end,
    );
    Range { first, end }
}
