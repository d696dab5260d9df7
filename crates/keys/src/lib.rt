// Rows of a table by the value of a key column, in their order, as the rows of GenericParam (ECMA-335 II.22.20) that have an Owner. The
// rows need not be sorted by the key; where the layout has a memory of them by the key, they are found in it at once.

#![tactic(auto)]

ghost use Rattle.std.specs.Prelude.{◌≡◌, ℕ, ◌<◌, ◌≤◌};
ghost use Rattle.rows.specs.Columns as columns;
ghost use Rattle.rows.specs.Layout.{Laid, rows_at, cell};
ghost use Rattle.rows.specs.Held.{keyed, Sorted};
ghost use Rattle.keys.specs.Keyed.{FoundIs, BucketIs};

use numbers::wide;
use rows::columns;

// Where a key's rows stand among the sorted ones.
#[derive(Clone, Copy)]
struct Bucket {
    first: usize,
    end: usize,
}

// The memory of a column, where its rows are sorted by it; no words for a column that has none.
fn memory_of<'a>(tables: &[u8], layout: &'a [u32], column: usize) -> &'a [u32]
    requires { Laid tables.now layout.now }
    ensures { Sorted (cell tables.now layout.now column) (rows_at layout.now column) result.now }
{
    match column {
        columns::OWNER => rows::memory_at(layout, columns::BY_OWNER),
        columns::IMPL_CLASS => rows::memory_at(layout, columns::BY_CLASS),
        columns::LAYOUT_PARENT => rows::memory_at(layout, columns::BY_PARENT),
        _ => &layout[..0],
    }
}

// Where the rows of a key stand among n sorted ones, if there is room for the key.
fn bucket_of(memory: &[u32], n: usize, key: usize) -> Option<Bucket>
    ensures { (f : ℕ → ℕ) → Sorted f n memory.now → BucketIs f n memory.now key result }
{
    let room = memory.len().checked_sub(n)?;
    if room <= key || room <= key + 1 {
        return None;
    }
    Some(Bucket {
        first: wide(memory[key]),
        end: wide(memory[key + 1]),
    })
}

// How many rows have the key, by reading them all.
fn count_scanned(tables: &[u8], layout: &[u32], column: usize, key: usize) -> usize
    requires laid { Laid tables.now layout.now }
    requires column_lt_count { column < columns.count }
    ensures { result ≡ keyed (cell tables.now layout.now column) key (rows_at layout.now column) }
{
    let n = rows::count_rows(layout, column);
    let mut seen = 0;
    for i in 0..n {
        let here = rows::read_column(tables, layout, column, i);
        if here as usize == key {
            seen += 1;
        }
    }
    seen
}

// How many rows have the key, by the memory of the column; the rows of a key for which it has no room are counted one by one.
pub fn count_key(tables: &[u8], layout: &[u32], column: usize, key: usize) -> usize
    requires laid { Laid tables.now layout.now }
    requires column_lt_count { column < columns.count }
    ensures { result ≡ keyed (cell tables.now layout.now column) key (rows_at layout.now column) }
{
    let n = rows::count_rows(layout, column);
    let memory = memory_of(tables, layout, column);
    match bucket_of(memory, n, key) {
        Some(bucket) => bucket.end - bucket.first,
        None => count_scanned(tables, layout, column, key),
    }
}

// The row of the key that has nth rows of that key before it, by reading the rows on from one of which it is known how many of the key are
// before it.
fn find_scanned(
    tables: &[u8],
    layout: &[u32],
    column: usize,
    key: usize,
    nth: usize,
    from: usize,
    passed: usize,
) -> Option<usize>
    requires laid { Laid tables.now layout.now }
    requires column_lt_count { (column < columns.count) × (from ≤ rows_at layout.now column)
        × (passed ≡ keyed (cell tables.now layout.now column) key from) × (passed ≤ nth) }
    ensures { FoundIs (cell tables.now layout.now column) key (rows_at layout.now column) nth result }
{
    let n = rows::count_rows(layout, column);
    let mut seen = passed;
    for i in from..n {
        if rows::read_column(tables, layout, column, i) as usize == key {
            if seen == nth {
                return Some(i);
            }
            seen += 1;
        }
    }
    None
}

// The row of the key that has nth rows of that key before it.
pub fn find_key(
    tables: &[u8],
    layout: &[u32],
    column: usize,
    key: usize,
    nth: usize,
) -> Option<usize>
    requires laid { Laid tables.now layout.now }
    requires column_lt_count { column < columns.count }
    ensures { FoundIs (cell tables.now layout.now column) key (rows_at layout.now column) nth result }
{
    find_key_from(tables, layout, column, key, nth, 0, 0)
}

// The same, by one who knows how many rows of the key are before some row. The memory of the column tells it; a key for which that has no
// room is searched for among the rows, from there on.
pub fn find_key_from(
    tables: &[u8],
    layout: &[u32],
    column: usize,
    key: usize,
    nth: usize,
    from: usize,
    passed: usize,
) -> Option<usize>
    requires laid { Laid tables.now layout.now }
    requires column_lt_count { (column < columns.count) × (from ≤ rows_at layout.now column)
        × (passed ≡ keyed (cell tables.now layout.now column) key from) × (passed ≤ nth) }
    ensures { FoundIs (cell tables.now layout.now column) key (rows_at layout.now column) nth result }
{
    let n = rows::count_rows(layout, column);
    let memory = memory_of(tables, layout, column);
    let Some(bucket) = bucket_of(memory, n, key) else {
        return find_scanned(tables, layout, column, key, nth, from, passed);
    };
    if bucket.end - bucket.first <= nth {
        return None;
    }
    Some(wide(memory[memory.len() - n + (bucket.first + nth)]))
}
