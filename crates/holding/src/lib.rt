// Fill the memories by which rows are found (crates buckets and nests): the layout is copied to the front of words that are lent, and what is
// behind it is cut into four, for GenericParam by Owner, NestedClass, InterfaceImpl by Class, and ClassLayout by Parent, in this order, as
// they are asked for most. One for which there are not enough words gets none, and then rows are searched for one by one; a table without
// rows needs none. What the words held before means nothing.

#![tactic(auto)]

ghost use Rattle.std.specs.Prelude.{◌≡◌, List, ℕ, ◌+◌, ◌-◌, ◌*◌, ◌<◌, ◌≤◌, length, set};
ghost use Rattle.rows.specs.Columns as columns;
ghost use Rattle.rows.specs.Layout.{Laid, rows_at, cell};
ghost use Rattle.rows.specs.Held.{Sorted};
ghost use Rattle.holding.specs.Holding.{Told, Bare, EndIs, Holding, Held};

use rows::columns;

// An Owner, a TypeOrMethodDef index (ECMA-335 II.24.2.6), is twice a row, and for a method one more.
const OWNERS: usize = 2;
// How many keys more than rows there are: rows count from 1, an index may name one row past the last, and where rows are sorted a key's
// rows end where the next one's begin.
const OWNER_KEYS: usize = 5;

const NESTED_KEYS: usize = 2;

const CLASS_KEYS: usize = 3;

// The layout's words without those of the memories, which are 0.
fn copy_layout(work: &mut [u32], layout: &[u32])
    requires { (columns.size ≤ length work.old) × (columns.size ≤ length layout.now) }
    ensures { Bare layout.now work.new }
{
    numbers::clear_words(&mut work[..columns::SIZE]);
    work[..columns::HELD].copy_from_slice(&layout[..columns::HELD]);
}

// Say where the memory of number j is.
fn note_memory(work: &mut [u32], j: usize, start: usize, end: usize)
    requires { (j < columns.held_count) × (columns.size ≤ length work.old) × (start ≤ end) × (end < columns.word) }
    ensures { work.new ≡ set (set work.old (columns.held + columns.held_numbers * j) start)
        (columns.held + columns.held_numbers * j + columns.held_words) (end - start) }
{
    let at = columns::HELD + columns::HELD_NUMBERS * j;
    work[at] = start as u32;
    work[at + columns::HELD_WORDS] = (end - start) as u32;
}

// Where the memory of n rows and so many keys ends, from a place on among so many words; none without rows, or where there is no room.
fn memory_end(len: usize, at: usize, keys: usize, n: usize) -> Option<usize>
    requires { (at ≤ len) × (len < 9223372036854775808) × (keys < 3 * columns.word) × (n < columns.word) }
    ensures { EndIs len at result }
{
    let end = at + keys + n;
    if n == 0 || len < end || columns::WORD <= end {
        return None;
    }
    Some(end)
}

// The rows of a table by a column, from a place on, with so many keys, where there are words for them: the place behind.
fn hold_sorted(
    work: &mut [u32],
    tables: &[u8],
    layout: &[u32],
    column: usize,
    j: usize,
    at: usize,
    keys: usize,
) -> usize
    requires laid { Laid tables.now layout.now }
    requires column_lt_count { (column < columns.count) × (j < columns.held_count) × (keys < 3 * columns.word)
        × ((m : List ℕ) → Sorted (cell tables.now layout.now column) (rows_at layout.now column) m → Told tables.now layout.now j m) }
    requires holding { Holding tables.now layout.now work.old at }
    ensures { Holding tables.now layout.now work.new result }
{
    let n = rows::count_rows(layout, column);
    let Some(end) = memory_end(work.len(), at, keys, n) else {
        return at;
    };
    buckets::sort_rows(&mut work[at..end], tables, layout, column);
    note_memory(work, j, at, end);
    end
}

// The same of NestedClass.
fn hold_nested(work: &mut [u32], tables: &[u8], layout: &[u32], at: usize, keys: usize) -> usize
    requires laid { Laid tables.now layout.now }
    requires keys_bound { keys < 3 * columns.word }
    requires holding { Holding tables.now layout.now work.old at }
    ensures { Holding tables.now layout.now work.new result }
{
    let n = rows::count_rows(layout, columns::NESTED);
    let Some(end) = memory_end(work.len(), at, keys, n) else {
        return at;
    };
    nests::nest_rows(&mut work[at..end], tables, layout);
    note_memory(work, columns::BY_NESTED, at, end);
    end
}

// Copy a layout, with memories behind it.
pub fn hold(work: &mut [u32], tables: &[u8], layout: &[u32])
    requires laid { Laid tables.now layout.now }
    requires size_in_bounds { columns.size ≤ length work.old }
    ensures { Held tables.now layout.now work.new }
{
    copy_layout(work, layout);
    let types = rows::count_rows(layout, columns::TYPE_NAME);
    let methods = rows::count_rows(layout, columns::METHOD_NAME);
    let owners = OWNERS * types.max(methods) + OWNER_KEYS;
    let nested_at = hold_sorted(
        work,
        tables,
        layout,
        columns::OWNER,
        columns::BY_OWNER,
        columns::SIZE,
        owners,
    );
    let class_at = hold_nested(work, tables, layout, nested_at, types + NESTED_KEYS);
    let layout_at = hold_sorted(
        work,
        tables,
        layout,
        columns::IMPL_CLASS,
        columns::BY_CLASS,
        class_at,
        types + CLASS_KEYS,
    );
    let _end = hold_sorted(
        work,
        tables,
        layout,
        columns::LAYOUT_PARENT,
        columns::BY_PARENT,
        layout_at,
        types + CLASS_KEYS,
    );
}

// The same with the memory of NestedClass alone, for whoever asks for names and nothing else.
pub fn hold_nests(work: &mut [u32], tables: &[u8], layout: &[u32])
    requires laid { Laid tables.now layout.now }
    requires size_in_bounds { columns.size ≤ length work.old }
    ensures { Held tables.now layout.now work.new }
{
    copy_layout(work, layout);
    let types = rows::count_rows(layout, columns::TYPE_NAME);
    let _end = hold_nested(work, tables, layout, columns::SIZE, types + NESTED_KEYS);
}
