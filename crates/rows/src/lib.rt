// The rows of the tables (ECMA-335 II.22), read on demand: a column of a row, by the layout that opening made. A layout is a slice of
// words: the numbers of each column that is read, the options, a mark, and where the memories are by which rows are found: these
// stand behind them, in the same slice.

#![tactic(auto)]

pub mod columns;

ghost use Rattle.std.specs.Prelude.{◌≡◌, List, ℕ, ◌+◌, ◌<◌, ◌≤◌, length};
ghost use Rattle.buffers.specs.Telling.{ToldIs};
ghost use Rattle.heaps.specs.Lookups.{string_at, name, string, is_there, reason_of, name_or_why};
ghost use Rattle.rows.specs.Columns as columns;
ghost use Rattle.rows.specs.Layout.{Laid, rows_at, is_marked, held_start, held_length, held_at, cell, view_in};

use buffers::{Reason, Told, Unnamed};
use heaps::Part;
use numbers::wide;

// How many rows of the table of a column are kept.
pub fn count_rows(layout: &[u32], column: usize) -> usize
    requires { (column < columns.count) × (columns.size ≤ length layout.now) }
    ensures { result ≡ rows_at layout.now column }
{
    wide(layout[columns::NUMBERS * column + columns::ROWS])
}

// Whether a column is marked: known to ascend. Only METHOD_LIST may be.
pub fn is_marked(layout: &[u32], column: usize) -> bool
    requires { (column < columns.count) × (columns.size ≤ length layout.now) }
    ensures { result ≡ is_marked layout.now column }
{
    column == columns::METHOD_LIST && layout[columns::MARK] == 1
}

// Whether the class that takes a method is the only one to read its signature.
#[tactic(auto, unfolding(crate::specs::Layout::options_in, record::specs::View::view_of))]
pub fn is_taker(layout: &[u32]) -> bool
    requires { columns.size ≤ length layout.now }
    ensures { (tables strings blob : List ℕ) → result ≡ (view_in tables layout.now strings blob).taker }
{
    layout[columns::TAKER] == 1
}

// The memory of number j.
pub fn memory_at(layout: &[u32], j: usize) -> &[u32]
    requires j_lt_held_count { (j < columns.held_count) × (columns.size ≤ length layout.now) }
    requires j_in_bounds { held_start layout.now j + held_length layout.now j ≤ length layout.now }
    ensures { result.now ≡ held_at layout.now j }
{
    let at = columns::HELD + columns::HELD_NUMBERS * j;
    let start = wide(layout[at]);
    let n = wide(layout[at + columns::HELD_WORDS]);
    &layout[start..start + n]
}

// The number in a column of row i, from 0.
pub fn read_column(tables: &[u8], layout: &[u32], column: usize, i: usize) -> u32
    requires laid { Laid tables.now layout.now }
    requires column_lt_count { (column < columns.count) × (i < rows_at layout.now column) }
    ensures { result ≡ cell tables.now layout.now column i }
{
    let at = columns::NUMBERS * column;
    let low = wide(layout[at]);
    let high = wide(layout[at + columns::START_HIGH]);
    let step = wide(layout[at + columns::STEP]);
    let width = wide(layout[at + columns::WIDTH]);
    numbers::read_word(tables, low + high * columns::WORD + i * step, width)
}

// The string that it finds.
pub fn read_string(tables: &[u8], strings: &[u8], layout: &[u32], column: usize, i: usize) -> Part
    requires laid { Laid tables.now layout.now }
    requires column_lt_count { (column < columns.count) × (i < rows_at layout.now column) }
    ensures { result ≡ string_at strings.now (cell tables.now layout.now column i) }
{
    let index = read_column(tables, layout, column, i);
    heaps::get_string(strings, index as usize)
}

// Whether it is there.
pub fn has_string(tables: &[u8], strings: &[u8], layout: &[u32], column: usize, i: usize) -> bool
    requires laid { Laid tables.now layout.now }
    requires column_lt_count { (column < columns.count) × (i < rows_at layout.now column) }
    ensures { result ≡ is_there (string strings.now (cell tables.now layout.now column i)) }
{
    let index = read_column(tables, layout, column, i);
    heaps::has_string(strings, index as usize)
}

// What it comes to at a place, as the answer for a name.
pub fn tell_string(
    buf: &mut [u8],
    at: usize,
    tables: &[u8],
    strings: &[u8],
    layout: &[u32],
    column: usize,
    i: usize,
) -> Told
    requires laid { Laid tables.now layout.now }
    requires column_lt_count { (column < columns.count) × (i < rows_at layout.now column) }
    ensures { ToldIs (name_or_why (name strings.now (cell tables.now layout.now column i))) buf.old at
        buf.new result }
{
    // no `map_err` and `?`: the proof of what a missing name comes to did not close
    match read_string(tables, strings, layout, column, i) {
        Ok(span) => {
            let text = numbers::cut(strings, span.start, span.len);
            Ok(buffers::push(buf, at, text))
        }
        Err(why) => Err(Unnamed::Missing(why)),
    }
}

// Why it is missing; no reason is told where it is not.
#[tactic(auto, unfolding(heaps::specs::Lookups::name))]
pub fn missing_reason(
    tables: &[u8],
    strings: &[u8],
    layout: &[u32],
    column: usize,
    i: usize,
) -> Reason
    requires laid { Laid tables.now layout.now }
    requires column_lt_count { (column < columns.count) × (i < rows_at layout.now column) }
    ensures { result ≡ reason_of (name strings.now (cell tables.now layout.now column i)) }
{
    read_string(tables, strings, layout, column, i)
        .err()
        .unwrap_or(Reason::Untold)
}
