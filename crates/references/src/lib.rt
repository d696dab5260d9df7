// What an assembly says of itself and of what it refers to (request 2026-03): the rows of the tables that say it (ECMA-335 II.22), read on
// demand by a layout of their own. A layout is a slice of words: the numbers of each column that is read, as in `rows`, the options, and how
// many rows the tables have that are given only if they are read whole.

#![tactic(auto)]

pub mod columns;
pub mod constants;
pub mod names;
mod texts;
pub mod typelib;

ghost use Rattle.std.specs.Prelude.{◌≡◌, cond, ◌<◌, ◌≤◌, eqb, length, get_or, replicate, Ok};
ghost use Rattle.references.specs.Columns as columns;
ghost use Rattle.references.specs.Layout.{layout_of, rows_at, cell, Laid, OpenedAs};

use header::{Opened, Options};
use numbers::wide;
use rows::columns as form;

// II.22.9
const CONSTANT: usize = 0x0B;
// II.22.10
const CUSTOM_ATTRIBUTE: usize = 0x0C;
// II.22.31
const MODULE_REF: usize = 0x1A;
// II.22.5
const ASSEMBLY_REF: usize = 0x23;

// The rows of a table that is read whole, where so many are kept and the table has a count.
fn entire_rows(rows: u32, count: u32) -> u32
    ensures { result ≡ cond (eqb rows count) rows 0 }
{
    if rows == count { rows } else { 0 }
}

// Lays out a stream of that length, opened with these options, with what its header says.
fn lay(layout: &mut [u32], len: usize, first: usize, heap: u8, counts: &[u32; 64], options: Options)
    requires first_le_len { (first ≤ len) × (len < 9223372036854775808) }
    requires layout_value { layout.old ≡ replicate columns.size 0 }
    ensures { layout.new ≡ layout_of options (record { answer = Ok tt; heap = heap; first = first; counts = counts.now }) len }
{
    let security = options.security;
    let sizes = layouts::index_sizes(heap, counts, security);
    let walk = tables::walk_tables(len, first, counts, sizes);
    let kinds = layouts::references::column_kinds();
    let offsets = layouts::references::column_offsets(sizes);
    let widths = layouts::references::column_widths(sizes);
    for c in 0..columns::COUNT {
        let kind = kinds[c];
        let at = columns::NUMBERS * c;
        let first = walk.starts[kind] + wide(offsets[c]);
        layout[at] = (first % form::WORD) as u32;
        layout[at + form::START_HIGH] = (first / form::WORD) as u32;
        layout[at + form::STEP] = walk.sizes[kind];
        layout[at + form::WIDTH] = widths[c];
        layout[at + form::ROWS] = opening::kept_rows(kind, walk.rows[kind], counts[kind]);
    }
    layout[columns::LIMIT] = options.limit;
    layout[columns::SECURITY] = u32::from(security);
    layout[columns::TAKER] = u32::from(options.taker);
    layout[columns::CONSTANTS] = entire_rows(walk.rows[CONSTANT], counts[CONSTANT]);
    layout[columns::ATTRIBUTES] = entire_rows(
        walk.rows[CUSTOM_ATTRIBUTE],
        counts[CUSTOM_ATTRIBUTE],
    );
    layout[columns::MODULE_REFS] = entire_rows(walk.rows[MODULE_REF], counts[MODULE_REF]);
    layout[columns::ASSEMBLY_REFS] = entire_rows(walk.rows[ASSEMBLY_REF], counts[ASSEMBLY_REF]);
}

// What is lent for the layout is zero, and stays so where the stream is refused.
pub fn open_references(tables: &[u8], options: Options, layout: &mut [u32]) -> Opened
    requires { layout.old ≡ replicate columns.size 0 }
    ensures { OpenedAs options tables.now result layout.new }
{
    let h = header::read_header(tables, options)?;
    lay(layout, tables.len(), h.first, h.heap, &h.counts, options);
    Ok(())
}

// How many rows of the table of a column are kept.
pub fn count_rows(layout: &[u32], column: usize) -> usize
    requires { (column < columns.count) × (length layout.now ≡ columns.size) }
    ensures { result ≡ rows_at layout.now column }
{
    wide(layout[columns::NUMBERS * column + form::ROWS])
}

// How many rows a table has that is read whole, by where the layout says it.
pub fn count_entire(layout: &[u32], at: usize) -> usize
    requires { (at < columns.size) × (length layout.now ≡ columns.size) }
    ensures { result ≡ get_or layout.now at 0 }
{
    wide(layout[at])
}

// The number in a column of row i, from 0.
pub fn read_column(tables: &[u8], layout: &[u32], column: usize, i: usize) -> u32
    requires laid { Laid tables.now layout.now }
    requires column_lt_count { (column < columns.count) × (i < rows_at layout.now column) }
    ensures { result ≡ cell tables.now layout.now column i }
{
    let at = columns::NUMBERS * column;
    let low = wide(layout[at]);
    let high = wide(layout[at + form::START_HIGH]);
    let step = wide(layout[at + form::STEP]);
    let width = wide(layout[at + form::WIDTH]);
    numbers::read_word(tables, low + high * form::WORD + i * step, width)
}
