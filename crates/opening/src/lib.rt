// Opening a tables stream (ECMA-335 II.24.2.6): whether it is refused, and the layout by which its columns are read.

#![tactic(auto)]

ghost use Rattle.std.specs.Prelude.{◌≡◌, cond, ◌&&◌, not, ◌≤◌, ◌<◌, eqb, replicate, Ok};
ghost use Rattle.tables.specs.Extents.{only_entire};
ghost use Rattle.rows.specs.Columns as columns;
ghost use Rattle.rows.specs.Layout.{layout_of};
ghost use Rattle.opening.specs.Opening.{OpenedAs, Unmarked};

use header::{Opened, Options};
use numbers::wide;
use rows::columns;

// The tables that are kept only entire.
// II.22.38
const TYPE_REF: usize = 0x01;
// II.22.23
const INTERFACE_IMPL: usize = 0x09;
// II.22.25
const MEMBER_REF: usize = 0x0A;
// II.22.39
const TYPE_SPEC: usize = 0x1B;

#[tactic(auto, unfolding(tables::specs::Extents::only_entire))]
fn only_entire(kind: usize) -> bool
    ensures { result ≡ only_entire kind }
{
    matches!(kind, TYPE_REF | INTERFACE_IMPL | MEMBER_REF | TYPE_SPEC)
}

// The rows of a table that are kept, where so many are whole and the table has a count.
pub fn kept_rows(kind: usize, rows: u32, count: u32) -> u32
    ensures { result ≡ cond (only_entire kind && not (eqb rows count)) 0 rows }
{
    if rows != count && only_entire(kind) {
        return 0;
    }
    rows
}

// Lays out a stream of that length, opened with these options, with what its header says.
fn lay(layout: &mut [u32], len: usize, first: usize, heap: u8, counts: &[u32; 64], options: Options)
    requires first_le_len { (first ≤ len) × (len < 9223372036854775808) }
    requires layout_value { layout.old ≡ replicate columns.size 0 }
    ensures { (Unmarked (layout_of options (record { answer = Ok tt; heap = heap; first = first; counts = counts.now }) len) layout.new) ×
        (options.limit < 4294967296) }
{
    let security = options.security;
    let sizes = layouts::index_sizes(heap, counts, security);
    let walk = tables::walk_tables(len, first, counts, sizes);
    let kinds = layouts::columns::column_kinds();
    let offsets = layouts::columns::column_offsets(sizes);
    let widths = layouts::columns::column_widths(sizes);
    for c in 0..columns::COUNT {
        let kind = kinds[c];
        let at = columns::NUMBERS * c;
        let first = walk.starts[kind] + wide(offsets[c]);
        layout[at] = (first % columns::WORD) as u32;
        layout[at + columns::START_HIGH] = (first / columns::WORD) as u32;
        layout[at + columns::STEP] = walk.sizes[kind];
        layout[at + columns::WIDTH] = widths[c];
        layout[at + columns::ROWS] = kept_rows(kind, walk.rows[kind], counts[kind]);
    }
    layout[columns::LIMIT] = options.limit;
    layout[columns::SECURITY] = u32::from(security);
    layout[columns::TAKER] = u32::from(options.taker);
}

// What is lent for the layout is zero, and stays so where the stream is refused.
pub fn open(tables: &[u8], options: Options, layout: &mut [u32]) -> Opened
    requires { layout.old ≡ replicate columns.size 0 }
    ensures { OpenedAs options tables.now result layout.new }
{
    let h = header::read_header(tables, options)?;
    lay(layout, tables.len(), h.first, h.heap, &h.counts, options);
    Ok(())
}
