// The base types of a class: its Extends column (ECMA-335 II.22.37) and the rows of InterfaceImpl (II.22.23) that are its own, without
// those whose type has no name. Which have one is known only by rendering them; so what has been seen of a class is handed on, and a
// search that goes in order renders each candidate once.

#![tactic(auto)]

ghost use Rattle.std.specs.Prelude.{◌≡◌, List, ℕ, ◌-◌, ◌<◌, ◌≤◌, length, None};
ghost use Rattle.std.proofs.Math.ListN.{get_elem?};
ghost use Rattle.buffers.specs.Writes.{Said, place_says};
ghost use Rattle.classes.specs.Numbering.{class_of};
ghost use Rattle.record.specs.View.{View};
ghost use Rattle.record.specs.Names.{type_name_in, type_steps_in, base_types, base_steps};
ghost use Rattle.rows.specs.Columns as columns;
ghost use Rattle.rows.specs.Layout.{Laid, rows_at, cell, view_in};
ghost use Rattle.rows.specs.Held.{keyed};
ghost use Rattle.steps.specs.Counting.{Takes};
ghost use Rattle.bases.specs.Candidates.{KnowsBases, CandidateIs};

use classes::TypeDefRow;
use numbers::wide;
use rows::columns;
use sig_leaves::LEVELS;

// More base types than any class has.
const NEVER: usize = 0xFFFF_FFFF_FFFF;

// What is known of the base types of the class at a TypeDef row: how many have been seen, and among how many candidates. Row 0 is none.
#[derive(Clone, Copy, Debug, PartialEq, Eq)]
pub struct Bases {
    pub row: usize,
    pub seen: usize,
    pub tried: usize,
}

// What the search for a base type came to, and what is known after it.
#[derive(Clone, Copy, Debug, PartialEq, Eq)]
pub struct Based {
    pub place: Option<usize>,
    pub bases: Bases,
}

// Nothing is known.
pub fn no_bases() -> Bases
    ensures { (v : View) → KnowsBases v result }
{
    Bases {
        row: 0,
        seen: 0,
        tried: 0,
    }
}

// What is known of a class up to its base type nth: what is handed on, if it is about the class and not past that; else nothing.
fn bases_before(row: usize, nth: usize, known: Bases) -> Bases
    ensures { ((v : View) → KnowsBases v known → KnowsBases v result) × (result.row ≡ row) × (result.seen ≤ nth) }
{
    if known.row == row && known.seen <= nth {
        return known;
    }
    Bases {
        row,
        seen: 0,
        tried: 0,
    }
}

// Candidate i of a class, by a place of InterfaceImpl before which so many rows are the class's own.
fn candidate_at(
    tables: &[u8],
    layout: &[u32],
    row: TypeDefRow,
    i: usize,
    from: usize,
    passed: usize,
) -> Option<(u32, usize)>
    requires laid { Laid tables.now layout.now }
    requires lt_row { (1 < row.0) × (row.0 ≤ rows_at layout.now columns.type_name) }
    requires from_bound { (from ≤ rows_at layout.now columns.impl_class) × (passed ≤ i - 1)
        × (passed ≡ keyed (cell tables.now layout.now columns.impl_class) row.0 from) }
    ensures { (strings blob : List ℕ) → CandidateIs tables.now layout.now strings blob row.0 i result }
{
    if i == 0 {
        let place = wide(row.0) - 1;
        let extended = rows::read_column(tables, layout, columns::EXTENDS, place);
        return Some((extended, 0));
    }
    let own = keys::find_key_from(
        tables,
        layout,
        columns::IMPL_CLASS,
        wide(row.0),
        i - 1,
        from,
        passed,
    )?;
    let interface = rows::read_column(tables, layout, columns::IMPL_INTERFACE, own);
    Some((interface, own + 1))
}

// Append the name behind a TypeDefOrRef index that stands in a row of a class.
fn push_type(
    buf: &mut [u8],
    at: usize,
    tables: &[u8],
    strings: &[u8],
    blob: &[u8],
    layout: &[u32],
    row: TypeDefRow,
    index: u32,
) -> Option<usize>
    requires laid { Laid tables.now layout.now }
    requires lt_row { 1 < row.0 }
    ensures { let v = view_in tables.now layout.now strings.now blob.now in
        Said buf.old at buf.new (type_name_in v (class_of row) index) (place_says result) }
{
    let class = Some(2 * wide(row.0));
    signatures::get_type_fullname(
        buf, at, tables, strings, blob, layout, class, None, index, LEVELS,
    )
}

// Append the name of base type nth, from 0, of the class at a TypeDef row. If there is none, all have been seen.
pub fn push_base(
    buf: &mut [u8],
    at: usize,
    tables: &[u8],
    strings: &[u8],
    blob: &[u8],
    layout: &[u32],
    row: TypeDefRow,
    nth: usize,
    known: Bases,
) -> Based
    requires laid { Laid tables.now layout.now }
    requires lt_row { (1 < row.0) × (row.0 ≤ rows_at layout.now columns.type_name) }
    requires knows_bases { KnowsBases (view_in tables.now layout.now strings.now blob.now) known }
    ensures { let v = view_in tables.now layout.now strings.now blob.now in
        Said buf.old at buf.new (get_elem? (base_types v (class_of row)) nth) (place_says result.place) ×
        KnowsBases v result.bases × (result.place ≡ None → result.bases.seen ≡ length (base_types v (class_of row))) }
{
    let key = wide(row.0);
    let start = bases_before(key, nth, known);
    let n = rows::count_rows(layout, columns::IMPL_CLASS);
    let mut seen = start.seen;
    let mut from = 0;
    let mut passed = 0;
    for i in start.tried..n + 1 {
        let Some((index, after)) = candidate_at(tables, layout, row, i, from, passed) else {
            break;
        };
        from = after;
        passed = i;
        let Some(end) = push_type(buf, at, tables, strings, blob, layout, row, index) else {
            continue;
        };
        if seen == nth {
            return Based {
                place: Some(end),
                bases: Bases {
                    row: key,
                    seen: seen + 1,
                    tried: i + 1,
                },
            };
        }
        seen += 1;
    }
    Based {
        place: None,
        bases: Bases {
            row: key,
            seen,
            tried: n + 1,
        },
    }
}

// How many base types the class at a TypeDef row has. How long their names are does not matter here, so one byte of room will do.
pub fn count_bases(
    tables: &[u8],
    strings: &[u8],
    blob: &[u8],
    layout: &[u32],
    row: TypeDefRow,
) -> usize
    requires laid { Laid tables.now layout.now }
    requires lt_row { (1 < row.0) × (row.0 ≤ rows_at layout.now columns.type_name) }
    ensures { let v = view_in tables.now layout.now strings.now blob.now in
        result ≡ length (base_types v (class_of row)) }
{
    let mut space = [0u8; 1];
    let based = push_base(
        &mut space,
        0,
        tables,
        strings,
        blob,
        layout,
        row,
        NEVER,
        no_bases(),
    );
    based.bases.seen
}

// What passing over the type behind a TypeDefOrRef index that stands in a row of a class takes of the steps.
fn pass_base(
    tables: &[u8],
    strings: &[u8],
    blob: &[u8],
    layout: &[u32],
    row: TypeDefRow,
    index: u32,
    steps: u64,
) -> Option<u64>
    requires laid { Laid tables.now layout.now }
    requires lt_row { 1 < row.0 }
    ensures { let v = view_in tables.now layout.now strings.now blob.now in
        Takes (type_steps_in v (class_of row) index) steps result }
{
    let class = Some(2 * wide(row.0));
    let passed = passing::pass_name(
        tables, strings, blob, layout, class, None, index, LEVELS, steps,
    );
    passing::steps_left(passed)
}

// What passing over all base types of the class at a TypeDef row takes of the steps, those without a name included.
pub fn pass_bases(
    tables: &[u8],
    strings: &[u8],
    blob: &[u8],
    layout: &[u32],
    row: TypeDefRow,
    steps: u64,
) -> Option<u64>
    requires laid { Laid tables.now layout.now }
    requires lt_row { (1 < row.0) × (row.0 ≤ rows_at layout.now columns.type_name) }
    ensures { let v = view_in tables.now layout.now strings.now blob.now in
        Takes (base_steps v (class_of row)) steps result }
{
    let n = rows::count_rows(layout, columns::IMPL_CLASS);
    let mut have = steps;
    let mut from = 0;
    let mut passed = 0;
    for i in 0..n + 1 {
        let Some((index, after)) = candidate_at(tables, layout, row, i, from, passed) else {
            break;
        };
        from = after;
        passed = i;
        have = pass_base(tables, strings, blob, layout, row, index, have)?;
    }
    Some(have)
}
