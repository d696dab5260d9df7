// Names of classes (ECMA-335 II.22.37, II.22.32) and of TypeRef rows (II.22.38). A class nested in others has their names in front of
// its own: these are found from the innermost class outwards, by the layout's links from NestedClass row to row, or by one backward pass over
// these rows where it has none. So the text is written from its end.

#![tactic(auto)]

ghost use Rattle.std.specs.Prelude.{◌≡◌, List, ◌∷◌, [], ◌++◌, ℕ, ◌+◌, ◌<◌, ◌≤◌, min, length};
ghost use Rattle.numbers.specs.Parts.{part};
ghost use Rattle.buffers.specs.Writes.{Wrote, Said, place_says};
ghost use Rattle.backwards.specs.Backwards.{Placed};
ghost use Rattle.heaps.specs.Lookups.{before, string, is_there};
ghost use Rattle.layouts.specs.Kinds.{type_def};
ghost use Rattle.record.specs.Names.{class_full_name, ref_full_name};
ghost use Rattle.layouts.specs.Read.{read_column};
ghost use Rattle.rows.specs.Columns as columns;
ghost use Rattle.rows.specs.Layout.{Laid, rows_at, cell, view_in};
ghost use Rattle.rows.specs.Held.{LastIs, Nested};
ghost use Rattle.names.specs.Naming.{Shows, class_string, name_in, around_in, around_says, LastAround, dotted, front_in, behind_front};

use classes::TypeDefRow;
use heaps::Span;
use numbers::wide;
use rows::columns;

// The string that a column of TypeDef finds in the row of a class. Row 1 is no class.
fn class_string(
    tables: &[u8],
    strings: &[u8],
    layout: &[u32],
    column: usize,
    row: TypeDefRow,
) -> Option<Span>
    requires laid { Laid tables.now layout.now }
    requires column_lt_count { (column < columns.count) × ((read_column column).kind ≡ type_def) }
    ensures { Shows strings.now (class_string tables.now layout.now strings.now column row.0) result }
{
    let r = row.0 as usize;
    if r < 2 || rows::count_rows(layout, column) < r {
        return None;
    }
    rows::read_string(tables, strings, layout, column, r - 1).ok()
}

// How many bytes of a part of the strings heap a name takes, which ends at its first back-quote.
fn name_length(strings: &[u8], name: Span) -> usize
    requires { name.start + name.len ≤ length strings.now }
    ensures { result ≡ before 0x60 (part strings.now name.start name.len) }
{
    let text = numbers::cut(strings, name.start, name.len);
    heaps::find_byte(text, 0, 0x60)
}

// The name of a class.
fn class_own_name(tables: &[u8], strings: &[u8], layout: &[u32], row: TypeDefRow) -> Option<Span>
    requires { Laid tables.now layout.now }
    ensures { Shows strings.now (name_in tables.now layout.now strings.now row.0) result }
{
    let name = class_string(tables, strings, layout, columns::TYPE_NAME, row)?;
    let len = name_length(strings, name);
    Some(Span {
        start: name.start,
        len,
    })
}

// The class that NestedClass row i puts around another. Rows with either index 0 or 1 do nothing.
fn class_around(tables: &[u8], layout: &[u32], i: usize, row: TypeDefRow) -> Option<TypeDefRow>
    requires laid { Laid tables.now layout.now }
    requires i_bound { i < rows_at layout.now columns.nested }
    ensures { around_says result ≡ around_in tables.now layout.now i row.0 }
{
    let nested = rows::read_column(tables, layout, columns::NESTED, i);
    if nested < 2 || nested != row.0 {
        return None;
    }
    let enclosing = rows::read_column(tables, layout, columns::ENCLOSING, i);
    if enclosing < 2 {
        return None;
    }
    Some(TypeDefRow(enclosing))
}

// Of the rows before an end the last that puts a class around another, by reading them.
fn last_around(
    tables: &[u8],
    layout: &[u32],
    end: usize,
    row: TypeDefRow,
) -> Option<(TypeDefRow, usize)>
    requires laid { Laid tables.now layout.now }
    requires end_bound { end ≤ rows_at layout.now columns.nested }
    ensures { LastAround tables.now layout.now end row.0 result }
{
    for i in (0..end).rev() {
        if let Some(outer) = class_around(tables, layout, i, row) {
            return Some((outer, i));
        }
    }
    None
}

// What a link of NestedClass names.
fn linked(tables: &[u8], layout: &[u32], link: u32) -> Option<(TypeDefRow, usize)>
    requires laid { Laid tables.now layout.now }
    requires link_bound { link ≤ rows_at layout.now columns.nested }
    ensures { (end row : ℕ) → LastIs (cell tables.now layout.now columns.nested)
        (cell tables.now layout.now columns.enclosing) end row link
        → LastAround tables.now layout.now end row result }
{
    if link == 0 {
        return None;
    }
    let i = wide(link - 1);
    let enclosing = rows::read_column(tables, layout, columns::ENCLOSING, i);
    Some((TypeDefRow(enclosing), i))
}

// Of the NestedClass rows before row i, which puts that class around another, the last that puts a class around it; or of all where i is
// their number. The memory of their links tells it; a class for which that has no room is searched for row by row.
fn next_outer(
    memory: &[u32],
    tables: &[u8],
    layout: &[u32],
    i: usize,
    row: TypeDefRow,
) -> Option<(TypeDefRow, usize)>
    requires laid { Laid tables.now layout.now }
    requires nested { Nested (cell tables.now layout.now columns.nested) (cell tables.now layout.now columns.enclosing)
        (rows_at layout.now columns.nested) memory.now }
    requires i_bound { (i ≤ rows_at layout.now columns.nested)
        × (i < rows_at layout.now columns.nested → cell tables.now layout.now columns.enclosing i ≡ row.0) }
    ensures { LastAround tables.now layout.now i row.0 result }
{
    let n = rows::count_rows(layout, columns::NESTED);
    let class = wide(row.0);
    let room = memory.len().saturating_sub(n);
    if room <= class {
        return last_around(tables, layout, i, row);
    }
    let at = if i < n { room + i } else { class };
    linked(tables, layout, memory[at])
}

// Write a part of the strings heap and a dot, which end at a place and begin not before the floor.
fn put_dotted(buf: &mut [u8], floor: usize, end: usize, strings: &[u8], name: Span) -> Option<usize>
    requires { (floor ≤ end) × (end ≤ length buf.old) × (name.start + name.len ≤ length strings.now) }
    ensures { Placed buf.old floor end (part strings.now name.start name.len ++ 0x2E ∷ []) buf.new result }
{
    let text = numbers::cut(strings, name.start, name.len);
    backwards::put_dotted_before(buf, floor, end, text)
}

// Write what stands in front of a class's name: the names of the classes around it, or its namespace.
fn put_front(
    buf: &mut [u8],
    floor: usize,
    end: usize,
    tables: &[u8],
    strings: &[u8],
    layout: &[u32],
    row: TypeDefRow,
) -> Option<usize>
    requires laid { Laid tables.now layout.now }
    requires floor_le_end { (floor ≤ end) × (end ≤ length buf.old) }
    ensures { Placed buf.old floor end
        (front_in tables.now layout.now strings.now (rows_at layout.now columns.nested) row.0)
        buf.new result }
{
    let memory = rows::memory_at(layout, columns::BY_NESTED);
    let mut i = rows::count_rows(layout, columns::NESTED);
    let mut class = row;
    let mut p = end;
    while let Some((outer, at)) = next_outer(memory, tables, layout, i, class) {
        let Some(name) = class_own_name(tables, strings, layout, outer) else {
            return Some(p);
        };
        p = put_dotted(buf, floor, p, strings, name)?;
        class = outer;
        i = at;
    }
    match class_string(tables, strings, layout, columns::TYPE_NAMESPACE, class) {
        Some(space) => put_dotted(buf, floor, p, strings, space),
        None => Some(p),
    }
}

// Append a part of the strings heap, the name of a class, behind what stands in front of it. It is written up to the buffer's end, from
// its end, and then moved to its place.
fn push_behind_front(
    buf: &mut [u8],
    at: usize,
    tables: &[u8],
    strings: &[u8],
    layout: &[u32],
    row: TypeDefRow,
    name: Span,
) -> usize
    requires laid { Laid tables.now layout.now }
    requires len_in_bounds { name.start + name.len ≤ length strings.now }
    ensures { Wrote buf.old at
        (behind_front tables.now layout.now strings.now row.0 (part strings.now name.start name.len))
        buf.new result }
{
    if buf.len() < at {
        return buf.len() + 1;
    }
    let text = numbers::cut(strings, name.start, name.len);
    let end = buf.len();
    let Some(p) = backwards::put_before(buf, at, end, text) else {
        return end + 1;
    };
    let Some(q) = put_front(buf, at, p, tables, strings, layout, row) else {
        return end + 1;
    };
    backwards::move_down(buf, at, q);
    at + (end - q)
}

// Append the full name of the class at a TypeDef row, once all NestedClass rows have acted.
pub fn push_class_name(
    buf: &mut [u8],
    at: usize,
    tables: &[u8],
    strings: &[u8],
    layout: &[u32],
    row: TypeDefRow,
) -> Option<usize>
    requires { Laid tables.now layout.now }
    ensures { (blob : List ℕ) → Said buf.old at buf.new
        (class_full_name (view_in tables.now layout.now strings.now blob) row.0) (place_says result) }
{
    let name = class_own_name(tables, strings, layout, row)?;
    Some(push_behind_front(buf, at, tables, strings, layout, row, name))
}

// Whether the class at a TypeDef row has a full name: what stands in front of its own name does not matter.
pub fn has_class_name(tables: &[u8], strings: &[u8], layout: &[u32], row: TypeDefRow) -> bool
    requires { Laid tables.now layout.now }
    ensures { (blob : List ℕ)
        → result ≡ is_there (class_full_name (view_in tables.now layout.now strings.now blob) row.0) }
{
    let r = row.0 as usize;
    if r < 2 || rows::count_rows(layout, columns::TYPE_NAME) < r {
        return false;
    }
    rows::has_string(tables, strings, layout, columns::TYPE_NAME, r - 1)
}

// A place in a buffer of that length, or one past its end.
fn place_within(len: usize, at: usize) -> usize
    requires { len < 9223372036854775808 }
    ensures { result ≡ min at (len + 1) }
{
    at.min(len + 1)
}

// Append the namespace in TypeRef row i, from 0, and a dot, where it has one.
fn push_ref_namespace(
    buf: &mut [u8],
    at: usize,
    tables: &[u8],
    strings: &[u8],
    layout: &[u32],
    i: usize,
) -> usize
    requires laid { Laid tables.now layout.now }
    requires i_bound { i < rows_at layout.now columns.ref_namespace }
    ensures { Wrote buf.old at
        (dotted (string strings.now (cell tables.now layout.now columns.ref_namespace i))) buf.new
        result }
{
    let Ok(space) = rows::read_string(tables, strings, layout, columns::REF_NAMESPACE, i) else {
        return place_within(buf.len(), at);
    };
    let text = numbers::cut(strings, space.start, space.len);
    let next = buffers::push(buf, at, text);
    buffers::put(buf, next, 0x2E)
}

// Append the full name of TypeRef row r, from 1. Its ResolutionScope is not looked at.
pub fn push_ref_name(
    buf: &mut [u8],
    at: usize,
    tables: &[u8],
    strings: &[u8],
    layout: &[u32],
    row: u32,
) -> Option<usize>
    requires { Laid tables.now layout.now }
    ensures { (blob : List ℕ) → Said buf.old at buf.new
        (ref_full_name (view_in tables.now layout.now strings.now blob) row) (place_says result) }
{
    let r = row as usize;
    if r == 0 || rows::count_rows(layout, columns::REF_NAME) < r {
        return None;
    }
    let Ok(name) = rows::read_string(tables, strings, layout, columns::REF_NAME, r - 1) else {
        return None;
    };
    let short = name_length(strings, name);
    let next = push_ref_namespace(buf, at, tables, strings, layout, r - 1);
    let text = numbers::cut(strings, name.start, short);
    Some(buffers::push(buf, next, text))
}

// Whether TypeRef row r, from 1, has a full name.
pub fn has_ref_name(tables: &[u8], strings: &[u8], layout: &[u32], row: u32) -> bool
    requires { Laid tables.now layout.now }
    ensures { (blob : List ℕ)
        → result ≡ is_there (ref_full_name (view_in tables.now layout.now strings.now blob) row) }
{
    let r = row as usize;
    if r == 0 || rows::count_rows(layout, columns::REF_NAME) < r {
        return false;
    }
    rows::has_string(tables, strings, layout, columns::REF_NAME, r - 1)
}
