// The typelib (ECMA-335 II.22.10, II.23.3, `parse_custom_attributes`): the text in the first custom attribute of the assembly whose type is
// called GuidAttribute.
ghost use Rattle.std.specs.Prelude.{◌≡◌, List, [], ℕ, ◌<◌, ◌%◌, length, get_or};
ghost use Rattle.std.proofs.Math.Option.{Option};
ghost use Rattle.buffers.specs.Replies.{name_or_5};
ghost use Rattle.buffers.specs.Telling.{ToldIs};
ghost use Rattle.buffers.specs.Texts.{q, same};
ghost use Rattle.heaps.specs.Lookups.{bytes_of, Inside, string, blob as blob_at_index};
ghost use Rattle.record.specs.Answers.{typelib};
ghost use Rattle.record.specs.Missing.{and_then};
ghost use Rattle.record.specs.References.{guid_text, is_text, attribute_name, is_typelib};
ghost use Rattle.references.specs.Columns as columns;
ghost use Rattle.references.specs.Layout.{Laid, rows_at, row_at, cell, view_in};
ghost use Rattle.references.specs.Search.{tagged_row, row_says, FirstIs};

use super::{columns, count_entire, count_rows, read_column, texts};
use buffers::{Reason, Told, Unnamed};
use heaps::{Part, Span};

// Tags of coded indices, II.24.2.6
const ASSEMBLY_TAG: u32 = 14;

const MEMBER_REF_TAG: u32 = 3;

const TYPE_REF_TAG: u32 = 1;

// The length byte of a string that is null, II.23.3
const NULL_STRING: usize = 0xFF;

// Whether two texts are equal.
fn is_same(a: &[u8], b: &[u8]) -> bool
    ensures { result ≡ same a.now b.now }
{
    a == b
}

// Whether the string at an index is the name of the attribute.
fn is_guid_attribute(strings: &[u8], index: usize) -> bool
    ensures { result ≡ is_text (q "GuidAttribute") (string strings.now index) }
{
    let Ok(span) = heaps::get_string(strings, index) else {
        return false;
    };
    let name = numbers::cut(strings, span.start, span.len);
    is_same(b"GuidAttribute", name)
}

// The row, from 0, of the table of a column that a coded index with a tag of three bits means.
#[tactic(auto, unfolding(crate::specs::Search::tagged_row))]
fn tagged_row(layout: &[u32], column: usize, tag: u32, index: u32) -> Option<usize>
    requires { (column < columns.count) × (length layout.now ≡ columns.size) }
    ensures { row_says result ≡ tagged_row (rows_at layout.now column) tag index }
{
    if index % 8 != tag {
        return None;
    }
    let place = ((index / 8) as usize).checked_sub(1)?;
    if count_rows(layout, column) <= place {
        return None;
    }
    Some(place)
}

// Whether the type behind a CustomAttributeType index has that name: of the TypeRef that is the class of the MemberRef.
fn is_guid_type(tables: &[u8], strings: &[u8], layout: &[u32], index: u32) -> bool
    requires { Laid tables.now layout.now }
    ensures { (blob : List ℕ) → result ≡ is_text (q "GuidAttribute")
        (attribute_name (view_in tables.now layout.now strings.now blob) index) }
{
    let Some(member) = tagged_row(layout, columns::MEMBER_CLASS, MEMBER_REF_TAG, index) else {
        return false;
    };
    let class = read_column(tables, layout, columns::MEMBER_CLASS, member);
    let Some(row) = tagged_row(layout, columns::REF_NAME, TYPE_REF_TAG, class) else {
        return false;
    };
    let name = read_column(tables, layout, columns::REF_NAME, row);
    is_guid_attribute(strings, name as usize)
}

// Whether row i of CustomAttribute may hold the typelib (`custom_attribute_is_typelib`).
fn is_typelib(tables: &[u8], strings: &[u8], layout: &[u32], i: usize) -> bool
    requires laid { Laid tables.now layout.now }
    requires i_bound { i < get_or layout.now columns.attributes 0 }
    ensures { (blob : List ℕ) → result ≡ is_typelib (view_in tables.now layout.now strings.now blob)
        (row_at tables.now layout.now columns.attribute_parent i) }
{
    let parent = read_column(tables, layout, columns::ATTRIBUTE_PARENT, i);
    if parent % 32 != ASSEMBLY_TAG {
        return false;
    }
    let index = read_column(tables, layout, columns::ATTRIBUTE_TYPE, i);
    is_guid_type(tables, strings, layout, index)
}

// The first row of CustomAttribute that may.
fn find_typelib(tables: &[u8], strings: &[u8], layout: &[u32]) -> Option<usize>
    requires { Laid tables.now layout.now }
    ensures { FirstIs (λ j. is_typelib (view_in tables.now layout.now strings.now [])
        (row_at tables.now layout.now columns.attribute_parent j)) (get_or layout.now columns.attributes 0) result }
{
    let n = count_entire(layout, columns::ATTRIBUTES);
    for row in 0..n {
        if is_typelib(tables, strings, layout, row) {
            return Some(row);
        }
    }
    None
}

// The text in the value of a custom attribute: behind the prolog 01 00 a length byte, and so many bytes.
fn guid_part(value: &[u8]) -> Part
    ensures { (Inside value.now result) × (bytes_of value.now result ≡ guid_text value.now) }
{
    if value.len() < 3 || value[0] != 1 || value[1] != 0 {
        return Err(Reason::Untold);
    }
    let n = value[2] as usize;
    if n == 0 || NULL_STRING <= n || value.len() < 3 + n {
        return Err(Reason::Untold);
    }
    Ok(Span { start: 3, len: n })
}

// What the text in the value of row i comes to at a place.
fn tell_guid(
    buf: &mut [u8],
    at: usize,
    tables: &[u8],
    blob: &[u8],
    layout: &[u32],
    i: usize,
) -> Told
    requires laid { Laid tables.now layout.now }
    requires i_bound { i < rows_at layout.now columns.attribute_value }
    ensures { ToldIs (name_or_5 (and_then (blob_at_index blob.now (cell tables.now layout.now columns.attribute_value i)) guid_text))
        buf.old at buf.new result }
{
    let index = read_column(tables, layout, columns::ATTRIBUTE_VALUE, i);
    let Ok(span) = heaps::get_blob(blob, index as usize) else {
        return Err(Unnamed::Missing(Reason::Untold));
    };
    let value = numbers::cut(blob, span.start, span.len);
    texts::tell_part(buf, at, value, guid_part(value))
}

// What the answer for the typelib comes to at a place: where no row qualifies, and where the first that does yields nothing, it is missing.
pub fn tell_typelib(
    buf: &mut [u8],
    at: usize,
    tables: &[u8],
    strings: &[u8],
    blob: &[u8],
    layout: &[u32],
) -> Told
    requires { Laid tables.now layout.now }
    ensures { ToldIs (typelib (view_in tables.now layout.now strings.now blob.now))
        buf.old at buf.new result }
{
    if count_entire(layout, columns::ATTRIBUTES) == 0 {
        return Err(Unnamed::NoRow);
    }
    let Some(i) = find_typelib(tables, strings, layout) else {
        return Err(Unnamed::Missing(Reason::Untold));
    };
    tell_guid(buf, at, tables, blob, layout, i)
}
