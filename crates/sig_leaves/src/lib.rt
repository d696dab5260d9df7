// The leaves of rendering a signature (ECMA-335 II.23.2): the parts that hold no type. The types that are their tag alone, what stands
// before a method's types, the number of generic arguments, generic parameters by their place, and the signatures of TypeSpec rows.

#![tactic(auto)]

ghost use Rattle.std.specs.Prelude.{◌≡◌, List, ℕ, ◌<◌};
ghost use Rattle.numbers.specs.Compressed.{uint_says};
ghost use Rattle.buffers.specs.Writes.{Said, place_says};
ghost use Rattle.heaps.specs.Lookups.{string, is_there};
ghost use Rattle.record.specs.Types.{simple, method_start, generic};
ghost use Rattle.record.specs.Names.{name_at, spec_blob};
ghost use Rattle.rows.specs.Columns as columns;
ghost use Rattle.rows.specs.Layout.{Laid, rows_at, cell, view_in};
ghost use Rattle.rendering.specs.Rendered.{Rendered};
ghost use Rattle.sig_leaves.specs.Leaves.{bounded, up_to, argument_count, GenericIs, generics_of, BlobIs};

use heaps::Span;
use numbers::{Uint, wide};
use rendering::Rendering;
use rows::columns;

// The levels of a signature: the level starts at 0, and one above 16 refuses.
pub const LEVELS: usize = 17;

// Whose generic parameters are meant, by the Owner column as stored (II.22.20). A signature that is in no method has none of a method.
pub type Owner = Option<usize>;

// Append the text of a type that is its tag alone (II.23.1.16); any other tag has none.
pub fn push_simple(buf: &mut [u8], at: usize, tag: u8) -> Option<usize>
    ensures { Said buf.old at buf.new (simple tag) (place_says result) }
{
    match tag {
        0x01 => Some(buffers::push(buf, at, b"void")),
        0x02 => Some(buffers::push(buf, at, b"bool")),
        0x03 => Some(buffers::push(buf, at, b"char")),
        0x04 => Some(buffers::push(buf, at, b"sbyte")),
        0x05 => Some(buffers::push(buf, at, b"byte")),
        0x06 => Some(buffers::push(buf, at, b"short")),
        0x07 => Some(buffers::push(buf, at, b"ushort")),
        0x08 => Some(buffers::push(buf, at, b"int")),
        0x09 => Some(buffers::push(buf, at, b"uint")),
        0x0A => Some(buffers::push(buf, at, b"long")),
        0x0B => Some(buffers::push(buf, at, b"ulong")),
        0x0C => Some(buffers::push(buf, at, b"float")),
        0x0D => Some(buffers::push(buf, at, b"double")),
        0x0E => Some(buffers::push(buf, at, b"string")),
        0x16 => Some(buffers::push(buf, at, b"TypedReference")),
        0x18 => Some(buffers::push(buf, at, b"IntPtr")),
        0x19 => Some(buffers::push(buf, at, b"UIntPtr")),
        0x1C => Some(buffers::push(buf, at, b"object")),
        _ => None,
    }
}

// A number that was read, refused above a bound.
fn at_most(u: Uint, most: u32) -> Uint
    ensures { uint_says result ≡ bounded most u }
{
    let (n, next) = u?;
    if most < n {
        return Err(next);
    }
    Ok((n, next))
}

// A compressed number, refused above a bound.
fn read_up_to(sig: &[u8], pos: usize, most: u32) -> Uint
    ensures { uint_says result ≡ up_to most sig.now pos }
{
    at_most(sig_reader::read_number(sig, pos), most)
}

// The number of parameters in a method's signature (II.23.2.1): it stands after the flags, and after a generic count where these say so.
pub fn read_method_start(sig: &[u8], pos: usize) -> Uint
    ensures { uint_says result ≡ method_start sig.now pos }
{
    if sig.len() <= pos {
        return Err(pos);
    }
    let flags = sig[pos];
    if flags / 0x10 % 2 != 1 {
        return read_up_to(sig, pos + 1, 2000);
    }
    at_most(sig_reader::read_next_number(sig, pos + 1), 2000)
}

// The number of arguments of a generic type (II.23.2.12).
pub fn read_argument_count(sig: &[u8], pos: usize) -> Uint
    ensures { uint_says result ≡ argument_count sig.now pos }
{
    read_up_to(sig, pos, 1000)
}

// Append the string that a column of row i, from 0, finds.
fn push_string(
    buf: &mut [u8],
    at: usize,
    tables: &[u8],
    strings: &[u8],
    layout: &[u32],
    column: usize,
    i: usize,
) -> Option<usize>
    requires laid { Laid tables.now layout.now }
    requires column_lt_count { (column < columns.count) × (i < rows_at layout.now column) }
    ensures { Said buf.old at buf.new
        (string strings.now (cell tables.now layout.now column i)) (place_says result) }
{
    let Span { start, len } = rows::read_string(tables, strings, layout, column, i).ok()?;
    let text = numbers::cut(strings, start, len);
    Some(buffers::push(buf, at, text))
}

// The row of generic parameter i, from 0.
fn generic_row(tables: &[u8], layout: &[u32], owner: Owner, i: usize) -> Option<usize>
    requires { Laid tables.now layout.now }
    ensures { GenericIs tables.now layout.now owner i result }
{
    keys::find_key(tables, layout, columns::OWNER, owner?, i)
}

// Append the name of generic parameter i, from 0.
pub fn push_generic(
    buf: &mut [u8],
    at: usize,
    tables: &[u8],
    strings: &[u8],
    layout: &[u32],
    owner: Owner,
    i: usize,
) -> Option<usize>
    requires { Laid tables.now layout.now }
    ensures { (blob : List ℕ) → Said buf.old at buf.new
        (name_at (generics_of (view_in tables.now layout.now strings.now blob) owner) i) (place_says result) }
{
    let row = generic_row(tables, layout, owner, i)?;
    push_string(buf, at, tables, strings, layout, columns::GENERIC_NAME, row)
}

// Whether generic parameter i, from 0, has a name.
pub fn has_generic(tables: &[u8], strings: &[u8], layout: &[u32], owner: Owner, i: usize) -> bool
    requires { Laid tables.now layout.now }
    ensures { (blob : List ℕ)
        → result ≡ is_there (name_at (generics_of (view_in tables.now layout.now strings.now blob) owner) i) }
{
    match generic_row(tables, layout, owner, i) {
        Some(row) => rows::has_string(tables, strings, layout, columns::GENERIC_NAME, row),
        None => false,
    }
}

// Whether a type is its tag alone (II.23.1.16).
#[tactic(auto, unfolding(record::specs::Types::simple, record::specs::Types::names, record::specs::Types::look))]
pub fn is_simple(tag: u8) -> bool
    ensures { result ≡ is_there (simple tag) }
{
    matches!(tag, 0x01..=0x0E | 0x16 | 0x18 | 0x19 | 0x1C)
}

// Tags 0x13 and 0x1E: the generic parameter at a place.
pub fn sig_generic(
    buf: &mut [u8],
    at: usize,
    tables: &[u8],
    strings: &[u8],
    layout: &[u32],
    owner: Owner,
    sig: &[u8],
    pos: usize,
) -> Rendering
    requires { Laid tables.now layout.now }
    ensures { (blob : List ℕ) → Rendered
        (generic (name_at (generics_of (view_in tables.now layout.now strings.now blob) owner))
        sig.now pos) buf.old at buf.new result }
{
    let (i, next) = numbers::read_uint(sig, pos)?;
    match push_generic(buf, at, tables, strings, layout, owner, wide(i)) {
        Some(end) => Ok((end, next)),
        None => Err(next),
    }
}

// The signature of TypeSpec row r, from 1.
pub fn spec_blob(tables: &[u8], blob: &[u8], layout: &[u32], row: u32) -> Option<Span>
    requires { Laid tables.now layout.now }
    ensures { (strings : List ℕ) → BlobIs blob.now
        (spec_blob (view_in tables.now layout.now strings blob.now) row) result }
{
    let i = (row as usize).checked_sub(1)?;
    if rows::count_rows(layout, columns::SPEC_SIGNATURE) <= i {
        return None;
    }
    let index = rows::read_column(tables, layout, columns::SPEC_SIGNATURE, i);
    heaps::get_blob(blob, index as usize).ok()
}
