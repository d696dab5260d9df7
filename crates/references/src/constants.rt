// The string constants (ECMA-335 II.22.9, `parse_constants`): the rows of Constant whose type is that of a string, in their order.
ghost use Rattle.std.specs.Prelude.{List, ◌≡◌, ℕ, get_or};
ghost use Rattle.buffers.specs.Telling.{ToldIs};
ghost use Rattle.keys.specs.Keyed.{FoundIs};
ghost use Rattle.record.specs.Answers.{Numbered, constant_count, constant_value};
ghost use Rattle.record.specs.References.{string_type};
ghost use Rattle.rows.specs.Held.{keyed};
ghost use Rattle.references.specs.Columns as columns;
ghost use Rattle.references.specs.Layout.{Laid, cell, view_in};

use super::{columns, count_entire, read_column, texts};
use buffers::{Refusal, Reply, Told, Unnamed};

// ELEMENT_TYPE_STRING, II.23.1.16
const STRING: u32 = 0x0E;

// How many rows have that type.
fn count_strings(tables: &[u8], layout: &[u32]) -> usize
    requires { Laid tables.now layout.now }
    ensures { result ≡ keyed (cell tables.now layout.now columns.constant_type) string_type (get_or layout.now columns.constants 0) }
{
    let n = count_entire(layout, columns::CONSTANTS);
    let mut seen = 0;
    for i in 0..n {
        let here = read_column(tables, layout, columns::CONSTANT_TYPE, i);
        if here == STRING {
            seen += 1;
        }
    }
    seen
}

// The row of that type with so many before it.
fn find_string(tables: &[u8], layout: &[u32], nth: usize) -> Option<usize>
    requires { Laid tables.now layout.now }
    ensures { FoundIs (cell tables.now layout.now columns.constant_type) string_type (get_or layout.now columns.constants 0) nth result }
{
    let n = count_entire(layout, columns::CONSTANTS);
    let mut seen = 0;
    for i in 0..n {
        if read_column(tables, layout, columns::CONSTANT_TYPE, i) == STRING {
            if seen == nth {
                return Some(i);
            }
            seen += 1;
        }
    }
    None
}

// How many string constants there are: none is a number too, where the table has rows and is read whole.
pub fn count_constants(tables: &[u8], layout: &[u32]) -> Reply
    requires { Laid tables.now layout.now }
    ensures { (strings blob : List ℕ) → Numbered (constant_count (view_in tables.now layout.now strings blob)) result }
{
    if count_entire(layout, columns::CONSTANTS) == 0 {
        return Err(Refusal::NoSuchRow);
    }
    Ok(count_strings(tables, layout))
}

// What the answer for the value of string constant i comes to at a place: index 0 is an empty value.
pub fn tell_constant_value(
    buf: &mut [u8],
    at: usize,
    tables: &[u8],
    blob: &[u8],
    layout: &[u32],
    i: u32,
) -> Told
    requires { Laid tables.now layout.now }
    ensures { (strings : List ℕ) → ToldIs (constant_value (view_in tables.now layout.now strings blob.now) i)
        buf.old at buf.new result }
{
    let Some(row) = find_string(tables, layout, i as usize) else {
        return Err(Unnamed::NoRow);
    };
    let index = read_column(tables, layout, columns::CONSTANT_VALUE, row);
    if index == 0 {
        return Ok(buffers::push(buf, at, &blob[..0]));
    }
    texts::tell_part(buf, at, blob, heaps::get_blob(blob, index as usize))
}
