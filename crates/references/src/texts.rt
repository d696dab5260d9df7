// Strings and blobs that rows find, as what an answer for a name comes to at a place of the lent buffer. Where one is missing, no reason is
// told.
ghost use Rattle.std.specs.Prelude.{List, ◌≡◌, ℕ, ◌<◌};
ghost use Rattle.buffers.specs.Replies.{name_or_5};
ghost use Rattle.buffers.specs.Telling.{ToldIs};
ghost use Rattle.heaps.specs.Lookups.{Inside, bytes_of, string};
ghost use Rattle.record.specs.Missing.{and_then};
ghost use Rattle.record.specs.References.{not_empty};
ghost use Rattle.references.specs.Columns as columns;
ghost use Rattle.references.specs.Layout.{Laid, rows_at, cell};

use super::read_column;
use buffers::{Reason, Told, Unnamed};
use heaps::Part;

// What a part of a heap comes to.
pub fn tell_part(buf: &mut [u8], at: usize, heap: &[u8], part: Part) -> Told
    requires { Inside heap.now part }
    ensures { ToldIs (name_or_5 (bytes_of heap.now part)) buf.old at buf.new result }
{
    let Ok(span) = part else {
        return Err(Unnamed::Missing(Reason::Untold));
    };
    let text = numbers::cut(heap, span.start, span.len);
    Ok(buffers::push(buf, at, text))
}

// What the string comes to that a column of row i finds.
pub fn tell_string(
    buf: &mut [u8],
    at: usize,
    tables: &[u8],
    strings: &[u8],
    layout: &[u32],
    column: usize,
    i: usize,
) -> Told
    requires laid { Laid tables.now layout.now }
    requires column_lt_count { (column < columns.count) × (i < rows_at layout.now column) }
    ensures { ToldIs (name_or_5 (string strings.now (cell tables.now layout.now column i))) buf.old at
        buf.new result }
{
    let index = read_column(tables, layout, column, i);
    tell_part(buf, at, strings, heaps::get_string(strings, index as usize))
}

// A part that has bytes.
pub fn not_empty(part: Part) -> Part
    ensures { (s : List ℕ) → Inside s part → (Inside s result) × (bytes_of s result ≡ and_then (bytes_of s part) not_empty) }
{
    let span = part?;
    if span.len == 0 {
        return Err(Reason::Untold);
    }
    Ok(span)
}
