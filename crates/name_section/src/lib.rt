// The type-name section (2026-14): the full names of all classes in one lent buffer, each closed by a zero and filled with zeros up to a
// multiple of four, and in another where each begins. Every byte and every offset of both is said, whatever they held before.

#![tactic(auto)]

ghost use Rattle.std.specs.Prelude.{◌≡◌, List, ℕ, ◌+◌, ◌-◌, ◌%◌, ◌<◌, ◌≤◌, replicate, Some, None};
ghost use Rattle.buffers.specs.Writes.{Wrote};
ghost use Rattle.buffers.specs.Replies.{refused_by, value, cleared};
ghost use Rattle.heaps.specs.Lookups.{text_of};
ghost use Rattle.record.specs.View.{view};
ghost use Rattle.record.specs.Names.{class_named};
ghost use Rattle.record.specs.Record.{class_record};
ghost use Rattle.rows.specs.Columns as columns;
ghost use Rattle.rows.specs.Layout.{Laid, view_in};
ghost use Rattle.name_section.specs.Section.{alignment, most_offset, slot, names, names_of, Sectioned};

use buffers::Refusal;
use classes::ClassNumber;
use header::Options;
use rows::columns;

// A slot's length is a multiple of this.
const ALIGNMENT: usize = 4;

// The most rows of a table under the base's limit.
const MOST_ROWS: usize = 15_000;

// Words for the layout, and for the links of NestedClass: one for each of its rows, one for each row of TypeDef, and 2 more. Where the limit
// is higher, what these do not hold is searched for.
const WORDS: usize = columns::SIZE + 2 * MOST_ROWS + 2;

// The bytes of the section and the number of classes.
#[derive(Clone, Copy, Debug, PartialEq, Eq)]
pub struct Section {
    pub bytes: usize,
    pub classes: usize,
}

// How many zeros a slot has behind a name of that length: one of the name's own, and the fewest more that reach a multiple.
fn zeros_behind(len: usize) -> usize
    ensures { result ≡ alignment - len % alignment }
{
    ALIGNMENT - len % ALIGNMENT
}

// Append at most four zeros.
fn push_zeros(buf: &mut [u8], at: usize, n: usize) -> usize
    requires { n ≤ alignment }
    ensures { Wrote buf.old at (replicate n 0) buf.new result }
{
    let zeros = [0u8; ALIGNMENT];
    buffers::push(buf, at, &zeros[..n])
}

// Append the slot of a class.
fn push_slot(
    section: &mut [u8],
    at: usize,
    tables: &[u8],
    strings: &[u8],
    layout: &[u32],
    class: ClassNumber,
) -> usize
    requires laid { Laid tables.now layout.now }
    requires class_bound { class.0 + 2 < columns.word }
    ensures { (blob : List ℕ) → Wrote section.old at
        (slot (text_of (class_named (view_in tables.now layout.now strings.now blob) class.0)))
        section.new result }
{
    let row = classes::row_of(class);
    let Some(end) = names::push_class_name(section, at, tables, strings, layout, row) else {
        return push_zeros(section, at, ALIGNMENT);
    };
    if section.len() < end {
        return end;
    }
    push_zeros(section, end, zeros_behind(end - at))
}

// Zero every offset from a place on.
fn clear_offsets(offsets: &mut [u32], from: usize)
    ensures { offsets.new ≡ cleared offsets.old from }
{
    if offsets.len() < from {
        return;
    }
    numbers::clear_words(&mut offsets[from..]);
}

// End a call that is refused: both buffers are zero throughout.
fn refuse(section: &mut [u8], offsets: &mut [u32], why: Refusal) -> Result<Section, Refusal>
    ensures { Sectioned (refused_by why) section.old offsets.old result section.new offsets.new }
{
    buffers::clear_from(section, 0);
    clear_offsets(offsets, 0);
    Err(why)
}

// The offset of a slot that begins there: it has 32 bits.
fn offset_of(at: usize) -> Option<u32>
    ensures { ((offset : ℕ) → result ≡ Some offset → (at ≤ most_offset) × (offset ≡ at)) × (result ≡ None → most_offset < at) }
{
    u32::try_from(at).ok()
}

// Every slot and every offset, in one pass over the classes, and zeros behind them.
fn write_slots(
    tables: &[u8],
    strings: &[u8],
    layout: &[u32],
    section: &mut [u8],
    offsets: &mut [u32],
) -> Result<Section, Refusal>
    requires { Laid tables.now layout.now }
    ensures { (blob : List ℕ) → Sectioned
        (value (names_of (class_record (view_in tables.now layout.now strings.now blob))))
        section.old offsets.old result section.new offsets.new }
{
    let classes = places::count_classes(layout);
    if offsets.len() < classes {
        return refuse(section, offsets, Refusal::BufferTooSmall);
    }
    let mut at = 0;
    for c in 0..classes {
        let Some(offset) = offset_of(at) else {
            return refuse(section, offsets, Refusal::BufferTooSmall);
        };
        at = push_slot(section, at, tables, strings, layout, ClassNumber(c as u32));
        if section.len() < at {
            return refuse(section, offsets, Refusal::BufferTooSmall);
        }
        offsets[c] = offset;
    }
    buffers::clear_from(section, at);
    clear_offsets(offsets, classes);
    Ok(Section { bytes: at, classes })
}

// The section of three streams, and the offsets of its slots. The streams are opened once, and their classes gone through once.
pub fn name_section(
    tables: &[u8],
    strings: &[u8],
    blob: &[u8],
    options: Options,
    section: &mut [u8],
    offsets: &mut [u32],
) -> Result<Section, Refusal>
    ensures { let v = view options tables.now strings.now blob.now in
        Sectioned (names v) section.old offsets.old result section.new offsets.new }
{
    let mut layout = [0u32; columns::SIZE];
    if let Err(why) = opening::open(tables, options, &mut layout) {
        return refuse(section, offsets, why);
    }
    let mut work = [0u32; WORDS];
    holding::hold_nests(&mut work, tables, &layout);
    write_slots(tables, strings, &work, section, offsets)
}
