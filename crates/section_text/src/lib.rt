// What the program `section` and its tests write of a type-name section (2026-14): the section of an input, the lines before it, and the
// offsets behind it.

#![tactic(auto)]

ghost use Rattle.std.specs.Prelude.{take};
ghost use Rattle.buffers.specs.Writes.{Wrote};
ghost use Rattle.buffers.specs.Replies.{refused_by};
ghost use Rattle.buffers.specs.declared.Refusal.TheVariants.{BadInput};
ghost use Rattle.name_section.specs.Section.{section_says, Sectioned};
ghost use Rattle.section_text.specs.Output.{input_names, head_text, offset_bytes, all_bytes};

use buffers::Refusal;
use name_section::Section;

// An input that is malformed has no section.
fn refuse_input(section: &mut [u8], offsets: &mut [u32]) -> Result<Section, Refusal>
    ensures { Sectioned (refused_by BadInput) section.old offsets.old result section.new offsets.new }
{
    buffers::clear_from(section, 0);
    numbers::clear_words(offsets);
    Err(Refusal::BadInput)
}

// The section of an input, and its offsets.
pub fn section_of_input(
    input: &[u8],
    section: &mut [u8],
    offsets: &mut [u32],
) -> Result<Section, Refusal>
    ensures { Sectioned (input_names input.now) section.old offsets.old result section.new
        offsets.new }
{
    match bundle::open_bundle(input) {
        Some(b) => {
            let tables = numbers::cut(input, b.tables.at, b.tables.len);
            let strings = numbers::cut(input, b.strings.at, b.strings.len);
            let blob = numbers::cut(input, b.blob.at, b.blob.len);
            name_section::name_section(
                tables,
                strings,
                blob,
                header::base_options(),
                section,
                offsets,
            )
        }
        None => refuse_input(section, offsets),
    }
}

// Append the lines before a section, or the line of a refusal.
pub fn push_head(out: &mut [u8], at: usize, reply: Result<Section, Refusal>) -> usize
    ensures { Wrote out.old at (head_text (section_says reply)) out.new result }
{
    match reply {
        Ok(Section { bytes, classes }) => {
            let next = lines::push_number(out, at, b"section=", bytes);
            lines::push_number(out, next, b"offsets=", classes)
        }
        Err(why) => {
            let n = buffers::refusal_number(why);
            lines::push_number(out, at, b"refused=", n as usize)
        }
    }
}

// Append an offset, its least significant byte first.
#[tactic(auto, unfolding(crate::specs::Output::offset_bytes))]
fn push_offset(out: &mut [u8], at: usize, offset: u32) -> usize
    ensures { Wrote out.old at (offset_bytes offset) out.new result }
{
    buffers::push(out, at, &offset.to_le_bytes())
}

// Append the first n offsets.
pub fn push_offsets(out: &mut [u8], at: usize, offsets: &[u32], n: usize) -> usize
    ensures { Wrote out.old at (all_bytes (take n offsets.now)) out.new result }
{
    if out.len() < at {
        return out.len() + 1;
    }
    let first = &offsets[..n.min(offsets.len())];
    let mut next = at;
    for offset in first {
        next = push_offset(out, next, *offset);
    }
    next
}
