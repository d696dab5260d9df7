// The extents of an input as text, for the programs that print or compare it: where each table lies, and where the walk was left.

#![tactic(auto)]

ghost use Rattle.std.specs.Prelude.{◌≡◌, ◌+◌, min, length};
ghost use Rattle.buffers.specs.Texts.{q};
ghost use Rattle.buffers.specs.Writes.{Wrote};
ghost use Rattle.buffers.specs.Replies.{number, reply_says, value, name_buffer};
ghost use Rattle.header.specs.Stream.{base};
ghost use Rattle.tables.specs.Extents.{walk_says, walk_of};
ghost use Rattle.extents_text.specs.Lines.{field, kind_line, kind_lines, key_line, walk_text, extents_text};

use buffers::{Refusal, push, push_decimal, put, refusal_number};
use tables::Extents;

// Where a walk has the row sizes from: sums of columns, or the table of row sizes. No closure, whose clause would ask more of callers.
#[derive(Clone, Copy)]
pub enum Sizes {
    Summed,
    Tabled,
}

// A key and a number.
#[tactic(auto, unfolding(crate::specs::Lines::key_line))]
fn push_line(out: &mut [u8], at: usize, key: &[u8], n: usize) -> usize
    ensures { Wrote out.old at (key_line key.now n) out.new result }
{
    let value = push(out, at, key);
    let end = push_decimal(out, value, n);
    put(out, end, b'\n')
}

// A number and a blank.
fn push_field(out: &mut [u8], at: usize, n: usize) -> usize
    ensures { Wrote out.old at (field n) out.new result }
{
    let end = push_decimal(out, at, n);
    put(out, end, b' ')
}

// `kind start size rows`.
fn push_kind(out: &mut [u8], at: usize, kind: usize, start: usize, size: u32, rows: u32) -> usize
    ensures { Wrote out.old at (kind_line kind start size rows) out.new result }
{
    let second = push_field(out, at, kind);
    let third = push_field(out, second, start);
    let fourth = push_field(out, third, size as usize);
    let end = push_decimal(out, fourth, rows as usize);
    put(out, end, b'\n')
}

// A line for each kind.
fn push_kinds(out: &mut [u8], w: &Extents) -> usize
    ensures { Wrote out.old 0 (kind_lines (walk_says w.now) 64) out.new result }
{
    let mut at = 0;
    for kind in 0..64 {
        at = push_kind(out, at, kind, w.starts[kind], w.sizes[kind], w.rows[kind]);
    }
    at
}

fn push_refused(out: &mut [u8], why: Refusal) -> usize
    ensures { Wrote out.old 0 (key_line (q "refused=") (number why)) out.new result }
{
    push_line(out, 0, b"refused=", usize::from(refusal_number(why)))
}

fn push_walk(out: &mut [u8], w: &Extents) -> usize
    ensures { Wrote out.old 0 (walk_text (walk_says w.now) (reply_says w.now.answer)) out.new result }
{
    match w.answer {
        Ok(stop) => {
            let at = push_kinds(out, w);
            push_line(out, at, b"stop=", stop)
        }
        Err(why) => push_refused(out, why),
    }
}

// The walk by one of the two.
fn walk_by(tables: &[u8], sizes: Sizes) -> Extents
    ensures { walk_says result ≡ walk_of base tables.now }
{
    match sizes {
        Sizes::Summed => walks::walk(tables),
        Sizes::Tabled => walks::walk_by_table(tables, header::base_options()),
    }
}

// Append the text of an input to an empty buffer.
fn push_extents(input: &[u8], sizes: Sizes, out: &mut [u8]) -> usize
    ensures { Wrote out.old 0 (extents_text input.now) out.new result }
{
    match bundle::open_bundle(input) {
        Some(b) => {
            let tables = numbers::cut(input, b.tables.at, b.tables.len);
            push_walk(out, &walk_by(tables, sizes))
        }
        None => push_refused(out, Refusal::BadInput),
    }
}

// The text of an input, from the buffer's start, and then zeros; zeros alone where it does not fit. Answers its length, or one more than
// the buffer's. Which of the two walks is asked makes no difference.
pub fn write_extents(input: &[u8], sizes: Sizes, out: &mut [u8]) -> usize
    ensures { let text = extents_text input.now in
        let room = length out.old in
        (result ≡ min (length text) (room + 1)) × (out.new ≡ name_buffer (value text) room) }
{
    let end = push_extents(input, sizes, out);
    let _ = buffers::finish(out, end);
    end
}
