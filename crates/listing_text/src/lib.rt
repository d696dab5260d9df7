// The listing, piece by piece, for the programs that print or compare it: a buffer filled with whole lines, of three streams or of a
// program's input.

#![tactic(auto)]

ghost use Rattle.std.specs.Prelude.{◌≡◌, List, ℕ, length, replicate, Err};
ghost use Rattle.header.specs.Stream.{opened};
ghost use Rattle.header.specs.declared.Options.{Options as Opts};
ghost use Rattle.record.specs.View.{view};
ghost use Rattle.rows.specs.Layout.{Laid, view_in};
ghost use Rattle.listing_steps.specs.Filling.{piece_of, Piece, input_piece, Pieced, Filled};

use buffers::Refusal;
use header::{Opened, Options};
use lines::{Cursor, Place, Step};
use rows::columns;

// A stream that is refused has one line, at the first place.
fn fill_refused(why: Refusal, from: Cursor, out: &mut [u8]) -> Step
    ensures { (options : Opts) (tables strings blob : List ℕ) → (opened options tables).answer ≡ Err why → Pieced
        (piece_of (view options tables strings blob) (length out.old) from) out.old out.new result }
{
    match from.place {
        Place::Stop => {
            let s = lines::push_refused(out, 0, why);
            if s.at <= out.len() {
                return s;
            }
            Step { next: from, at: 0 }
        }
        Place::Done => Step { next: from, at: 0 },
        _ => Step {
            next: lines::done_cursor(),
            at: 0,
        },
    }
}

// End a piece: zeros behind its text.
fn end_piece(s: Step, out: &mut [u8]) -> Step
    ensures { (p : Piece) (b : List ℕ) → Pieced p b out.old s → Filled p b out.new result }
{
    let _ = buffers::finish(out, s.at);
    s
}

// A piece of an opened stream, by memories where the lent words suffice for them.
fn fill_held(
    tables: &[u8],
    strings: &[u8],
    blob: &[u8],
    options: Options,
    layout: &[u32],
    from: Cursor,
    work: &mut [u32],
    out: &mut [u8],
) -> Step
    requires laid { Laid tables.now layout.now }
    requires by_index { (s b : List ℕ) → view_in tables.now layout.now s b ≡ view options tables.now s b }
    ensures { let v = view options tables.now strings.now blob.now in
        Pieced (piece_of v (length out.old) from) out.old out.new result }
{
    let all = charges::all_within(tables, blob, layout);
    let known = answers::nothing_known();
    if work.len() < columns::SIZE {
        let on = listing_steps::fill_opened(
            tables, strings, blob, options, layout, all, from, known, out,
        );
        return on.step;
    }
    holding::hold(work, tables, layout);
    let on = listing_steps::fill_opened(
        tables, strings, blob, options, work, all, from, known, out,
    );
    on.step
}

// As many whole lines from a cursor on as the buffer holds, and then zeros. The stream is opened once, and its columns are looked through
// once. The lent words are there for speed alone: any number of them will do, whatever they hold, and after the call they are zero.
pub fn fill(
    tables: &[u8],
    strings: &[u8],
    blob: &[u8],
    options: Options,
    from: Cursor,
    work: &mut [u32],
    out: &mut [u8],
) -> Step
    ensures { let v = view options tables.now strings.now blob.now in
        Filled (piece_of v (length out.old) from) out.old out.new result × (work.new ≡ replicate
        (length work.old) 0) }
{
    let mut layout = [0u32; columns::SIZE];
    match opening::open(tables, options, &mut layout) {
        Err(why) => {
            numbers::clear_words(work);
            let s = fill_refused(why, from, out);
            end_piece(s, out)
        }
        Ok(()) => {
            marks::mark_methods(tables, &mut layout);
            let s = fill_held(tables, strings, blob, options, &layout, from, work, out);
            numbers::clear_words(work);
            end_piece(s, out)
        }
    }
}

// The same over a program's whole input, which is opened anew for each piece.
pub fn fill_input(input: &[u8], from: Cursor, work: &mut [u32], out: &mut [u8]) -> Step
    ensures { Filled (input_piece input.now (length out.old) from) out.old out.new result ×
        (work.new ≡ replicate (length work.old) 0) }
{
    let Some(parts) = bundle::open_bundle(input) else {
        numbers::clear_words(work);
        let s = lines::push_refused(out, 0, Refusal::BadInput);
        return end_piece(s, out);
    };
    let tables = numbers::cut(input, parts.tables.at, parts.tables.len);
    let strings = numbers::cut(input, parts.strings.at, parts.strings.len);
    let blob = numbers::cut(input, parts.blob.at, parts.blob.len);
    fill(
        tables,
        strings,
        blob,
        header::base_options(),
        from,
        work,
        out,
    )
}
