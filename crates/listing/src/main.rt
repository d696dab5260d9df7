// Lists the classes of the input, as document 01 gives it: standard input holds the three streams, and standard output gets the listing,
// piece by piece; what is known after one goes to the next. Where it cannot be written the program stops there, and says so on standard
// error.

#![tactic(auto)]

ghost use Rattle.std.specs.Prelude.{◌≡◌, List, ℕ, ◌≤◌, length};
ghost use Rattle.record.specs.View.{view};
ghost use Rattle.rows.specs.Columns as columns;
ghost use Rattle.rows.specs.Layout.{Laid, view_in};

use buffers::Refusal;
use header::Options;
use rows::columns;
use std::io;
use std::io::Read;
use std::process::ExitCode;

// Words for the layout, and for the rows by key of every input that the program takes, and bytes of a piece of the listing; and both for
// one whose tables have at most so many bytes, which costs fewer zeros. A piece that is shorter than the longest line, 12,298 bytes, could
// stay empty, and the listing would never end.
const MOST_WORDS: usize = 24_000;

const MOST_PIECE: usize = 65_536;

const FEW_WORDS: usize = 3_100;

const FEW_PIECE: usize = 32_768;

const FEW_BYTES: usize = 8_192;

const LEAST_WORDS: usize = 900;

const LEAST_PIECE: usize = 12_800;

const LEAST_BYTES: usize = 2_048;

// Bytes for an input, one more than the program takes; and for a small one, which are read first.
const INPUT: usize = 65_537;

const SMALL_INPUT: usize = 8_192;

// Bytes for the line of a refusal.
const REFUSED: usize = 32;

// Writes a refusal, which is the whole listing.
fn write_refused(rt: &impl Print, why: Refusal) -> io::Result<()> {
    let mut space = [0u8; REFUSED];
    let step = lines::push_refused(&mut space, 0, why);
    rt.write_all(numbers::cut(&space, 0, step.at))
}

// Every piece; what is beyond the ceiling is looked for only where something can be. No listing has as many as the loop has turns.
fn write_pieces(
    rt: &impl Print,
    tables: &[u8],
    strings: &[u8],
    blob: &[u8],
    options: Options,
    layout: &[u32],
    space: &mut [u8],
) -> io::Result<()>
    requires laid { Laid tables.now layout.now }
    requires by_index { (s b : List ℕ) → view_in tables.now layout.now s b ≡ view options tables.now s b }
{
    let all = charges::all_within(tables, blob, layout);
    let mut cursor = lines::first_cursor();
    let mut known = answers::nothing_known();
    for _ in 0..u64::MAX {
        if listing_steps::is_done(cursor) {
            return Ok(());
        }
        let on = listing_steps::fill_opened(
            tables, strings, blob, options, layout, all, cursor, known, space,
        );
        let step = on.step;
        rt.write_all(numbers::cut(space, 0, step.at))?;
        cursor = step.next;
        known = on.known;
    }
    Err(io::ErrorKind::Other.into())
}

// The same, with memories of rows by key in so many words, and in pieces of so many bytes.
fn write_held<const WORDS: usize, const PIECE: usize>(
    rt: &impl Print,
    tables: &[u8],
    strings: &[u8],
    blob: &[u8],
    options: Options,
    layout: &[u32],
) -> io::Result<()>
    requires laid { Laid tables.now layout.now }
    requires by_index { (s b : List ℕ) → view_in tables.now layout.now s b ≡ view options tables.now s b }
    requires words { (columns.size ≤ WORDS) × (WORDS ≤ MOST_WORDS) }
    requires piece { PIECE ≤ MOST_PIECE }
{
    let mut work = [0u32; WORDS];
    let mut space = [0u8; PIECE];
    holding::hold(&mut work, tables, layout);
    write_pieces(rt, tables, strings, blob, options, &work, &mut space)
}

// The same, with as many words as serve the tables, and pieces to match.
fn write_opened(
    rt: &impl Print,
    tables: &[u8],
    strings: &[u8],
    blob: &[u8],
    options: Options,
    layout: &[u32],
) -> io::Result<()>
    requires laid { Laid tables.now layout.now }
    requires by_index { (s b : List ℕ) → view_in tables.now layout.now s b ≡ view options tables.now s b }
{
    if tables.len() <= LEAST_BYTES {
        return write_held::<LEAST_WORDS, LEAST_PIECE>(rt, tables, strings, blob, options, layout);
    }
    if tables.len() <= FEW_BYTES {
        return write_held::<FEW_WORDS, FEW_PIECE>(rt, tables, strings, blob, options, layout);
    }
    write_held::<MOST_WORDS, MOST_PIECE>(rt, tables, strings, blob, options, layout)
}

// The listing of three streams. The stream is opened once, and its columns are looked through once.
fn write_streams(rt: &impl Print, tables: &[u8], strings: &[u8], blob: &[u8]) -> io::Result<()> {
    let options = header::base_options();
    let mut layout = [0u32; columns::SIZE];
    match opening::open(tables, options, &mut layout) {
        Err(why) => write_refused(rt, why),
        Ok(()) => {
            marks::mark_methods(tables, &mut layout);
            write_opened(rt, tables, strings, blob, options, &layout)
        }
    }
}

fn write_listing(rt: &impl Print, input: &[u8]) -> io::Result<()> {
    match bundle::open_bundle(input) {
        Some(b) => {
            let tables = numbers::cut(input, b.tables.at, b.tables.len);
            let strings = numbers::cut(input, b.strings.at, b.strings.len);
            let blob = numbers::cut(input, b.blob.at, b.blob.len);
            write_streams(rt, tables, strings, blob)
        }
        None => write_refused(rt, Refusal::BadInput),
    }
}

// Puts what was read to the front of a buffer and reads on behind it, and answers how many bytes there are.
fn read_on(input: &mut impl Read, begun: &[u8], space: &mut [u8]) -> usize
    requires { length begun.now ≤ length space.old }
{
    let (front, behind) = space.split_at_mut(begun.len());
    front.copy_from_slice(begun);
    begun.len() + intake::read_full(input, behind)
}

// The listing of an input that begins with what was read, and goes on.
fn write_long(rt: &impl Print, input: &mut impl Read, begun: &[u8; SMALL_INPUT]) -> io::Result<()> {
    let mut space = [0u8; INPUT];
    let n = read_on(input, begun, &mut space);
    write_listing(rt, numbers::cut(&space, 0, n))
}

// The listing of standard input.
fn write_input(rt: &(impl Print + Input)) -> io::Result<()> {
    let mut input = rt.reader();
    let mut small = [0u8; SMALL_INPUT];
    let n = intake::read_full(&mut input, &mut small);
    if n < SMALL_INPUT {
        return write_listing(rt, numbers::cut(&small, 0, n));
    }
    write_long(rt, &mut input, &small)
}

fn main(rt: HostRuntime) -> io::Result<ExitCode> {
    if write_input(&rt).is_ok() {
        return Ok(ExitCode::SUCCESS);
    }
    eprintln!(rt; "listing: cannot write to standard output")?;
    Ok(ExitCode::FAILURE)
}
