// Blocks of text. What stands before the first `@` is passed over; each `@` begins a block: a line with its name, the lines `tables HEX`,
// `strings HEX` and `blob HEX`, with `-` for an empty stream, then a line for each case.
ghost use Rattle.std.specs.Prelude.{ℕ, ◌≤◌, List, length};
ghost use Rattle.std.specs.Io.KnownBytes.{Consumes};

use crate::tally::Tally;
use case_text::{cut_at, is_case, read_hex};
use std::io::Read;

// Bytes for a file of cases, and for a stream.
const ROOM: usize = 1_048_576;

const STREAM: usize = 65_536;

// The three streams of a block, and what stands behind them.
#[derive(Clone, Copy)]
pub struct Block<'a> {
    pub tables: &'a [u8],
    pub strings: &'a [u8],
    pub blob: &'a [u8],
    pub cases: &'a [u8],
}

// Replays the blocks of a file, by what says of a line whether its case agrees, or that it holds none. Each line that differs is written as
// `FAIL` and itself, and each block as `ok` or `FAIL`, its name and its tally.
pub fn replay_blocks<R: Read, F: Fn(Block<'_>, &[u8]) -> Option<bool>>(
    rt: &impl Print,
    file: &mut R,
    agrees: F,
)
    requires { F.IsAlwaysCallable agrees }
    ensures { (read : List ℕ) × (length read ≤ ROOM) × Consumes (R.remaining file.old) (R.remaining file.new) read }
{
    replay_blocks_sharing(rt, file, |_| (), |block, (), line| agrees(block, line))
}

// The same, also by what all lines of a block share, which is read once, of what stands behind its streams.
pub fn replay_blocks_sharing<
    R: Read,
    S: Copy,
    G: Fn(&[u8]) -> S,
    F: Fn(Block<'_>, S, &[u8]) -> Option<bool>,
>(rt: &impl Print, file: &mut R, shared_in: G, agrees: F)
    requires { G.IsAlwaysCallable shared_in × F.IsAlwaysCallable agrees }
    ensures { (read : List ℕ) × (length read ≤ ROOM) × Consumes (R.remaining file.old) (R.remaining file.new) read }
{
    let mut space = file_space();
    let n = intake::read_full(file, &mut space);
    if n == ROOM {
        let _ = println!(rt; "FAIL the file does not fit");
    }
    let text = numbers::cut(&space, 0, n);
    for block in text.split(|b| *b == b'@').skip(1) {
        replay_block(rt, block, &shared_in, &agrees);
    }
}

// In a function of its own, since where it stands a check looks at each of its bytes.
fn file_space() -> [u8; ROOM] {
    [0; ROOM]
}

fn replay_block<S: Copy, G: Fn(&[u8]) -> S, F: Fn(Block<'_>, S, &[u8]) -> Option<bool>>(
    rt: &impl Print,
    text: &[u8],
    shared_in: &G,
    agrees: &F,
)
    requires { G.IsAlwaysCallable shared_in.now × F.IsAlwaysCallable agrees.now }
{
    let (name, rest) = cut_at(text, b'\n');
    let (line1, rest) = cut_at(rest, b'\n');
    let (line2, rest) = cut_at(rest, b'\n');
    let (line3, cases) = cut_at(rest, b'\n');
    let mut tables = [0u8; STREAM];
    let mut strings = [0u8; STREAM];
    let mut blob = [0u8; STREAM];
    let block = Block {
        tables: read_stream(line1, &mut tables),
        strings: read_stream(line2, &mut strings),
        blob: read_stream(line3, &mut blob),
        cases,
    };
    let tally = replay_lines(rt, block, shared_in(cases), agrees);
    write_tally(rt, name, tally);
}

// The bytes behind the key of a stream: none where they do not fit.
fn read_stream<'a>(line: &[u8], space: &'a mut [u8]) -> &'a [u8] {
    let (_, hex) = cut_at(line, b' ');
    let n = read_hex(hex, space);
    numbers::cut(space, 0, n)
}

fn replay_lines<S: Copy, F: Fn(Block<'_>, S, &[u8]) -> Option<bool>>(
    rt: &impl Print,
    block: Block<'_>,
    shared: S,
    agrees: &F,
) -> Tally
    requires { F.IsAlwaysCallable agrees.now }
{
    let mut tally = Tally::default();
    let lines = block.cases.split(|b| *b == b'\n');
    for line in lines.filter(|line| is_case(line)) {
        let Some(agrees) = agrees(block, shared, line) else {
            continue;
        };
        if !agrees {
            write_line(rt, line);
        }
        tally.count(agrees);
    }
    tally
}

// Each part is tried, also where one before it cannot be written.
fn write_line(rt: &impl Print, line: &[u8]) {
    let _ = rt.write_all(b"FAIL  ");
    let _ = rt.write_all(line);
    let _ = rt.write_all(b"\n");
}

fn write_tally(rt: &impl Print, name: &[u8], tally: Tally) {
    let _ = rt.write_all(if tally.differed == 0 {
        b"ok   "
    } else {
        b"FAIL "
    });
    let _ = rt.write_all(name);
    let _ = println!(rt; ": {tally}");
}
