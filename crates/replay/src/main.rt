// Replays recorded listings of the Rust from the file `cases`, as tests/oracle/record_listings writes them: for each case the lengths of
// the input and of the expected listing, 4 bytes each, little-endian; the input; the listing. Then, in the same way, the file `wrong`,
// whose listings are wrong on purpose (tests/oracle/wrong_cases). For each file its name is written, then the first ten cases that
// differ, counted from 0, and how many agreed and how many differed.

#![tactic(auto)]

use lines::Cursor;
use replaying::{read_front, read_length, replay_file};
use std::io;
use std::io::Read;

// Words for the layout, and for the rows by key.
const WORDS: usize = 24_000;

// Bytes for a piece of a listing.
const PIECE: usize = 65_536;

// Bytes for an input.
const INPUT: usize = 65_537;

// What of a listing is still to be compared: where it goes on, and how many bytes of the expected one are still to be read.
#[derive(Drop)]
struct Ahead {
    cursor: Cursor,
    left: usize,
}

// Holds a piece of the listing against as many bytes of the file, and answers whether they are the same. What is ahead goes on behind them.
fn piece_agrees(file: &mut impl Read, input: &[u8], ahead: &mut Ahead) -> bool {
    let mut text = [0u8; PIECE];
    let mut work = [0u32; WORDS];
    let piece = listing_text::fill_input(input, ahead.cursor, &mut work, &mut text);
    let n = piece.at;
    ahead.cursor = piece.next;
    if ahead.left < n {
        return false;
    }
    ahead.left -= n;
    let mut space = [0u8; PIECE];
    read_front(file, &mut space, n) == Some(numbers::cut(&text, 0, n))
}

// Whether a whole listing agrees with the file.
fn listing_agrees(file: &mut impl Read, input: &[u8], ahead: &mut Ahead) -> bool {
    for _ in 0..u64::MAX {
        if !piece_agrees(file, input, ahead) {
            return false;
        }
        if listing_steps::is_done(ahead.cursor) {
            return ahead.left == 0;
        }
    }
    false
}

// Reads past the rest of a case.
fn pass_over(file: &mut impl Read, n: usize) {
    let _ = io::copy(&mut file.take(n as u64), &mut io::sink());
}

// Whether the next case agrees, if there is one.
fn next_agrees(file: &mut impl Read) -> Option<bool> {
    let n = read_length(file)?;
    let left = read_length(file)?;
    let mut space = [0u8; INPUT];
    let input = read_front(file, &mut space, n)?;
    let cursor = lines::first_cursor();
    let mut ahead = Ahead { cursor, left };
    let agrees = listing_agrees(file, input, &mut ahead);
    pass_over(file, ahead.left);
    Some(agrees)
}

fn main(rt: HostRuntime) {
    for path in ["cases", "wrong"] {
        replay_file(&rt, path, ":", |file| next_agrees(file));
    }
}
