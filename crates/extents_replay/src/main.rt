// Replays recorded answers of the Rust from the file `cases`, as tests/oracle/record writes them: for each case the lengths of the
// input and of the expected text, 4 bytes each, little-endian; the input; the text. Then, in the same way, the file `wrong`, whose texts
// are wrong on purpose (tests/oracle/wrong_cases). Each file is replayed by both walks: its name and the walk are written, then the first ten
// cases that differ, counted from 0, and how many agreed and how many differed.

#![tactic(auto)]

use extents_text::Sizes;
use replaying::{read_front, read_length, replay_file};
use std::io::Read;

// Bytes for an input, for an expected text, and for a text.
const INPUT: usize = 65_537;

const ROOM: usize = 65_536;

const TEXT: usize = 8192;

// Whether the next case agrees, if the file holds all bytes of one.
fn next_agrees(file: &mut impl Read, sizes: Sizes) -> Option<bool> {
    let n = read_length(file)?;
    let m = read_length(file)?;
    let mut space = [0u8; INPUT];
    let input = read_front(file, &mut space, n)?;
    let mut space = [0u8; ROOM];
    let expected = read_front(file, &mut space, m)?;
    let mut text = [0u8; TEXT];
    let end = extents_text::write_extents(input, sizes, &mut text);
    Some(numbers::cut(&text, 0, end) == expected)
}

fn main(rt: HostRuntime) {
    for path in ["cases", "wrong"] {
        replay_file(
            &rt,
            path,
            ", by sums:",
            |file| next_agrees(file, Sizes::Summed),
        );
        replay_file(
            &rt,
            path,
            ", by table:",
            |file| next_agrees(file, Sizes::Tabled),
        );
    }
}
