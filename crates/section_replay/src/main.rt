// Replays recorded type-name sections (2026-14) from the file `cases`, as tests/oracle/record_sections writes them: for each case four
// lengths, 4 bytes each, little-endian; then the input, the lines before its section, the section, and the offsets. Each is made with both
// buffers filled in four ways, and at lengths that are exact, one less and more. Then, in the same way, the file `wrong`, whose sections are
// wrong on purpose (tests/oracle/wrong_cases). For each file its name is written, then the first ten cases that differ, counted from 0,
// and how many agreed and how many differed.

#![tactic(auto)]

use numbers::cut;
use replaying::{holds, read_front, read_length, replay_file};
use std::io::Read;

// How a buffer is filled before.
#[derive(Clone, Copy)]
enum Filling {
    Zeros,
    Ones,
    Bits,
    Running,
}

impl Filling {
    // The byte at a place.
    fn at(self, i: usize) -> u8 {
        match self {
            Filling::Zeros => 0,
            Filling::Ones => 0xFF,
            Filling::Bits => 0xA5,
            Filling::Running => (i % 256) as u8,
        }
    }
}

const FILLINGS: [Filling; 4] = [
    Filling::Zeros,
    Filling::Ones,
    Filling::Bits,
    Filling::Running,
];

// So much longer than the section, and than the offsets, the buffers are where they are longer.
const MORE_BYTES: usize = 37;

const MORE_OFFSETS: usize = 5;

// The most offsets of a case.
const PLACES: usize = 4096;

const OFFSET_BYTES: usize = 4;

// Bytes for an input, for the lines before a section, and for a section or its offsets.
const INPUT: usize = 65_537;

const HEAD: usize = 64;

const ROOM: usize = 65_536;

// An input, and what is to be made of it: the lines before the section, the section, and the bytes of the offsets.
#[derive(Clone, Copy)]
struct Case<'a> {
    input: &'a [u8],
    head: &'a [u8],
    section: &'a [u8],
    offsets: &'a [u8],
}

impl Case<'_> {
    // Whether a run gives this, with zeros behind the section and the offsets, in buffers of so many bytes and so many offsets.
    fn is_given(&self, room: usize, count: usize, filling: Filling) -> bool {
        let mut section = [0u8; ROOM];
        let mut offsets = [0u32; PLACES];
        let Some(section) = section.get_mut(..room) else {
            return false;
        };
        let Some(offsets) = offsets.get_mut(..count) else {
            return false;
        };
        fill(section, filling, |b| b);
        fill(offsets, filling, |b| u32::from_le_bytes([b; OFFSET_BYTES]));
        let reply = section_text::section_of_input(self.input, section, offsets);
        let mut head = [0u8; HEAD];
        let end = section_text::push_head(&mut head, 0, reply);
        cut(&head, 0, end) == self.head
            && holds(section, self.section)
            && holds_offsets(offsets, self.offsets)
    }

    // The same however the buffers are filled.
    fn is_always_given(&self, room: usize, count: usize) -> bool {
        FILLINGS
            .iter()
            .all(|filling| self.is_given(room, count, *filling))
    }

    // Whether buffers that are one too short are refused, and left zero.
    fn is_refused_shorter(&self, room: usize, count: usize) -> bool {
        let refused = Case {
            head: b"refused=6\n",
            section: b"",
            offsets: b"",
            ..*self
        };
        room.checked_sub(1)
            .is_none_or(|less| refused.is_always_given(less, count))
            && count
                .checked_sub(1)
                .is_none_or(|less| refused.is_always_given(room, less))
    }

    fn agrees(&self) -> bool {
        let room = self.section.len();
        let count = self.offsets.len() / OFFSET_BYTES;
        self.is_always_given(room, count)
            && self.is_always_given(room + MORE_BYTES, count + MORE_OFFSETS)
            && self.is_refused_shorter(room, count)
    }
}

// Fills a buffer, each element made of a byte.
fn fill<T: Copy, F: Fn(u8) -> T>(buffer: &mut [T], filling: Filling, of_byte: F)
    requires { F.IsAlwaysCallable of_byte }
{
    for (i, x) in buffer.iter_mut().enumerate() {
        *x = of_byte(filling.at(i));
    }
}

// Whether offsets have these bytes, and then zeros.
fn holds_offsets(offsets: &[u32], bytes: &[u8]) -> bool {
    let mut space = [0u8; ROOM];
    let end = section_text::push_offsets(&mut space, 0, offsets, offsets.len());
    holds(cut(&space, 0, end), bytes)
}

// Whether the next case agrees, if the file holds all bytes of one.
fn next_agrees(file: &mut impl Read) -> Option<bool> {
    let n = read_length(file)?;
    let h = read_length(file)?;
    let s = read_length(file)?;
    let o = read_length(file)?;
    let mut input = [0u8; INPUT];
    let mut head = [0u8; HEAD];
    let mut section = [0u8; ROOM];
    let mut offsets = [0u8; ROOM];
    let case = Case {
        input: read_front(file, &mut input, n)?,
        head: read_front(file, &mut head, h)?,
        section: read_front(file, &mut section, s)?,
        offsets: read_front(file, &mut offsets, o)?,
    };
    Some(case.agrees())
}

fn main(rt: HostRuntime) {
    for path in ["cases", "wrong"] {
        replay_file(&rt, path, ":", |file| next_agrees(file));
    }
}
