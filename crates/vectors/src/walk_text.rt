// The walk, as text: `4:32+2047x6 stop 64` for 2,047 rows of 6 bytes of kind 4 from byte 32 on, or `no 3`.
use buffers::{push, push_decimal, put, refusal_number};
use tables::Extents;

// Bytes for a stream.
const ROOM: usize = 65_536;

// The walk of a stream that begins with these bytes, with so many zeros after them.
pub fn push_walk(out: &mut [u8], begin: &[u8], zeros: usize) -> usize {
    push_extents(out, walk_of(begin, zeros))
}

// The reply for a stream that begins with these bytes, with so many zeros after them.
fn walk_of(begin: &[u8], zeros: usize) -> Extents {
    let mut space = [0u8; ROOM];
    let n = push(&mut space, 0, begin);
    walks::walk(numbers::cut(&space, 0, n.saturating_add(zeros)))
}

fn push_extents(out: &mut [u8], w: Extents) -> usize {
    let answer = w.answer;
    match answer {
        Ok(stop) => {
            let at = push_tables(out, w);
            let k = push(out, at, b"stop ");
            push_decimal(out, k, stop)
        }
        Err(why) => {
            let k = push(out, 0, b"no ");
            push_decimal(out, k, refusal_number(why) as usize)
        }
    }
}

fn push_tables(out: &mut [u8], w: Extents) -> usize {
    let starts = w.starts;
    let sizes = w.sizes;
    let rows = w.rows;
    let mut at = 0;
    for kind in 0..64 {
        at = push_table(out, at, kind, starts[kind], sizes[kind], rows[kind]);
    }
    at
}

fn push_table(out: &mut [u8], at: usize, kind: usize, start: usize, size: u32, rows: u32) -> usize {
    if size == 0 {
        return at;
    }
    let k1 = push_decimal(out, at, kind);
    let k2 = put(out, k1, b':');
    let k3 = push_decimal(out, k2, start);
    let k4 = put(out, k3, b'+');
    let k5 = push_decimal(out, k4, rows as usize);
    let k6 = put(out, k5, b'x');
    let k7 = push_decimal(out, k6, size as usize);
    put(out, k7, b' ')
}
