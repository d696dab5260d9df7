// What each kind of case answers, as text.
use super::walk_text::push_walk;
use buffers::{
    Reason, Refusal, Reply, push, push_decimal, put, reason_number, refusal_number, write_name,
};
use case_text::low_bits;
use heaps::{Heap, Part, Span};
use numbers::{Signed, Sint, Uint, read_index, read_sint, read_u16, read_u32, read_uint};

pub fn push_answer(out: &mut [u8], kind: &[u8], bytes: &[u8], number: usize) -> usize {
    match kind {
        b"unsigned" => push_uint(out, read_uint(bytes, number)),
        b"signed" => push_sint(out, read_sint(bytes, number)),
        b"u16" => push_uint(out, read_u16(bytes, number)),
        b"u32" => push_uint(out, read_u32(bytes, number)),
        b"index2" => push_uint(out, read_index(bytes, number, 2)),
        b"index4" => push_uint(out, read_index(bytes, number, 4)),
        b"string" => push_lookup(out, bytes, Heap::Strings, low_bits(number)),
        b"blob" => push_lookup(out, bytes, Heap::Blobs, low_bits(number)),
        b"string-at" => push_place(out, heaps::get_string(bytes, number)),
        b"blob-at" => push_place(out, heaps::get_blob(bytes, number)),
        b"walk" => push_walk(out, bytes, number),
        b"name" => push_name(out, bytes, number),
        b"refuse" => push_refused(out),
        b"decimal" => push_decimal(out, 0, number),
        _ => push(out, 0, b"no such kind"),
    }
}

// `127, next 1`, or `none, next 1`.
fn push_uint(out: &mut [u8], came: Uint) -> usize {
    match came {
        Ok((n, next)) => {
            let at = push_decimal(out, 0, n as usize);
            push_next(out, at, next)
        }
        Err(next) => {
            let at = push(out, 0, b"none");
            push_next(out, at, next)
        }
    }
}

// `-3, next 1`, or `none, next 1`.
fn push_sint(out: &mut [u8], came: Sint) -> usize {
    match came {
        Ok((Signed::Plus(n), next)) => {
            let at = push_decimal(out, 0, n as usize);
            push_next(out, at, next)
        }
        Ok((Signed::Minus(n), next)) => {
            let minus = push(out, 0, b"-");
            let at = push_decimal(out, minus, n as usize);
            push_next(out, at, next)
        }
        Err(next) => {
            let at = push(out, 0, b"none");
            push_next(out, at, next)
        }
    }
}

fn push_next(out: &mut [u8], at: usize, next: usize) -> usize {
    let comma = push(out, at, b", next ");
    push_decimal(out, comma, next)
}

// The refusal of a raw lookup, 0 if there is none, with a point and the reason where one is told; and the part handed back. Both heaps are
// the same bytes.
fn push_lookup(out: &mut [u8], bytes: &[u8], heap: Heap, index: u32) -> usize {
    match heaps::lookup(bytes, bytes, heap, index) {
        Ok(part) => {
            let at = push(out, 0, b"0 ");
            push(out, at, part)
        }
        Err(why) => {
            let number = push_decimal(out, 0, usize::from(refusal_number(why)));
            let told = push_reason(out, number, reason_number(why));
            put(out, told, b' ')
        }
    }
}

fn push_reason(out: &mut [u8], at: usize, reason: u8) -> usize {
    if reason == 0 {
        return at;
    }
    let point = put(out, at, b'.');
    push_decimal(out, point, reason as usize)
}

// `5 + 3` for three bytes at place 5, or `absent`.
fn push_place(out: &mut [u8], came: Part) -> usize {
    match came {
        Ok(Span { start, len }) => {
            let at = push_decimal(out, 0, start);
            let plus = push(out, at, b" + ");
            push_decimal(out, plus, len)
        }
        Err(_) => push(out, 0, b"absent"),
    }
}

// The reply and the buffer after a name was answered in so much room of a buffer of eight.
fn push_name(out: &mut [u8], name: &[u8], room: usize) -> usize {
    let mut space = [0xAAu8; 8];
    let r = write_name(&mut space[..room.min(8)], name);
    push_reply(out, r, &space)
}

// The same of a call that is refused, with 5, in room of eight.
fn push_refused(out: &mut [u8]) -> usize {
    let mut space = [0xAAu8; 8];
    let r = buffers::refuse(&mut space, Refusal::NoName(Reason::Untold));
    push_reply(out, r, &space)
}

// `is 3 int..###`, or `no 6 ..######`: a zero is shown as `.`, a byte that was not touched as `#`.
fn push_reply(out: &mut [u8], came: Reply, buffer: &[u8]) -> usize {
    match came {
        Ok(n) => {
            let is = push(out, 0, b"is ");
            let at = push_decimal(out, is, n);
            push_buffer(out, at, buffer)
        }
        Err(why) => {
            let no = push(out, 0, b"no ");
            let at = push_decimal(out, no, refusal_number(why) as usize);
            push_buffer(out, at, buffer)
        }
    }
}

fn push_buffer(out: &mut [u8], at: usize, buffer: &[u8]) -> usize {
    let mut k = put(out, at, b' ');
    for b in buffer {
        k = put(out, k, shown(*b));
    }
    k
}

fn shown(b: u8) -> u8 {
    match b {
        0 => b'.',
        0xAA => b'#',
        _ => b,
    }
}
