// Bytes in pieces, a blank between each two: pairs of hex digits, or a text in double quotes; `*` and a number behind either repeat it.
ghost use Rattle.std.specs.Prelude.{◌<◌, length};

use case_text::{cut_at, read_decimal, read_hex};

// Bytes for a piece.
const PIECE: usize = 4096;

// The bytes of the pieces up to one that begins with a byte: how many there are, and the text from that byte on.
pub fn expand<'a>(text: &'a [u8], stop: u8, out: &mut [u8]) -> (usize, &'a [u8]) {
    let mut n = 0;
    let mut rest = text;
    while let Some(c) = rest.first() {
        if *c == stop {
            break;
        }
        let (piece, behind) = cut_piece(rest);
        n = put_piece(out, n, piece);
        rest = behind;
    }
    (n, rest)
}

// The first piece of a text, which may have blanks within its quotes, and what stands behind the blank that ends it.
fn cut_piece<'a>(text: &'a [u8]) -> (&'a [u8], &'a [u8])
    requires { 0 < length text.now }
    ensures { length result.1.now < length text.entry.now }
{
    let ends = if text[0] == b'"' { b'"' } else { b' ' };
    let close = heaps::find_byte(text, 1, ends);
    let end = heaps::find_byte(text, close, b' ');
    let behind = text.get(end + 1..).unwrap_or_default();
    (numbers::cut(text, 0, end), behind)
}

fn put_piece(out: &mut [u8], at: usize, piece: &[u8]) -> usize {
    let (body, digits) = cut_at(piece, b'*');
    let times = times_in(digits);
    match body {
        [] | [_] => at,
        [b'"', text @ .., _] => repeat(out, at, text, times),
        _ => {
            let mut space = [0u8; PIECE];
            let n = read_hex(body, &mut space);
            repeat(out, at, numbers::cut(&space, 0, n), times)
        }
    }
}

// Once where no number stands.
fn times_in(digits: &[u8]) -> usize {
    if digits.is_empty() {
        return 1;
    }
    read_decimal(digits)
}

fn repeat(out: &mut [u8], at: usize, bytes: &[u8], times: usize) -> usize {
    let mut k = at;
    for _ in 0..times {
        k = buffers::push(out, k, bytes);
    }
    k
}
