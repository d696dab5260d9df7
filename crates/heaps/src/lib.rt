// Lookups in the strings heap and the blob heap (ECMA-335 II.24.2.3, II.24.2.4): as positions, for the layers above, and as the very
// part of the heap, for the library's users.

#![tactic(auto)]

ghost use Rattle.std.specs.Prelude.{◌≡◌, ◌+◌, ◌==◌, true, drop};
ghost use Rattle.std.specs.List.{position};
ghost use Rattle.heaps.specs.Lookups.{before, Without, string_at, string, is_there, blob_at, Inside, Handed, Looked};

use buffers::{Reason, Refusal};

// Which heap is meant.
#[derive(Clone, Copy)]
pub enum Heap {
    Strings,
    Blobs,
}

// A place in a heap.
#[derive(Clone, Copy)]
pub struct Span {
    pub start: usize,
    pub len: usize,
}

// Where in its heap the bytes of a lookup are, or why there are none.
pub type Part = Result<Span, Reason>;

// Bytes that are looked at in one turn; a number that has 1 in each of them, and one that has the highest bit.
const TURN: usize = 8;

const ONES: u64 = 0x0101_0101_0101_0101;

const TOPS: u64 = 0x8080_8080_8080_8080;

// Whether eight bytes are there and none is x, if that is seen of all at once: held against x, as one number, 1 can be taken from each, and
// no byte gets its highest bit.
fn none_is(s: &[u8], at: usize, x: u8) -> bool
    ensures { result ≡ true → Without x s.now at 8 }
{
    if s.len() < at || s.len() - at < TURN {
        return false;
    }
    let against = numbers::read_eight(s, at) ^ (ONES * u64::from(x));
    against.wrapping_sub(ONES) & TOPS == 0
}

// The position of the first x at or after another, or the end. It looks at eight bytes a turn, while none of them is seen to be x.
// A `while`, here and below, for its speed: `position` alone takes twice the time, and `step_by` a twentieth more.
pub fn find_byte(s: &[u8], from: usize, x: u8) -> usize
    ensures { result ≡ from + before x (drop from s.now) }
{
    let mut i = from;
    while i < s.len() {
        if !none_is(s, i, x) {
            return find_near(s, i, x);
        }
        i += TURN;
    }
    i
}

// The same, four bytes a turn, while there are four.
fn find_near(s: &[u8], from: usize, x: u8) -> usize
    ensures { result ≡ from + before x (drop from s.now) }
{
    let mut i = from;
    while i < s.len() {
        if s.len() - i < 4 {
            return i + first(&s[i..], x).unwrap_or(s.len() - i);
        }
        if let Some(n) = first(&s[i..i + 4], x) {
            return i + n;
        }
        i += 4;
    }
    i
}

// The position of the first x.
fn first(s: &[u8], x: u8) -> Option<usize>
    ensures { result ≡ position (λ b. b == x) s.now }
{
    s.iter().position(|&b| b == x)
}

#[tactic(auto, unfolding(crate::specs::Lookups::string_at))]
pub fn get_string(strings: &[u8], index: usize) -> Part
    ensures { result ≡ string_at strings.now index }
{
    if index == 0 {
        return Err(Reason::NullIndex);
    }
    if strings.len() <= index {
        return Err(Reason::PastEnd);
    }
    let end = find_byte(strings, index, 0);
    if strings.len() <= end {
        return Err(Reason::NoZero);
    }
    Ok(Span {
        start: index,
        len: end - index,
    })
}

// Whether a string is there. In a heap that ends with a zero byte one follows every index, and none is searched for.
pub fn has_string(strings: &[u8], i: usize) -> bool
    ensures { result ≡ is_there (string strings.now i) }
{
    if i == 0 {
        return false;
    }
    let n = strings.len();
    if n <= i {
        return false;
    }
    if strings[n - 1] == 0 {
        return true;
    }
    find_byte(strings, i, 0) < n
}

#[tactic(auto, unfolding(crate::specs::Lookups::blob_at, crate::specs::Lookups::bytes_at))]
pub fn get_blob(blobs: &[u8], index: usize) -> Part
    ensures { result ≡ blob_at blobs.now index }
{
    let (n, start) = numbers::read_uint(blobs, index).map_err(|_| Reason::Untold)?;
    let len = n as usize;
    if blobs.len() < start + len {
        return Err(Reason::Untold);
    }
    Ok(Span { start, len })
}

// The part of a heap that a lookup found, or refusal 7 and the reason.
fn hand<'a>(s: &'a [u8], found: Part) -> Result<&'a [u8], Refusal>
    requires { Inside s.now found }
    ensures { Handed result s.entry found }
{
    match found {
        Ok(span) => Ok(numbers::cut(s, span.start, span.len)),
        Err(why) => Err(Refusal::NotFound(why)),
    }
}

// The raw lookup: the very part of the heap that is meant; or refusal 7, and why a string is missing.
pub fn lookup<'a>(
    strings: &'a [u8],
    blobs: &'a [u8],
    heap: Heap,
    index: u32,
) -> Result<&'a [u8], Refusal>
    ensures { Looked result strings.entry blobs.entry heap index }
{
    match heap {
        Heap::Strings => hand(strings, get_string(strings, index as usize)),
        Heap::Blobs => hand(blobs, get_blob(blobs, index as usize)),
    }
}
