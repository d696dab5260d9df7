// Text that is written into a lent buffer from its end towards its start, and then moved to its place: a nested class name is found
// from its last part to its first.

#![tactic(auto)]

ghost use Rattle.std.specs.Prelude.{◌∷◌, [], ◌++◌, ◌≤◌, length};
ghost use Rattle.backwards.specs.Backwards.{Placed, Moved};

// Write a text that ends at a place, and begins not before the floor. The answer is where it begins; none where it does not fit.
pub fn put_before(buf: &mut [u8], floor: usize, end: usize, src: &[u8]) -> Option<usize>
    requires { (floor ≤ end) × (end ≤ length buf.old) }
    ensures { Placed buf.old floor end src.now buf.new result }
{
    if end - floor < src.len() {
        return None;
    }
    let p = end - src.len();
    // Byte by byte, as in `buffers::push`.
    for i in 0..src.len() {
        buf[p + i] = src[i];
    }
    Some(p)
}

// The same of a text and a dot after it.
pub fn put_dotted_before(buf: &mut [u8], floor: usize, end: usize, src: &[u8]) -> Option<usize>
    requires { (floor ≤ end) × (end ≤ length buf.old) }
    ensures { Placed buf.old floor end (src.now ++ 0x2E ∷ []) buf.new result }
{
    if end == floor {
        return None;
    }
    buf[end - 1] = 0x2E;
    put_before(buf, floor, end - 1, src)
}

// Move what stands from a place to the buffer's end down to another place.
pub fn move_down(buf: &mut [u8], at: usize, from: usize)
    requires { (at ≤ from) × (from ≤ length buf.old) }
    ensures { Moved buf.old at from buf.new }
{
    for j in 0..buf.len() - from {
        buf[at + j] = buf[from + j];
    }
}
