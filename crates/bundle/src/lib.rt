// The input of the programs: the lines `tables=N`, `strings=N`, `blob=N`, then exactly those bytes in that order (document 01, "The
// listing program"). What is found are the places of the three streams: `numbers::cut` gives the bytes.

#![tactic(auto)]

ghost use Rattle.std.specs.Prelude.{◌≡◌, ◌<◌, ◌≤◌, MatchOption, length};
ghost use Rattle.bundle.specs.Input.{digit_of, number_at, line_at, laid, bundle_of, Within, bundle_says, input_in};

// Where a stream lies in the input.
#[derive(Clone, Copy)]
pub struct Part {
    pub at: usize,
    pub len: usize,
}

// The tables stream, the strings heap and the blob heap.
#[derive(Clone, Copy)]
pub struct Bundle {
    pub tables: Part,
    pub strings: Part,
    pub blob: Part,
}

// What a byte is worth as a digit.
#[tactic(auto, unfolding(crate::specs::Input::digit_of))]
fn digit_of(c: u8) -> Option<usize>
    ensures { MatchOption result (9 < digit_of c) (λ d. (d ≡ digit_of c) × (d ≤ 9)) }
{
    match c {
        b'0'..=b'9' => Some((c - b'0') as usize),
        _ => None,
    }
}

// A number at a position, and the position after the end of its line.
fn read_number(s: &[u8], at: usize) -> Option<(usize, usize)>
    ensures { (result ≡ number_at s.now at) × Within (length s.now) result }
{
    if s.len() <= at {
        return None;
    }
    let mut n = digit_of(s[at])?;
    for i in at + 1..s.len() {
        if s[i] == b'\n' {
            return Some((n, i + 1));
        }
        if n == 0 {
            return None;
        }
        n = n * 10 + digit_of(s[i])?;
        if 65536 < n {
            return None;
        }
    }
    None
}

// The number of a line at a position, which begins with a key, and the position after the line.
fn read_line(key: &[u8], s: &[u8], at: usize) -> Option<(usize, usize)>
    ensures { (result ≡ line_at key.now s.now at) × Within (length s.now) result }
{
    if numbers::cut(s, at, key.len()) != key {
        return None;
    }
    read_number(s, at + key.len())
}

// The streams, one after the other from a position on, if they end where the input does.
#[tactic(auto, unfolding(crate::specs::Input::laid))]
fn lay(total: usize, tables: usize, strings: usize, blob: usize, at: usize) -> Option<Bundle>
    requires { (tables ≤ 65536) × (strings ≤ 65536) × (blob ≤ 65536) × (at ≤ 65536) }
    ensures { result ≡ laid total tables strings blob at }
{
    let second = at + tables;
    let third = second + strings;
    if third + blob != total {
        return None;
    }
    Some(Bundle {
        tables: Part { at, len: tables },
        strings: Part {
            at: second,
            len: strings,
        },
        blob: Part {
            at: third,
            len: blob,
        },
    })
}

// The whole input: what it says, and the places in it by which that is said.
#[tactic(auto, unfolding(crate::specs::Input::bundle_of, crate::specs::Input::on_line))]
pub fn open_bundle(s: &[u8]) -> Option<Bundle>
    ensures { (bundle_says s.now result ≡ input_in s.now) × (result ≡ bundle_of s.now) }
{
    if 65536 < s.len() {
        return None;
    }
    let (tables, second) = read_line(b"tables=", s, 0)?;
    let (strings, third) = read_line(b"strings=", s, second)?;
    let (blob, start) = read_line(b"blob=", s, third)?;
    lay(s.len(), tables, strings, blob, start)
}
