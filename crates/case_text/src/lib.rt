// The text of recorded cases: its lines, the fields of a line, and the numbers and bytes that they hold.

#![tactic(auto)]

ghost use Rattle.std.specs.Prelude.{◌≡◌, ◌+◌, ◌-◌, ◌/◌, ◌%◌, ◌<◌, ◌≢◌, ◌↔◌, IsTrue, length, slice_index};
ghost use Rattle.numbers.specs.Parts.{CutOf};
ghost use Rattle.buffers.specs.Writes.{Wrote};
ghost use Rattle.heaps.specs.Lookups.{before};
ghost use Rattle.case_text.specs.Digits.{hex_digit, hex_pair, hex_bytes, with_digit, worth};

// What stands before the first of a byte, as a blank or a line end, and what stands behind it: all and nothing where there is none.
pub fn cut_at<'a>(s: &'a [u8], end: u8) -> (&'a [u8], &'a [u8])
    ensures front { CutOf result.0 s.entry 0 (before end s.now) }
    ensures back { let n = before end s.now + 1 in CutOf result.1 s.entry n (length s.now - n) }
{
    let at = heaps::find_byte(s, 0, end);
    (numbers::cut(s, 0, at), after(s, at))
}

// What stands behind the first n bytes and one more.
pub fn after<'a>(s: &'a [u8], n: usize) -> &'a [u8]
    ensures { CutOf result s.entry (n + 1) (length s.now - (n + 1)) }
{
    if s.len() <= n {
        return numbers::cut(s, 0, 0);
    }
    numbers::cut(s, n + 1, s.len() - (n + 1))
}

// Whether a line is of a case: it is not empty, and does not begin with `#`.
pub fn is_case(line: &[u8]) -> bool
    ensures { IsTrue result ↔ (0 < length line.now) × (slice_index line.now 0 ≢ 35) }
{
    line.first().is_some_and(|b| *b != b'#')
}

// What a byte is worth as a hex digit: 0 if it is none.
#[tactic(auto, using(std::proofs::lemmas::Bool::Decides::nat_tests), unfolding(crate::specs::Digits::hex_digit))]
fn hex_digit(c: u8) -> u8
    ensures { (result ≡ hex_digit c) × (result < 16) }
{
    match c {
        b'0'..=b'9' => c - b'0',
        b'A'..=b'F' => c - b'A' + 10,
        _ => 0,
    }
}

fn hex_pair(c: u8, d: u8) -> u8
    ensures { result ≡ hex_pair c d }
{
    hex_digit(c) * 16 + hex_digit(d)
}

// The bytes that pairs of hex digits name, and how many there are.
pub fn read_hex(hex: &[u8], out: &mut [u8]) -> usize
    ensures { Wrote out.old 0 (hex_bytes (length hex.now / 2) hex.now) out.new result }
{
    let mut n = 0;
    for pair in hex.chunks_exact(2) {
        n = buffers::put(out, n, hex_pair(pair[0], pair[1]));
    }
    n
}

// A number with a digit more, as long as it stays below 2 ^ 64.
#[tactic(auto, using(std::proofs::lemmas::Bool::Decides::nat_tests), unfolding(crate::specs::Digits::with_digit))]
fn with_digit(n: usize, digit: u8) -> usize
    ensures { result ≡ with_digit n digit }
{
    if n < 1_844_674_407_370_955_161 {
        return n * 10 + usize::from(digit % 10);
    }
    n
}

// The number that decimal digits name.
pub fn read_decimal(digits: &[u8]) -> usize
    ensures { result ≡ worth (length digits.now) digits.now }
{
    let mut n = 0;
    for digit in digits {
        n = with_digit(n, hex_digit(*digit));
    }
    n
}

pub fn low_bits(n: usize) -> u32
    ensures { result ≡ n % 4294967296 }
{
    (n % 4_294_967_296) as u32
}
