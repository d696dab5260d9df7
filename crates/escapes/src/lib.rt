// Values of the listing, as they are written (2026-05, "A name with a line break"): a byte below 0x22, above 0x7E, or equal to 0x25 as a
// percent sign and two upper-case hex digits. A value is written as it stands first. Where it has such a byte, it is copied away from there
// on, and written anew from the copy.

#![tactic(auto)]

ghost use Rattle.std.specs.Prelude.{◌≡◌, ℕ, ◌+◌, ◌-◌, ◌*◌, ◌/◌, ◌%◌, ◌<◌, ◌≤◌, true, List, [], ◌∷◌, length, slice_index};
ghost use Rattle.numbers.specs.Fixed.{le_at};
ghost use Rattle.numbers.specs.Parts.{part};
ghost use Rattle.buffers.specs.Writes.{Wrote, Kept};
ghost use Rattle.backwards.specs.Backwards.{Behind};
ghost use Rattle.escapes.specs.Escapes.{special, hex_digit, escaped_byte, escaped, longest, Stands};

use buffers::push;

// What stands before the two digits of a byte, and all digits.
const PERCENT: u8 = b'%';

const DIGITS: &[u8] = b"0123456789ABCDEF";

// The highest byte that stands.
const HIGHEST: u8 = 0x7E;

// Bytes that are looked at in one turn, and that are overwritten behind a text; what is written there; and the highest bit of each.
const TURN: usize = 8;

const PLAIN: u8 = b'0';

const TOPS: u64 = 0x8080_8080_8080_8080;

// Room for the longest text that is written so, for a copy behind it, and for what is read behind that.
const SPACE: usize = 12_352;

// Whether a byte is not written as it stands.
#[tactic(auto, unfolding(crate::specs::Escapes::special))]
fn is_special(b: u8) -> bool
    ensures { result ≡ special b }
{
    b < 0x22 || HIGHEST < b || b == PERCENT
}

// Whether eight bytes are all from 0x26 to 0x7E, and so stand: as one number, 0x26 can be taken from each, and 0x27 be added then, and no
// byte gets its highest bit.
fn stand_word(v: u64) -> bool
    ensures { (s : List ℕ) (at : ℕ) → ((i : ℕ) → slice_index s i < 256) → v ≡ le_at 8 s at → result ≡ true → Stands s at 8 }
{
    let x = v.wrapping_sub(0x2626_2626_2626_2626);
    x & TOPS == 0 && x.wrapping_add(0x2727_2727_2727_2727) & TOPS == 0
}

fn stand_eight(s: &[u8], at: usize) -> bool
    requires { at + 8 ≤ length s.now }
    ensures { result ≡ true → Stands s.now at 8 }
{
    stand_word(numbers::read_eight(s, at))
}

// Write bytes that stand behind a text, so that they do not hide that it does.
fn pad(out: &mut [u8], end: usize)
    requires { end + 8 ≤ length out.old }
    ensures { Kept out.old end out.new }
{
    out[end..end + TURN].fill(PLAIN);
}

// Write eight bytes that were read as one number.
fn write_eight(out: &mut [u8], to: usize, v: u64)
    requires { to + 8 ≤ length out.old }
    ensures { (s : List ℕ) (at : ℕ) → ((i : ℕ) → slice_index s i < 256) → at + 8 ≤ length s → v ≡ le_at 8 s at → Behind out.old to
        (to + 8) (part s at 8) out.new to }
{
    out[to..to + TURN].copy_from_slice(&v.to_le_bytes());
}

// Copy a text to a place that lies behind it.
fn copy_away(out: &mut [u8], start: usize, end: usize, gap: usize)
    requires { (start ≤ end) × (end - start ≤ gap) × (end + gap ≤ length out.old) }
    ensures { Kept out.old (start + gap) out.new × (part out.new (start + gap) (end - start) ≡ part
        out.old start (end - start)) }
{
    // Byte by byte, as in `buffers::push`.
    for i in 0..end - start {
        out[start + gap + i] = out[start + i];
    }
}

// A digit from 0 to 15.
fn hex_digit(n: u8) -> u8
    requires { n < 16 }
    ensures { result ≡ hex_digit n }
{
    DIGITS[n as usize]
}

// Write one byte by a percent sign.
fn put_percent(out: &mut [u8], to: usize, b: u8)
    requires { to + 3 ≤ length out.old }
    ensures { Behind out.old to (to + 3) (0x25 ∷ hex_digit (b / 16) ∷ hex_digit (b % 16) ∷ []) out.new to }
{
    out[to..to + 3].copy_from_slice(&[PERCENT, hex_digit(b / 16), hex_digit(b % 16)]);
}

// Write one byte that is not above 0x7E. The answer is the place behind it.
fn put_byte(out: &mut [u8], to: usize, b: u8) -> usize
    requires { (to + 3 ≤ length out.old) × (b ≤ 0x7E) }
    ensures { Behind out.old to result (escaped_byte b) out.new to }
{
    if PERCENT < b {
        out[to] = b;
        return to + 1;
    }
    if is_special(b) {
        put_percent(out, to, b);
        return to + 3;
    }
    out[to] = b;
    to + 1
}

// Write a text to a place that lies so far before it that what is written never reaches what is read. Eight bytes that stand are copied at
// once; the last of them may lie behind the text, where the first stands. Bytes beyond ASCII come in twos at least.
fn write_anew(out: &mut [u8], start: usize, end: usize, at: usize) -> usize
    requires { (start ≤ end) × (end + 8 ≤ length out.old) × (at + 2 * (end - start) + 8 ≤ start) × (slice_index out.old end ≤ 0x7E) }
    ensures { let t = part out.old start (end - start) in
        Wrote out.old at (escaped t) out.new result }
{
    let mut from = start;
    let mut to = at;
    while from < end {
        let b = out[from];
        if HIGHEST < b {
            // A turn for each alone was tried, and takes a tenth more where names are not ASCII.
            let c = out[from + 1];
            if HIGHEST < c {
                put_percent(out, to, b);
                put_percent(out, to + 3, c);
                from += 2;
                to += 6;
                continue;
            }
            put_percent(out, to, b);
            from += 1;
            to += 3;
            continue;
        }
        let v = numbers::read_eight(out, from);
        if stand_word(v) {
            write_eight(out, to, v);
            from += TURN;
            to += TURN;
            continue;
        }
        to = put_byte(out, to, b);
        from += 1;
    }
    to - (from - end)
}

// Write a text anew where it stands, from a copy behind it. Where there is too little room for that, it is made in a space of its own first.
fn escape_part(out: &mut [u8], start: usize, end: usize) -> usize
    requires { (start ≤ end) × (end + 8 ≤ length out.old) × (end ≤ start + longest) }
    ensures { let t = part out.old start (end - start) in
        Wrote out.old start (escaped t) out.new result }
{
    let n = end - start;
    let gap = 2 * n + 2 * TURN;
    if out.len() - end < gap + 2 * TURN {
        let mut space = [0u8; SPACE];
        push(&mut space, 0, numbers::cut(out, start, n));
        let made = escape_part(&mut space, 0, n);
        return push(out, start, numbers::cut(&space, 0, made));
    }
    copy_away(out, start, end, gap);
    out[end + gap] = PLAIN;
    write_anew(out, start + gap, end + gap, start)
}

// Write a text anew that stands from one place to another. Behind it there are eight bytes more. Most texts stand.
pub fn escape(out: &mut [u8], start: usize, end: usize) -> usize
    requires { (start ≤ end) × (end + 8 ≤ length out.old) × (end ≤ start + longest) }
    ensures { let t = part out.old start (end - start) in
        Wrote out.old start (escaped t) out.new result }
{
    pad(out, end);
    for i in (start..end).step_by(TURN) {
        if !stand_eight(out, i) {
            return escape_part(out, i, end);
        }
    }
    end
}
