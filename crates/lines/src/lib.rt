// The lines of the listing, appended to a lent buffer, and the cursor that goes from line to line (document 01, "The listing program"). A
// name's line is ended where the name was written, behind its key: a name that is too long is taken back there, and any other is written
// as a value.

#![tactic(auto)]

ghost use Rattle.std.specs.Prelude.{◌≡◌, List, [], ℕ, ◌+◌, ◌≤◌, length};
ghost use Rattle.buffers.specs.Texts.{Text};
ghost use Rattle.buffers.specs.Writes.{Wrote, Kept};
ghost use Rattle.buffers.specs.Replies.{number, reply_says};
ghost use Rattle.escapes.specs.Escapes.{shown};
ghost use Rattle.lines.specs.Lines.{line, name_room, number_line, spent_line, refused_line, answer_line, is_missing, numbered_line};
ghost use Rattle.lines.specs.Cursors.{cursor, first, done, next_number, Went};

use buffers::{Refusal, Reply, push, push_decimal, put, refusal_number};
use classes::ClassNumber;

// What ends a line.
const LINE_END: u8 = b'\n';

// The bytes of the longest name that is shown. For a longer one there stands `!`.
const LONGEST: usize = 4096;

// Room for a key, any name that is not too long, and eight bytes. Written as a value the name may need more.
pub const LINE_ROOM: usize = 4120;

// What the next line is about. Packing and size come behind the flags in a listing, and last here, as in the numbers that C programs use.
#[derive(Clone, Copy, Debug, PartialEq, Eq)]
pub enum Place {
    Stop,
    Classes,
    Class,
    Flags,
    Generic,
    Base,
    Method,
    MethodFlags,
    MethodGeneric,
    Returns,
    ParamType,
    ParamName,
    Done,
    Packing,
    Size,
}

// Where the listing is: the class, the method and the item that the place is about, from 0.
#[derive(Clone, Copy)]
pub struct Cursor {
    pub place: Place,
    pub class: ClassNumber,
    pub method: u32,
    pub i: u32,
}

// The next cursor, and the place in the buffer after the line.
#[derive(Clone, Copy)]
pub struct Step {
    pub next: Cursor,
    pub at: usize,
}

pub fn cursor_at(place: Place, class: ClassNumber, method: u32, i: u32) -> Cursor
    ensures { result ≡ cursor place class.0 method i }
{
    Cursor {
        place,
        class,
        method,
        i,
    }
}

// Where a listing begins.
pub fn first_cursor() -> Cursor
    ensures { result ≡ first }
{
    cursor_at(Place::Stop, ClassNumber(0), 0, 0)
}

// Where it ends.
pub fn done_cursor() -> Cursor
    ensures { result ≡ done }
{
    cursor_at(Place::Done, ClassNumber(0), 0, 0)
}

pub fn next_number(n: u32) -> u32
    ensures { result ≡ next_number n }
{
    n.saturating_add(1)
}

pub fn next_class(class: ClassNumber) -> ClassNumber
    ensures { result.0 ≡ next_number class.0 }
{
    ClassNumber(next_number(class.0))
}

// No line.
pub fn push_nothing(out: &mut [u8], at: usize) -> usize
    ensures { Wrote out.old at [] out.new result }
{
    at.min(out.len() + 1)
}

// A key and a number.
pub fn push_number(out: &mut [u8], at: usize, key: &[u8], n: usize) -> usize
    ensures { Wrote out.old at (number_line key.now n) out.new result }
{
    let start = push(out, at, key);
    let end = push_decimal(out, start, n);
    put(out, end, LINE_END)
}

// End the line of a name that is too long, or takes too many steps: the mark stands behind its key.
pub fn end_spent(out: &mut [u8], start: usize) -> usize
    ensures { (o o₁ : List ℕ) (at : ℕ) (key : Text) → Wrote o at key o₁ start → Kept o₁ start out.old → Wrote o at (spent_line key)
        out.new result }
{
    push(out, start, b"!\n")
}

// End the line of a name that was written as it stands from one place to another, behind its key. There is room for a name that is not too
// long.
pub fn end_name(out: &mut [u8], start: usize, end: usize) -> usize
    requires { (start + name_room ≤ length out.old) × (start ≤ end) }
    ensures { (o o₁ : List ℕ) (at : ℕ) (key t : Text) → Wrote o at key o₁ start → Wrote o₁ start t out.old end → Wrote o at
        (line key (shown t)) out.new result }
{
    if LONGEST < end - start {
        return end_spent(out, start);
    }
    let after = escapes::escape(out, start, end);
    put(out, after, LINE_END)
}

// End the line of a name that is missing: its key stands alone.
pub fn end_missing(out: &mut [u8], start: usize) -> usize
    ensures { (o o₁ : List ℕ) (at : ℕ) (key : Text) → Wrote o at key o₁ start → Kept o₁ start out.old → Wrote o at (line key [])
        out.new result }
{
    put(out, start, LINE_END)
}

// The line of a number by a call's reply, behind its key, and where it goes on.
fn end_reply(out: &mut [u8], at: usize, start: usize, reply: Reply, next: Cursor) -> Step
    ensures { (o : List ℕ) (key : Text) → Wrote o at key out.old start → Went (answer_line key (reply_says reply)) next o at
        out.new result }
{
    match reply {
        Ok(n) => {
            let end = push_decimal(out, start, n);
            Step {
                next,
                at: put(out, end, LINE_END),
            }
        }
        Err(_) => Step {
            next,
            at: push_nothing(out, at),
        },
    }
}

// Whether a reply says that there is no such number. Other refusals are those of the streams.
fn is_missing(reply: Reply) -> bool
    ensures { result ≡ is_missing (reply_says reply) }
{
    matches!(reply, Err(Refusal::NoSuchRow))
}

// The same where the number may be one that may be missing: where it is, its key stands alone.
pub fn end_number(
    out: &mut [u8],
    at: usize,
    start: usize,
    reply: Reply,
    optional: bool,
    next: Cursor,
) -> Step
    ensures { (o : List ℕ) (key : Text) → Wrote o at key out.old start → Went (numbered_line optional key (reply_says reply)) next o at
        out.new result }
{
    if optional && is_missing(reply) {
        return Step {
            next,
            at: end_missing(out, start),
        };
    }
    end_reply(out, at, start, reply, next)
}

// A refusal, which ends the listing.
pub fn push_refused(out: &mut [u8], at: usize, why: Refusal) -> Step
    ensures { Went (refused_line (number why)) done out.old at out.new result }
{
    let end = push_number(out, at, b"refused=", refusal_number(why) as usize);
    Step {
        next: done_cursor(),
        at: end,
    }
}
