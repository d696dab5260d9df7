// The answers of the calls as C takes them: structs of numbers, since no enum crosses to C. A refusal is its number in document 01, and
// 0 says that there is none; beside a refusal all else is 0, but for the reason. That says why a string is missing, beside 7 of a string
// and 5 of a class, method or generic name; else it is 0.

#![tactic(auto)]

ghost use Rattle.std.specs.Prelude.{◌≡◌};
ghost use Rattle.buffers.specs.Replies.{reply_says};
ghost use Rattle.tables.specs.Extents.{walk_says};
ghost use Rattle.c_replies.specs.Told.{the_version, told, no_part, told_part, told_extent};

use buffers::{Reason, Refusal, Reply};
use heaps::{Part, Span};
use steps::Charged;
use tables::Extents;

// The number asked for, which for a name is its length; or why there is none.
#[repr(C)]
#[derive(Clone, Copy)]
pub struct DnReply {
    pub value: usize,
    pub refusal: usize,
    pub reason: usize,
}

// Where in its heap the bytes of a lookup are, or why there are none.
#[repr(C)]
#[derive(Clone, Copy)]
pub struct DnPart {
    pub start: usize,
    pub len: usize,
    pub refusal: usize,
    pub reason: usize,
}

// Where a table begins in the stream, its row size and its whole rows.
#[repr(C)]
#[derive(Clone, Copy)]
pub struct DnExtent {
    pub start: usize,
    pub size: usize,
    pub rows: usize,
}

// The version of the interface, DN_VERSION in the header.
const VERSION: u32 = 5;

pub fn version() -> u32
    ensures { result ≡ the_version }
{
    VERSION
}

pub fn reply_of(reply: Reply) -> DnReply
    ensures { result ≡ told (reply_says reply) }
{
    match reply {
        Ok(value) => DnReply {
            value,
            refusal: 0,
            reason: 0,
        },
        Err(why) => DnReply {
            value: 0,
            refusal: buffers::refusal_number(why) as usize,
            reason: buffers::reason_number(why) as usize,
        },
    }
}

// The reply of a call that counts steps; what is left of them goes where they came from.
pub fn reply_charged(asked: Charged, steps: &mut u64) -> DnReply
    ensures { (result ≡ told (reply_says asked.reply)) × (steps.new ≡ asked.left) }
{
    *steps = asked.left;
    reply_of(asked.reply)
}

// The kind at which a walk was left.
pub fn stop_of(walk: Extents) -> DnReply
    ensures { result ≡ told (walk_says walk).stop }
{
    reply_of(walk.answer)
}

// A lookup that finds nothing, and why.
pub fn no_part(reason: Reason) -> DnPart
    ensures { result ≡ no_part reason }
{
    let no = Refusal::NotFound(reason);
    DnPart {
        start: 0,
        len: 0,
        refusal: buffers::refusal_number(no) as usize,
        reason: buffers::reason_number(no) as usize,
    }
}

pub fn part_of(part: Part) -> DnPart
    ensures { result ≡ told_part part }
{
    match part {
        Ok(Span { start, len }) => DnPart {
            start,
            len,
            refusal: 0,
            reason: 0,
        },
        Err(why) => no_part(why),
    }
}

// What a walk says of a kind.
#[tactic(auto, unfolding(crate::specs::Told::told_extent))]
pub fn extent_of(walk: Extents, kind: u32) -> DnExtent
    ensures { result ≡ told_extent (walk_says walk) kind }
{
    if 64 <= kind {
        return DnExtent {
            start: 0,
            size: 0,
            rows: 0,
        };
    }
    let k = kind as usize;
    DnExtent {
        start: walk.starts[k],
        size: walk.sizes[k] as usize,
        rows: walk.rows[k] as usize,
    }
}
