// The listing for C, piece by piece: as many whole lines as a lent buffer holds, and where it goes on, as four numbers.

#![tactic(auto)]

ghost use Rattle.std.specs.Prelude.{◌≡◌, length, replicate};
ghost use Rattle.record.specs.View.{view};
ghost use Rattle.listing_steps.specs.Filling.{piece_of};
ghost use Rattle.c_questions.specs.Asked.{options_of};
ghost use Rattle.c_listing.specs.Told.{place_number, place_of, cursor_of, told_cursor, told_step, ToldPiece};

use classes::ClassNumber;
use lines::{Cursor, Place, Step};

// Where a listing goes on: the place, and the class, the method and the item that it is about. All 0 is the beginning.
#[repr(C)]
#[derive(Clone, Copy)]
pub struct DnCursor {
    pub place: u32,
    pub class_number: u32,
    pub method: u32,
    pub item: u32,
}

// The bytes of a piece, whether the listing is done with it, and where it goes on.
#[repr(C)]
#[derive(Clone, Copy)]
pub struct DnPiece {
    pub used: usize,
    pub done: usize,
    pub next: DnCursor,
}

// The same the other way round. (Both are functions, since neither type is of this crate.)
#[tactic(auto, unfolding(record::specs::Types::look, crate::specs::Told::numbered_places))]
fn place_of(n: u32) -> Place
    ensures { result ≡ place_of n }
{
    match n {
        0 => Place::Stop,
        1 => Place::Classes,
        2 => Place::Class,
        3 => Place::Flags,
        4 => Place::Generic,
        5 => Place::Base,
        6 => Place::Method,
        7 => Place::MethodFlags,
        8 => Place::MethodGeneric,
        9 => Place::Returns,
        10 => Place::ParamType,
        11 => Place::ParamName,
        13 => Place::Packing,
        14 => Place::Size,
        _ => Place::Done,
    }
}

// A place's number is its place among the variants.
fn place_number(place: Place) -> u32
    ensures { result ≡ place_number place }
{
    place as u32
}

fn cursor_of(c: DnCursor) -> Cursor
    ensures { result ≡ cursor_of c }
{
    lines::cursor_at(
        place_of(c.place),
        ClassNumber(c.class_number),
        c.method,
        c.item,
    )
}

fn told_cursor(c: Cursor) -> DnCursor
    ensures { result ≡ told_cursor c }
{
    DnCursor {
        place: place_number(c.place),
        class_number: c.class.0,
        method: c.method,
        item: c.i,
    }
}

fn told_step(step: Step) -> DnPiece
    ensures { result ≡ told_step step }
{
    DnPiece {
        used: step.at,
        done: usize::from(listing_steps::is_done(step.next)),
        next: told_cursor(step.next),
    }
}

// As many whole lines from a cursor on as the buffer holds, and then zeros. The lent words are there for speed alone: any number of them
// will do, whatever they hold, and after the call they are zero.
pub fn listing(
    tables: &[u8],
    strings: &[u8],
    blob: &[u8],
    options: u32,
    from: DnCursor,
    work: &mut [u32],
    buf: &mut [u8],
) -> DnPiece
    ensures { let v = view (options_of options) tables.now strings.now blob.now in
        ToldPiece (piece_of v (length buf.old) (cursor_of from)) buf.old result buf.new ×
        (work.new ≡ replicate (length work.old) 0) }
{
    let opened = c_questions::options_of(options);
    let start = cursor_of(from);
    told_step(listing_text::fill(tables, strings, blob, opened, start, work, buf))
}
