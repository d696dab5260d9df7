// The listing step by step: the line at each place of the cursor, and as many lines as a buffer holds, over a stream that is opened. Most
// lines are written where they belong. Where there is less room than a name may take as it stands, each is made elsewhere first. What a
// line counts is looked at where it is not known that every name is within the ceiling, and once for all lines that count the same.

#![tactic(auto)]

ghost use Rattle.std.specs.Prelude.{◌≡◌, true, false, List, ℕ, ◌+◌, ◌<◌, ◌≤◌, length};
ghost use Rattle.buffers.specs.Replies.{reply_says};
ghost use Rattle.buffers.specs.Writes.{Wrote};
ghost use Rattle.record.specs.View.{View, view};
ghost use Rattle.rows.specs.Layout.{Laid, view_in};
ghost use Rattle.places.specs.Places.{Owns};
ghost use Rattle.answers.specs.Known.{Knows};
ghost use Rattle.charges.specs.Within.{AllFit};
ghost use Rattle.lines.specs.Cursors.{cursor, next_number, stop_line, after_stop, is_over_at, counts_anew, Went, Stepped};
ghost use Rattle.lines.specs.Lines.{spent_line, line_room};
ghost use Rattle.lines.specs.declared.Cursor.{Cursor as At};
ghost use Rattle.lines.specs.declared.Place.TheVariants.{Stop, Method, Done};
ghost use Rattle.listing_steps.specs.Beginning.{Begun};
ghost use Rattle.listing_steps.specs.Filling.{is_done, piece_of, Pieced, Advances, Reaches};

use answer_lines::{Onward, name_line, number_line};
use answers::Known;
use buffers::{Reply, push};
use classes::ClassNumber;
use header::Options;
use lines::{Cursor, LINE_ROOM, Place, Step, cursor_at, next_number};
use places::Own;
use questions::{NameQuestion, NumberQuestion};

// A piece takes at most this many steps, some of which add no line.
pub const MOST_STEPS: u32 = 65_536;

// The bytes of the longest line. A line for which the space is too short would be made again for each step that is left.
const LONGEST_LINE: usize = 12_298;

// A line that has begun, behind its key: the question whose answer it shows, whether that number may be missing, and where it goes on.
#[derive(Clone, Copy)]
pub enum Line {
    Stop,
    Number {
        start: usize,
        question: NumberQuestion,
        optional: bool,
        next: Cursor,
    },
    Name {
        start: usize,
        question: NameQuestion,
        more: Cursor,
        past: Cursor,
    },
    Done,
}

// How far some steps went, what is known after them, whether the line there is known to be within the ceiling, and how many steps are left:
// none where the piece has its last line.
#[derive(Clone, Copy)]
pub struct Reached {
    pub step: Step,
    pub known: Known,
    pub within: bool,
    pub left: u32,
}

// Whether a listing is at its end.
pub fn is_done(c: Cursor) -> bool
    ensures { result ≡ is_done c.place }
{
    matches!(c.place, Place::Done)
}

fn done_line(out: &mut [u8], at: usize) -> Step
    ensures { (v : View) (c m i : ℕ) → Stepped v (cursor Done c m i) out.old at out.new result }
{
    let end = lines::push_nothing(out, at);
    Step {
        next: lines::done_cursor(),
        at: end,
    }
}

// Where the walk was left; a refusal ends the listing.
fn stop_step(out: &mut [u8], at: usize, reply: Reply) -> Step
    ensures { Went (stop_line (reply_says reply)) (after_stop (reply_says reply)) out.old at out.new result }
{
    match reply {
        Ok(stop) => {
            let end = lines::push_number(out, at, b"stop=", stop);
            Step {
                next: cursor_at(Place::Classes, ClassNumber(0), 0, 0),
                at: end,
            }
        }
        Err(why) => lines::push_refused(out, at, why),
    }
}

// The first line.
fn stop_line(
    tables: &[u8],
    strings: &[u8],
    blob: &[u8],
    options: Options,
    out: &mut [u8],
    at: usize,
) -> Step
    ensures { let v = view options tables.now strings.now blob.now in
        ((c m i : ℕ) → Stepped v (cursor Stop c m i) out.old at out.new result) }
{
    let walk = walks::walk_with(tables, options);
    stop_step(out, at, walk.answer)
}

// Begin the line at a cursor: its key is written. Each place is a row of this table: its key, its question, and where it goes on.
fn begin_line(out: &mut [u8], at: usize, c: Cursor) -> Line
    ensures { (v : View) → Begun v c out.old at out.new result }
{
    let Cursor {
        place,
        class,
        method: m,
        i,
    } = c;
    match place {
        Place::Stop => Line::Stop,
        Place::Classes => Line::Number {
            start: push(out, at, b"classes="),
            question: NumberQuestion::ClassCount,
            optional: false,
            next: cursor_at(Place::Class, ClassNumber(0), 0, 0),
        },
        Place::Class => Line::Name {
            start: push(out, at, b"class="),
            question: NameQuestion::ClassName(class),
            more: cursor_at(Place::Flags, class, 0, 0),
            past: lines::done_cursor(),
        },
        Place::Flags => Line::Number {
            start: push(out, at, b"flags="),
            question: NumberQuestion::ClassFlags(class),
            optional: false,
            next: cursor_at(Place::Packing, class, 0, 0),
        },
        Place::Packing => Line::Number {
            start: push(out, at, b"packing="),
            question: NumberQuestion::ClassPacking(class),
            optional: true,
            next: cursor_at(Place::Size, class, 0, 0),
        },
        Place::Size => Line::Number {
            start: push(out, at, b"size="),
            question: NumberQuestion::ClassSize(class),
            optional: true,
            next: cursor_at(Place::Generic, class, 0, 0),
        },
        Place::Generic => Line::Name {
            start: push(out, at, b"generic="),
            question: NameQuestion::GenericName(class, i),
            more: cursor_at(Place::Generic, class, 0, next_number(i)),
            past: cursor_at(Place::Base, class, 0, 0),
        },
        Place::Base => Line::Name {
            start: push(out, at, b"base="),
            question: NameQuestion::BaseName(class, i),
            more: cursor_at(Place::Base, class, 0, next_number(i)),
            past: cursor_at(Place::Method, class, 0, 0),
        },
        Place::Method => Line::Name {
            start: push(out, at, b"method="),
            question: NameQuestion::MethodName(class, m),
            more: cursor_at(Place::MethodFlags, class, m, 0),
            past: cursor_at(Place::Class, lines::next_class(class), 0, 0),
        },
        Place::MethodFlags => Line::Number {
            start: push(out, at, b"mflags="),
            question: NumberQuestion::MethodFlags(class, m),
            optional: false,
            next: cursor_at(Place::MethodGeneric, class, m, 0),
        },
        Place::MethodGeneric => Line::Name {
            start: push(out, at, b"mgeneric="),
            question: NameQuestion::MethodGenericName(class, m, i),
            more: cursor_at(Place::MethodGeneric, class, m, next_number(i)),
            past: cursor_at(Place::Returns, class, m, 0),
        },
        Place::Returns => Line::Name {
            start: push(out, at, b"returns="),
            question: NameQuestion::ReturnType(class, m),
            more: cursor_at(Place::ParamType, class, m, 0),
            past: cursor_at(Place::Method, class, next_number(m), 0),
        },
        Place::ParamType => Line::Name {
            start: push(out, at, b"ptype="),
            question: NameQuestion::ParamType(class, m, i),
            more: cursor_at(Place::ParamName, class, m, i),
            past: cursor_at(Place::Method, class, next_number(m), 0),
        },
        Place::ParamName => Line::Name {
            start: push(out, at, b"pname="),
            question: NameQuestion::ParamName(class, m, i),
            more: cursor_at(Place::ParamType, class, m, next_number(i)),
            past: cursor_at(Place::Method, class, next_number(m), 0),
        },
        Place::Done => Line::Done,
    }
}

// Whether the line at a cursor counts something that no line before it does.
fn counts_anew(c: Cursor) -> bool
    ensures { result ≡ counts_anew c.place c.i }
{
    match c.place {
        Place::Base => c.i == 0,
        Place::Returns => true,
        _ => false,
    }
}

// Whether what the line at a cursor counts is beyond the ceiling, by what is known of a class's methods.
fn is_over(tables: &[u8], strings: &[u8], blob: &[u8], layout: &[u32], c: Cursor, own: Own) -> bool
    requires laid { Laid tables.now layout.now }
    requires owns { Owns (view_in tables.now layout.now strings.now blob.now) own }
    ensures { let v = view_in tables.now layout.now strings.now blob.now in
        result ≡ is_over_at v c }
{
    match c.place {
        Place::Base => charges::bases_over(tables, strings, blob, layout, c.class),
        Place::Returns | Place::ParamType | Place::ParamName => {
            charges::method_over(tables, strings, blob, layout, c.class, c.method, own)
        }
        _ => false,
    }
}

// The mark of what is beyond the ceiling, behind its key.
fn push_spent(out: &mut [u8], at: usize, key: &[u8]) -> usize
    ensures { Wrote out.old at (spent_line key.now) out.new result }
{
    let start = push(out, at, key);
    lines::end_spent(out, start)
}

// Where the listing goes on behind a method.
fn next_method(c: Cursor) -> Cursor
    ensures { result ≡ cursor Method c.class.0 (next_number c.method) 0 }
{
    cursor_at(Place::Method, c.class, next_number(c.method), 0)
}

// The line at a cursor where what it counts is beyond the ceiling: the mark in the first line that counts it, and none after that. A class
// goes on to its methods, a method to the next one.
fn spent_line(out: &mut [u8], at: usize, c: Cursor) -> Step
    ensures { (v : View) → is_over_at v c ≡ true → Stepped v c out.old at out.new result }
{
    match c.place {
        Place::Base => {
            let next = cursor_at(Place::Method, c.class, 0, 0);
            if c.i == 0 {
                let end = push_spent(out, at, b"base=");
                return Step { next, at: end };
            }
            let end = lines::push_nothing(out, at);
            Step { next, at: end }
        }
        Place::Returns => {
            let next = next_method(c);
            let end = push_spent(out, at, b"returns=");
            Step { next, at: end }
        }
        _ => {
            let next = next_method(c);
            let end = lines::push_nothing(out, at);
            Step { next, at: end }
        }
    }
}

// One step over an opened stream: the line at a cursor is appended, if it has one, and the next cursor handed out. It is within the ceiling,
// and there is room for any name as it stands.
fn next_line(
    tables: &[u8],
    strings: &[u8],
    blob: &[u8],
    options: Options,
    layout: &[u32],
    c: Cursor,
    known: Known,
    out: &mut [u8],
    at: usize,
) -> Onward
    requires laid { Laid tables.now layout.now }
    requires by_index { (s b : List ℕ) → view_in tables.now layout.now s b ≡ view options tables.now s b }
    requires knows { Knows (view_in tables.now layout.now strings.now blob.now) blob.now known }
    requires line_room_in_bounds { at + line_room ≤ length out.old }
    requires c_value { is_over_at (view options tables.now strings.now blob.now) c ≡ false }
    ensures { let v = view options tables.now strings.now blob.now in
        Stepped v c out.old at out.new result.step × Knows
        (view_in tables.now layout.now strings.now blob.now) blob.now result.known }
{
    match begin_line(out, at, c) {
        Line::Stop => {
            let step = stop_line(tables, strings, blob, options, out, at);
            Onward { step, known }
        }
        Line::Number {
            start,
            question,
            optional,
            next,
        } => number_line(
            out, at, start, tables, strings, blob, layout, question, optional, next, known,
        ),
        Line::Name {
            start,
            question,
            more,
            past,
        } => name_line(
            out, at, start, tables, strings, blob, layout, question, more, past, known,
        ),
        Line::Done => {
            let step = done_line(out, at);
            Onward { step, known }
        }
    }
}

// At most so many steps from a place in the buffer on, while there is room for any name as it stands, the line that it makes fits, and what
// it counts is known to be within the ceiling, as that of the first line is. Whoever goes on from there hands on what is known. The cursor's
// parts are kept apart: a cursor that is copied is copied with the bytes between them.
fn fill_lines(
    tables: &[u8],
    strings: &[u8],
    blob: &[u8],
    options: Options,
    layout: &[u32],
    all: bool,
    from: Reached,
    out: &mut [u8],
) -> Reached
    requires laid { Laid tables.now layout.now }
    requires by_index { (s b : List ℕ) → view_in tables.now layout.now s b ≡ view options tables.now s b }
    requires knows { Knows (view_in tables.now layout.now strings.now blob.now) blob.now from.known }
    requires all_fit { all ≡ true → AllFit (view options tables.now strings.now blob.now) }
    requires next_value { is_over_at (view options tables.now strings.now blob.now) from.step.next ≡ false }
    requires at_in_bounds { from.step.at ≤ length out.old }
    ensures { let v = view options tables.now strings.now blob.now in
        Advances v from out.old out.new result × Knows
        (view_in tables.now layout.now strings.now blob.now) blob.now result.known }
{
    let Cursor {
        mut place,
        mut class,
        mut method,
        mut i,
    } = from.step.next;
    let mut at = from.step.at;
    let mut known = from.known;
    let mut left = from.left;
    while 0 < left {
        let c = Cursor {
            place,
            class,
            method,
            i,
        };
        if is_done(c) {
            return Reached {
                step: Step { next: c, at },
                known,
                within: true,
                left: 0,
            };
        }
        if out.len() - at < LINE_ROOM {
            return Reached {
                step: Step { next: c, at },
                known,
                within: true,
                left,
            };
        }
        let on = next_line(tables, strings, blob, options, layout, c, known, out, at);
        let step = on.step;
        known = on.known;
        if out.len() < step.at {
            return Reached {
                step: Step { next: c, at },
                known,
                within: true,
                left: 0,
            };
        }
        left -= 1;
        if !all && counts_anew(step.next) {
            return Reached {
                step,
                known,
                within: false,
                left,
            };
        }
        place = step.next.place;
        class = step.next.class;
        method = step.next.method;
        i = step.next.i;
        at = step.at;
    }
    let last = Cursor {
        place,
        class,
        method,
        i,
    };
    Reached {
        step: Step { next: last, at },
        known,
        within: true,
        left,
    }
}

// Some steps, at least one where there is room for it: the line at a cursor, whose count is looked at where it is not known to be within the
// ceiling, and those behind it that are known to be then.
fn fill_some(
    tables: &[u8],
    strings: &[u8],
    blob: &[u8],
    options: Options,
    layout: &[u32],
    all: bool,
    from: Reached,
    out: &mut [u8],
) -> Reached
    requires laid { Laid tables.now layout.now }
    requires by_index { (s b : List ℕ) → view_in tables.now layout.now s b ≡ view options tables.now s b }
    requires knows { Knows (view_in tables.now layout.now strings.now blob.now) blob.now from.known }
    requires all_fit { all ≡ true → AllFit (view options tables.now strings.now blob.now) }
    requires next_value { from.within ≡ true → is_over_at (view options tables.now strings.now blob.now) from.step.next ≡ false }
    requires left_nonzero { 0 < from.left }
    requires at_in_bounds { from.step.at ≤ length out.old }
    ensures { let v = view options tables.now strings.now blob.now in
        Advances v from out.old out.new result × Knows
        (view_in tables.now layout.now strings.now blob.now) blob.now result.known }
{
    let Reached { step, known, .. } = from;
    if !from.within && is_over(tables, strings, blob, layout, step.next, known.own) {
        let spent = spent_line(out, step.at, step.next);
        if out.len() < spent.at {
            return Reached {
                step,
                known,
                within: false,
                left: 0,
            };
        }
        return Reached {
            step: spent,
            known,
            within: false,
            left: from.left - 1,
        };
    }
    fill_lines(tables, strings, blob, options, layout, all, from, out)
}

// As many steps as there is room for, where any name has room as it stands.
fn fill_roomy(
    tables: &[u8],
    strings: &[u8],
    blob: &[u8],
    options: Options,
    layout: &[u32],
    all: bool,
    from: Cursor,
    known: Known,
    out: &mut [u8],
) -> Reached
    requires laid { Laid tables.now layout.now }
    requires by_index { (s b : List ℕ) → view_in tables.now layout.now s b ≡ view options tables.now s b }
    requires knows { Knows (view_in tables.now layout.now strings.now blob.now) blob.now known }
    requires all_fit { all ≡ true → AllFit (view options tables.now strings.now blob.now) }
    ensures { let v = view options tables.now strings.now blob.now in
        Reaches v from out.old out.new result × Knows
        (view_in tables.now layout.now strings.now blob.now) blob.now result.known }
{
    let mut r = Reached {
        step: Step { next: from, at: 0 },
        known,
        within: all,
        left: MOST_STEPS,
    };
    while 0 < r.left && LINE_ROOM <= out.len() - r.step.at {
        r = fill_some(tables, strings, blob, options, layout, all, r, out);
    }
    r
}

// The lines that still fit where there is less room, each made in a space of its own first.
fn fill_rest(
    tables: &[u8],
    strings: &[u8],
    blob: &[u8],
    options: Options,
    layout: &[u32],
    all: bool,
    from: Reached,
    out: &mut [u8],
) -> Onward
    requires laid { Laid tables.now layout.now }
    requires by_index { (s b : List ℕ) → view_in tables.now layout.now s b ≡ view options tables.now s b }
    requires knows { Knows (view_in tables.now layout.now strings.now blob.now) blob.now from.known }
    requires all_fit { all ≡ true → AllFit (view options tables.now strings.now blob.now) }
    requires next_value { from.within ≡ true → is_over_at (view options tables.now strings.now blob.now) from.step.next ≡ false }
    ensures { let v = view options tables.now strings.now blob.now in
        ((c : At) (b : List ℕ) → Reaches v c b out.old from → Pieced (piece_of v (length b) c) b out.new result.step) ×
        Knows
        (view_in tables.now layout.now strings.now blob.now) blob.now result.known }
{
    let mut space = [0u8; LONGEST_LINE];
    let mut c = from.step.next;
    let mut at = from.step.at;
    let mut known = from.known;
    let mut within = from.within;
    for _ in 0..from.left {
        if is_done(c) {
            break;
        }
        let begun = Reached {
            step: Step { next: c, at: 0 },
            known,
            within,
            left: 1,
        };
        let one = fill_some(
            tables, strings, blob, options, layout, all, begun, &mut space,
        );
        let after = push(out, at, numbers::cut(&space, 0, one.step.at));
        if out.len() < after {
            break;
        }
        c = one.step.next;
        known = one.known;
        within = one.within;
        at = after;
    }
    Onward {
        step: Step { next: c, at },
        known,
    }
}

// Steps until the listing is done or a line does not fit into the buffer, by what is known, and by whether all names are known to be within
// the ceiling. Whoever asks for the next piece hands on what is known.
pub fn fill_opened(
    tables: &[u8],
    strings: &[u8],
    blob: &[u8],
    options: Options,
    layout: &[u32],
    all: bool,
    from: Cursor,
    known: Known,
    out: &mut [u8],
) -> Onward
    requires laid { Laid tables.now layout.now }
    requires by_index { (s b : List ℕ) → view_in tables.now layout.now s b ≡ view options tables.now s b }
    requires knows { Knows (view_in tables.now layout.now strings.now blob.now) blob.now known }
    requires all_fit { all ≡ true → AllFit (view options tables.now strings.now blob.now) }
    ensures { let v = view options tables.now strings.now blob.now in
        Pieced (piece_of v (length out.old) from) out.old out.new result.step × Knows
        (view_in tables.now layout.now strings.now blob.now) blob.now result.known }
{
    let reached = fill_roomy(
        tables, strings, blob, options, layout, all, from, known, out,
    );
    if reached.left == 0 {
        return Onward {
            step: reached.step,
            known: reached.known,
        };
    }
    fill_rest(tables, strings, blob, options, layout, all, reached, out)
}
