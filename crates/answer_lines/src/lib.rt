// The lines of a listing that answer a question, behind their keys: one function for a number, one for a name. A name is written where it
// belongs; its length is judged there, and one that is too long is taken back.

#![tactic(auto)]

ghost use Rattle.std.specs.Prelude.{◌≡◌, false, cond, List, ℕ, ◌+◌, ◌≤◌, length};
ghost use Rattle.buffers.specs.Texts.{Text};
ghost use Rattle.buffers.specs.Writes.{Wrote};
ghost use Rattle.record.specs.Answers.{number_answer};
ghost use Rattle.record.specs.Allowance.{name_work, is_over};
ghost use Rattle.rows.specs.Layout.{Laid, view_in};
ghost use Rattle.questions.specs.Questions.{number_call, name_call};
ghost use Rattle.answers.specs.Known.{Knows};
ghost use Rattle.lines.specs.Lines.{name_room, numbered_line, name_line, goes_on};
ghost use Rattle.lines.specs.Ceiling.{listed};
ghost use Rattle.lines.specs.Cursors.{Went};

use answers::{Answered, Counted, Known};
use buffers::Unnamed;
use lines::{Cursor, Step};
use questions::{NameQuestion, NumberQuestion};

// A step of the listing, and what is known after it.
#[derive(Clone, Copy)]
pub struct Onward {
    pub step: Step,
    pub known: Known,
}

// The line of a number, which may be one that may be missing, and where it goes on.
pub fn number_line(
    out: &mut [u8],
    at: usize,
    start: usize,
    tables: &[u8],
    strings: &[u8],
    blob: &[u8],
    layout: &[u32],
    question: NumberQuestion,
    optional: bool,
    next: Cursor,
    known: Known,
) -> Onward
    requires laid { Laid tables.now layout.now }
    requires knows { Knows (view_in tables.now layout.now strings.now blob.now) blob.now known }
    ensures { let v = view_in tables.now layout.now strings.now blob.now in
        ((o : List ℕ) (key : Text) → Wrote o at key out.old start → Went
        (numbered_line optional key (number_answer (number_call question) v)) next o at out.new result.step) × Knows v blob.now result.known }
{
    let Counted { reply, known } = answers::reply_number(
        tables, strings, blob, layout, question, known,
    );
    let step = lines::end_number(out, at, start, reply, optional, next);
    Onward { step, known }
}

// The line of a name that is within the ceiling, and where it goes on: to one cursor where the lines of its kind may go on behind it, to the
// other where there is no such row. There is room for a name that is not too long.
pub fn name_line(
    out: &mut [u8],
    at: usize,
    start: usize,
    tables: &[u8],
    strings: &[u8],
    blob: &[u8],
    layout: &[u32],
    question: NameQuestion,
    more: Cursor,
    past: Cursor,
    known: Known,
) -> Onward
    requires laid { Laid tables.now layout.now }
    requires knows { Knows (view_in tables.now layout.now strings.now blob.now) blob.now known }
    requires name_room_in_bounds { start + name_room ≤ length out.old }
    requires blob_value { is_over (name_work (name_call question) (view_in tables.now layout.now strings.now blob.now)) ≡ false }
    ensures { let v = view_in tables.now layout.now strings.now blob.now in
        let a = listed (name_call question) v in
        ((o : List ℕ) (key : Text) → Wrote o at key out.old start → Went (name_line key a) (cond (goes_on a) more past) o at
        out.new result.step) × Knows v blob.now result.known }
{
    let Answered { told, known } = answers::tell_name(
        out, start, tables, strings, blob, layout, question, known,
    );
    let (next, at) = match told {
        Ok(end) => (more, lines::end_name(out, start, end)),
        Err(Unnamed::Missing(_)) => (more, lines::end_missing(out, start)),
        Err(Unnamed::NoRow) => (past, lines::push_nothing(out, at)),
    };
    Onward {
        step: Step { next, at },
        known,
    }
}
