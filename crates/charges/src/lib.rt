// The answer to any question of a stream that is opened, within an allowance of steps (request 2026-06): what it counts is passed over
// first, so that nothing is rendered of what is too much; and what is left is told.

#![tactic(auto)]

ghost use Rattle.std.specs.Prelude.{◌≡◌, true, List, ℕ, ◌≤◌};
ghost use Rattle.record.specs.Allowance.{count_of, base_work, method_work, number_work, name_work, number_charged, name_charged, is_over};
ghost use Rattle.record.specs.Allowance.{NumberedCharged, NamedCharged};
ghost use Rattle.rows.specs.Layout.{Laid, view_in};
ghost use Rattle.places.specs.Places.{Owns};
ghost use Rattle.questions.specs.Questions.{number_call, name_call};
ghost use Rattle.charges.specs.Within.{AllFit};
ghost use Rattle.steps.specs.Counting.{Takes};

use buffers::Refusal;
use classes::ClassNumber;
use places::Own;
use questions::{NameQuestion, NumberQuestion};
use rows::columns;
use steps::Charged;

// What a listing allows for each name.
const CEILING: u64 = 1_000_000;

// What is left after 11.
const NOTHING: u64 = 0;

// What the readings of the signature of method m of a class take.
fn tally_method(
    tables: &[u8],
    strings: &[u8],
    blob: &[u8],
    layout: &[u32],
    class: ClassNumber,
    m: u32,
    steps: u64,
) -> Option<u64>
    requires { Laid tables.now layout.now }
    ensures { let v = view_in tables.now layout.now strings.now blob.now in
        Takes (count_of (method_work v class.0 m)) steps result }
{
    let placed = places::place_method(tables, layout, class, m, places::no_own());
    method_answers::pass_readings_of(tables, strings, blob, layout, class, placed.row, steps)
}

// What a question for a number takes.
fn tally_number(
    tables: &[u8],
    strings: &[u8],
    blob: &[u8],
    layout: &[u32],
    question: NumberQuestion,
    steps: u64,
) -> Option<u64>
    requires { Laid tables.now layout.now }
    ensures { let v = view_in tables.now layout.now strings.now blob.now in
        Takes (count_of (number_work (number_call question) v)) steps result }
{
    match question {
        NumberQuestion::BaseCount(c) => {
            class_answers::pass_bases_of(tables, strings, blob, layout, c, steps)
        }
        NumberQuestion::ParamCount(c, m) => {
            tally_method(tables, strings, blob, layout, c, m, steps)
        }
        _ => Some(steps),
    }
}

// What a question for a name takes.
fn tally_name(
    tables: &[u8],
    strings: &[u8],
    blob: &[u8],
    layout: &[u32],
    question: NameQuestion,
    steps: u64,
) -> Option<u64>
    requires { Laid tables.now layout.now }
    ensures { let v = view_in tables.now layout.now strings.now blob.now in
        Takes (count_of (name_work (name_call question) v)) steps result }
{
    match question {
        NameQuestion::BaseName(c, _) => {
            class_answers::pass_bases_of(tables, strings, blob, layout, c, steps)
        }
        NameQuestion::ReturnType(c, m)
        | NameQuestion::ParamType(c, m, _)
        | NameQuestion::ParamName(c, m, _) => {
            tally_method(tables, strings, blob, layout, c, m, steps)
        }
        _ => Some(steps),
    }
}

// The answer to a question for a number.
pub fn charge_number(
    tables: &[u8],
    strings: &[u8],
    blob: &[u8],
    layout: &[u32],
    question: NumberQuestion,
    steps: u64,
) -> Charged
    requires { Laid tables.now layout.now }
    ensures { let v = view_in tables.now layout.now strings.now blob.now in
        NumberedCharged (number_charged (number_call question) v steps) result.reply result.left }
{
    let Some(after) = tally_number(tables, strings, blob, layout, question, steps) else {
        return Charged {
            reply: Err(Refusal::TooManySteps),
            left: NOTHING,
        };
    };
    let reply = answers::answer_number(tables, strings, blob, layout, question);
    Charged {
        reply,
        left: steps::left_after(reply, steps, after),
    }
}

// The answer to a question for a name.
// One function for both would take two closures, for the answer and for the refusal, which cannot both lend the buffer.
pub fn charge_name(
    buf: &mut [u8],
    tables: &[u8],
    strings: &[u8],
    blob: &[u8],
    layout: &[u32],
    question: NameQuestion,
    steps: u64,
) -> Charged
    requires { Laid tables.now layout.now }
    ensures { let v = view_in tables.now layout.now strings.now blob.now in
        NamedCharged (name_charged (name_call question) v steps) buf.old result.reply buf.new result.left }
{
    let Some(after) = tally_name(tables, strings, blob, layout, question, steps) else {
        return Charged {
            reply: buffers::refuse(buf, Refusal::TooManySteps),
            left: NOTHING,
        };
    };
    let reply = answers::answer_name(buf, tables, strings, blob, layout, question);
    Charged {
        reply,
        left: steps::left_after(reply, steps, after),
    }
}

// Whether every name of a stream is surely within the ceiling. Where one class at most reads a method, its signature has no more types than
// the blob heap has bytes; and a class has no more base types than InterfaceImpl has rows, and the extended one. So it is where each of as
// many types may take its own step and all those of a TypeSpec row.
pub fn all_within(tables: &[u8], blob: &[u8], layout: &[u32]) -> bool
    requires { Laid tables.now layout.now }
    ensures { let v = view_in tables.now layout.now in
        ((strings : List ℕ) → result ≡ true → AllFit (v strings blob.now)) }
{
    if !method_signatures::is_read_once(layout) {
        return false;
    }
    let rows = rows::count_rows(layout, columns::IMPL_CLASS);
    let types = blob.len().max(rows + 1) as u64;
    if CEILING < types {
        return false;
    }
    passing::specs_suffice(tables, blob, layout, CEILING / types - 1)
}

// Whether all base types of a class count more than a listing allows.
pub fn bases_over(
    tables: &[u8],
    strings: &[u8],
    blob: &[u8],
    layout: &[u32],
    class: ClassNumber,
) -> bool
    requires { Laid tables.now layout.now }
    ensures { let v = view_in tables.now layout.now strings.now blob.now in
        result ≡ is_over (base_work v class.0) }
{
    class_answers::pass_bases_of(tables, strings, blob, layout, class, CEILING).is_none()
}

// The same of a method's signature, by what is known of its class's methods. Where its bytes show that it fits, its types are not passed
// over.
pub fn method_over(
    tables: &[u8],
    strings: &[u8],
    blob: &[u8],
    layout: &[u32],
    class: ClassNumber,
    m: u32,
    own: Own,
) -> bool
    requires laid { Laid tables.now layout.now }
    requires owns { Owns (view_in tables.now layout.now strings.now blob.now) own }
    ensures { let v = view_in tables.now layout.now strings.now blob.now in
        result ≡ is_over (method_work v class.0 m) }
{
    let placed = places::place_method(tables, layout, class, m, own);
    let row = placed.row;
    !method_answers::surely_fits_of(tables, blob, layout, row, CEILING)
        && method_answers::pass_readings_of(
            tables, strings, blob, layout, class, row, CEILING,
        ).is_none()
}
