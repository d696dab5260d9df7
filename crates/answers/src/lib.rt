// The answer to any question of a stream that is opened, by its layout. Every call is answered here, and every line of a listing. What a
// question has learnt, it hands on to the next: where a class's methods are, how far a signature has been read, which base types have
// been seen. It is true whatever is asked next; who uses it looks first whether it is about what is meant.

#![tactic(auto)]

ghost use Rattle.std.specs.Prelude.{List, ℕ};
ghost use Rattle.buffers.specs.Replies.{Named};
ghost use Rattle.buffers.specs.Telling.{ToldIs};
ghost use Rattle.record.specs.View.{View};
ghost use Rattle.record.specs.Answers.{Numbered, number_answer, name_answer};
ghost use Rattle.rows.specs.Layout.{Laid, view_in};
ghost use Rattle.questions.specs.Questions.{number_call, name_call};
ghost use Rattle.answers.specs.Known.{Knows};

use bases::Bases;
use buffers::{Reply, Told};
use class_answers::ToldBase;
use method_signatures::{Signature, Typed};
use places::{Own, Placed};
use questions::{NameQuestion, NumberQuestion};

// What is known.
#[derive(Clone, Copy)]
pub struct Known {
    pub own: Own,
    pub signature: Signature,
    pub bases: Bases,
}

// What the answer for a name came to, and what is known after it.
#[derive(Clone, Copy)]
pub struct Answered {
    pub told: Told,
    pub known: Known,
}

// The answer for a number, and what is known after it.
#[derive(Clone, Copy)]
pub struct Counted {
    pub reply: Reply,
    pub known: Known,
}

// Nothing is known.
pub fn nothing_known() -> Known
    ensures { (v : View) (heap : List ℕ) → Knows v heap result }
{
    Known {
        own: places::no_own(),
        signature: method_signatures::no_signature(),
        bases: bases::no_bases(),
    }
}

// The answer to a question for a number, by what is known.
pub fn reply_number(
    tables: &[u8],
    strings: &[u8],
    blob: &[u8],
    layout: &[u32],
    question: NumberQuestion,
    known: Known,
) -> Counted
    requires laid { Laid tables.now layout.now }
    requires knows { Knows (view_in tables.now layout.now strings.now blob.now) blob.now known }
    ensures { let v = view_in tables.now layout.now strings.now blob.now in
        Numbered (number_answer (number_call question) v) result.reply × Knows v blob.now result.known }
{
    match question {
        NumberQuestion::ClassCount => Counted {
            reply: Ok(places::count_classes(layout)),
            known,
        },
        NumberQuestion::ClassFlags(c) => Counted {
            reply: class_answers::class_flags_of(tables, layout, c),
            known,
        },
        NumberQuestion::GenericCount(c) => Counted {
            reply: class_answers::count_generics_of(tables, layout, c),
            known,
        },
        NumberQuestion::BaseCount(c) => Counted {
            reply: class_answers::count_bases_of(tables, strings, blob, layout, c),
            known,
        },
        NumberQuestion::MethodCount(c) => Counted {
            reply: method_answers::count_methods_of(tables, layout, c),
            known,
        },
        NumberQuestion::MethodFlags(c, m) => {
            let Placed { row, own } = places::place_method(tables, layout, c, m, known.own);
            Counted {
                reply: method_answers::method_flags_of(tables, layout, row),
                known: Known { own, ..known },
            }
        }
        NumberQuestion::MethodGenericCount(c, m) => {
            let Placed { row, own } = places::place_method(tables, layout, c, m, known.own);
            Counted {
                reply: method_answers::count_method_generics_of(tables, layout, row),
                known: Known { own, ..known },
            }
        }
        NumberQuestion::ParamCount(c, m) => {
            let Placed { row, own } = places::place_method(tables, layout, c, m, known.own);
            Counted {
                reply: method_answers::count_params_of(tables, strings, blob, layout, c, row),
                known: Known { own, ..known },
            }
        }
        NumberQuestion::ClassPacking(c) => Counted {
            reply: class_answers::class_packing_of(tables, layout, c),
            known,
        },
        NumberQuestion::ClassSize(c) => Counted {
            reply: class_answers::class_size_of(tables, layout, c),
            known,
        },
    }
}

// What the answer to a question for a name comes to at a place, by what is known.
pub fn tell_name(
    buf: &mut [u8],
    at: usize,
    tables: &[u8],
    strings: &[u8],
    blob: &[u8],
    layout: &[u32],
    question: NameQuestion,
    known: Known,
) -> Answered
    requires laid { Laid tables.now layout.now }
    requires knows { Knows (view_in tables.now layout.now strings.now blob.now) blob.now known }
    ensures { let v = view_in tables.now layout.now strings.now blob.now in
        ToldIs (name_answer (name_call question) v) buf.old at buf.new result.told ×
        Knows v blob.now result.known }
{
    match question {
        NameQuestion::ClassName(c) => Answered {
            told: class_answers::tell_class_name(buf, at, tables, strings, layout, c),
            known,
        },
        NameQuestion::GenericName(c, g) => Answered {
            told: class_answers::tell_generic_name(buf, at, tables, strings, layout, c, g),
            known,
        },
        NameQuestion::BaseName(c, b) => {
            let ToldBase { told, bases } = class_answers::tell_base_name(
                buf,
                at,
                tables,
                strings,
                blob,
                layout,
                c,
                b,
                known.bases,
            );
            Answered {
                told,
                known: Known { bases, ..known },
            }
        }
        NameQuestion::MethodName(c, m) => {
            let Placed { row, own } = places::place_method(tables, layout, c, m, known.own);
            Answered {
                told: method_answers::tell_method_name(buf, at, tables, strings, layout, row),
                known: Known { own, ..known },
            }
        }
        NameQuestion::MethodGenericName(c, m, g) => {
            let Placed { row, own } = places::place_method(tables, layout, c, m, known.own);
            let told = method_answers::tell_method_generic_name(
                buf, at, tables, strings, layout, row, g,
            );
            Answered {
                told,
                known: Known { own, ..known },
            }
        }
        NameQuestion::ReturnType(c, m) => {
            let Placed { row, own } = places::place_method(tables, layout, c, m, known.own);
            let Typed { told, signature } = method_answers::tell_return_type_of(
                buf, at, tables, strings, blob, layout, c, row,
            );
            Answered {
                told,
                known: Known {
                    own,
                    signature,
                    ..known
                },
            }
        }
        NameQuestion::ParamType(c, m, p) => {
            let Placed { row, own } = places::place_method(tables, layout, c, m, known.own);
            let Typed { told, signature } = method_answers::tell_param_type_of(
                buf,
                at,
                tables,
                strings,
                blob,
                layout,
                c,
                row,
                p,
                known.signature,
            );
            Answered {
                told,
                known: Known {
                    own,
                    signature,
                    ..known
                },
            }
        }
        NameQuestion::ParamName(c, m, p) => {
            let Placed { row, own } = places::place_method(tables, layout, c, m, known.own);
            let Typed { told, signature } = method_answers::tell_param_name_of(
                buf,
                at,
                tables,
                strings,
                blob,
                layout,
                c,
                row,
                p,
                known.signature,
            );
            Answered {
                told,
                known: Known {
                    own,
                    signature,
                    ..known
                },
            }
        }
    }
}

// The answer to a question for a number that nothing was asked before.
pub fn answer_number(
    tables: &[u8],
    strings: &[u8],
    blob: &[u8],
    layout: &[u32],
    question: NumberQuestion,
) -> Reply
    requires { Laid tables.now layout.now }
    ensures { let v = view_in tables.now layout.now strings.now blob.now in
        Numbered (number_answer (number_call question) v) result }
{
    let counted = reply_number(tables, strings, blob, layout, question, nothing_known());
    counted.reply
}

// The answer to a question for a name that nothing was asked before.
pub fn answer_name(
    buf: &mut [u8],
    tables: &[u8],
    strings: &[u8],
    blob: &[u8],
    layout: &[u32],
    question: NameQuestion,
) -> Reply
    requires { Laid tables.now layout.now }
    ensures { let v = view_in tables.now layout.now strings.now blob.now in
        Named (name_answer (name_call question) v) buf.old result buf.new }
{
    let answered = tell_name(
        buf,
        0,
        tables,
        strings,
        blob,
        layout,
        question,
        nothing_known(),
    );
    buffers::end_call(buf, answered.told)
}
