// Any call of the library, asked from C by the number of its question.

#![tactic(auto)]

ghost use Rattle.record.specs.View.{view};
ghost use Rattle.record.specs.Allowance.{NumberedCharged, NamedCharged};
ghost use Rattle.c_questions.specs.Asked.{options_of, number_asked, name_asked, asked_number, asked_name};

use steps::Charged;

// Any call for a number, by the number of its question.
pub fn ask_number(
    tables: &[u8],
    strings: &[u8],
    blob: &[u8],
    options: u32,
    steps: u64,
    question: u32,
    a: u32,
    b: u32,
    c: u32,
) -> Charged
    ensures { let v = view (options_of options) tables.now strings.now blob.now in
        NumberedCharged (asked_number (number_asked question a b) v steps) result.reply result.left }
{
    let meant = c_questions::options_of(options);
    let Some(asked) = c_questions::number_asked(question, a, b) else {
        return Charged {
            reply: Err(c_questions::refused_question(tables, meant)),
            left: steps,
        };
    };
    dotnet::ask_number(tables, strings, blob, meant, steps, asked)
}

// Any call for a name, by the number of its question.
pub fn ask_name(
    tables: &[u8],
    strings: &[u8],
    blob: &[u8],
    options: u32,
    steps: u64,
    question: u32,
    a: u32,
    b: u32,
    c: u32,
    buf: &mut [u8],
) -> Charged
    ensures { let v = view (options_of options) tables.now strings.now blob.now in
        NamedCharged (asked_name (name_asked question a b c) v steps) buf.old result.reply buf.new result.left }
{
    let meant = c_questions::options_of(options);
    let Some(asked) = c_questions::name_asked(question, a, b, c) else {
        let why = c_questions::refused_question(tables, meant);
        return Charged {
            reply: buffers::refuse(buf, why),
            left: steps,
        };
    };
    dotnet::ask_name(tables, strings, blob, meant, steps, asked, buf)
}
