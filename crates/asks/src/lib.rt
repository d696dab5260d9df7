// The calls that ask any question, within an allowance of steps: each opens the stream.

#![tactic(auto)]

ghost use Rattle.record.specs.View.{view};
ghost use Rattle.record.specs.Allowance.{number_charged, name_charged, NumberedCharged, NamedCharged};
ghost use Rattle.questions.specs.Questions.{number_call, name_call};
ghost use Rattle.asks.specs.Asked.{Asked};

use buffers::Reply;
use header::Options;
use questions::{NameQuestion, NumberQuestion};
use rows::columns;
use steps::Charged;

// What is left of an allowance of steps, in a record that the caller lends.
#[derive(Drop)]
pub struct Allowance {
    pub left: u64,
}

// Any question.
#[derive(Clone, Copy)]
pub enum Question {
    Number(NumberQuestion),
    Name(NameQuestion),
}

// Any call for a number.
pub fn ask_number(
    tables: &[u8],
    strings: &[u8],
    blob: &[u8],
    options: Options,
    steps: u64,
    question: NumberQuestion,
) -> Charged
    ensures { let v = view options tables.now strings.now blob.now in
        NumberedCharged (number_charged (number_call question) v steps) result.reply result.left }
{
    let mut layout = [0u32; columns::SIZE];
    if let Err(why) = opening::open(tables, options, &mut layout) {
        return Charged {
            reply: Err(why),
            left: steps,
        };
    }
    charges::charge_number(tables, strings, blob, &layout, question, steps)
}

// Any call for a name.
pub fn ask_name(
    tables: &[u8],
    strings: &[u8],
    blob: &[u8],
    options: Options,
    steps: u64,
    question: NameQuestion,
    buf: &mut [u8],
) -> Charged
    ensures { let v = view options tables.now strings.now blob.now in
        NamedCharged (name_charged (name_call question) v steps) buf.old result.reply buf.new result.left }
{
    let mut layout = [0u32; columns::SIZE];
    if let Err(why) = opening::open(tables, options, &mut layout) {
        return Charged {
            reply: buffers::refuse(buf, why),
            left: steps,
        };
    }
    charges::charge_name(buf, tables, strings, blob, &layout, question, steps)
}

// Any call, by what its allowance has left. A call for a number clears the buffer.
fn ask_charged(
    tables: &[u8],
    strings: &[u8],
    blob: &[u8],
    options: Options,
    steps: u64,
    question: Question,
    buf: &mut [u8],
) -> Charged
    ensures { let v = view options tables.now strings.now blob.now in
        Asked v question steps buf.old buf.new result.reply result.left }
{
    match question {
        Question::Number(asked) => {
            buffers::clear_from(buf, 0);
            ask_number(tables, strings, blob, options, steps, asked)
        }
        Question::Name(asked) => ask_name(tables, strings, blob, options, steps, asked, buf),
    }
}

// Any call, within an allowance that the caller lends: it reads what is left, has the question asked, and stores what is left then.
pub fn ask_within(
    tables: &[u8],
    strings: &[u8],
    blob: &[u8],
    options: Options,
    allowance: &mut Allowance,
    question: Question,
    buf: &mut [u8],
) -> Reply
    ensures { let v = view options tables.now strings.now blob.now in
        Asked v question allowance.old.left buf.old buf.new result allowance.new.left }
{
    let charged = ask_charged(
        tables,
        strings,
        blob,
        options,
        allowance.left,
        question,
        buf,
    );
    allowance.left = charged.left;
    charged.reply
}
