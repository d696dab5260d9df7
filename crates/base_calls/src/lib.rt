// The calls for the base types of a class (ECMA-335 II.22.37, II.22.23): how many it has, and their names. Each counts the type bytes of
// all of them.

#![tactic(auto)]

ghost use Rattle.record.specs.View.{view};
ghost use Rattle.record.specs.Answers.{BaseCount, BaseName};
ghost use Rattle.record.specs.Allowance.{number_charged, name_charged, NumberedCharged, NamedCharged};

use classes::ClassNumber;
use header::Options;
use questions::{NameQuestion, NumberQuestion};
use steps::Charged;

// How many base types a class has.
pub fn base_count(
    tables: &[u8],
    strings: &[u8],
    blob: &[u8],
    options: Options,
    steps: u64,
    class: ClassNumber,
) -> Charged
    ensures { let v = view options tables.now strings.now blob.now in
        NumberedCharged (number_charged (BaseCount class.0) v steps) result.reply result.left }
{
    let count = NumberQuestion::BaseCount(class);
    asks::ask_number(tables, strings, blob, options, steps, count)
}

// The name of base type b of a class.
pub fn base_name(
    tables: &[u8],
    strings: &[u8],
    blob: &[u8],
    options: Options,
    steps: u64,
    class: ClassNumber,
    b: u32,
    buf: &mut [u8],
) -> Charged
    ensures { let v = view options tables.now strings.now blob.now in
        NamedCharged (name_charged (BaseName class.0 b) v steps) buf.old result.reply buf.new result.left }
{
    let name = NameQuestion::BaseName(class, b);
    asks::ask_name(tables, strings, blob, options, steps, name, buf)
}
