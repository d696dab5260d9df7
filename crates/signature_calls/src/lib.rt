// The calls for what a method's signature says (ECMA-335 II.23.2.1): its return type, and how many parameters it has, with the type and
// the name of each. Each counts the type bytes of all readings of the whole signature that the mode makes.

#![tactic(auto)]

ghost use Rattle.record.specs.View.{view};
ghost use Rattle.record.specs.Answers.{ReturnType, ParameterCount, ParameterType, ParameterName};
ghost use Rattle.record.specs.Allowance.{number_charged, name_charged, NumberedCharged, NamedCharged};

use classes::ClassNumber;
use header::Options;
use questions::{NameQuestion, NumberQuestion};
use steps::Charged;

// The return type of method m of a class.
pub fn return_type(
    tables: &[u8],
    strings: &[u8],
    blob: &[u8],
    options: Options,
    steps: u64,
    class: ClassNumber,
    m: u32,
    buf: &mut [u8],
) -> Charged
    ensures { let v = view options tables.now strings.now blob.now in
        NamedCharged (name_charged (ReturnType class.0 m) v steps) buf.old result.reply buf.new result.left }
{
    let returned = NameQuestion::ReturnType(class, m);
    asks::ask_name(tables, strings, blob, options, steps, returned, buf)
}

// How many parameters method m of a class has.
pub fn param_count(
    tables: &[u8],
    strings: &[u8],
    blob: &[u8],
    options: Options,
    steps: u64,
    class: ClassNumber,
    m: u32,
) -> Charged
    ensures { let v = view options tables.now strings.now blob.now in
        NumberedCharged (number_charged (ParameterCount class.0 m) v steps) result.reply result.left }
{
    let count = NumberQuestion::ParamCount(class, m);
    asks::ask_number(tables, strings, blob, options, steps, count)
}

// The type of parameter p of method m of a class.
pub fn param_type(
    tables: &[u8],
    strings: &[u8],
    blob: &[u8],
    options: Options,
    steps: u64,
    class: ClassNumber,
    m: u32,
    p: u32,
    buf: &mut [u8],
) -> Charged
    ensures { let v = view options tables.now strings.now blob.now in
        NamedCharged (name_charged (ParameterType class.0 m p) v steps) buf.old result.reply buf.new result.left }
{
    let type_of = NameQuestion::ParamType(class, m, p);
    asks::ask_name(tables, strings, blob, options, steps, type_of, buf)
}

// The name of parameter p of method m of a class.
pub fn param_name(
    tables: &[u8],
    strings: &[u8],
    blob: &[u8],
    options: Options,
    steps: u64,
    class: ClassNumber,
    m: u32,
    p: u32,
    buf: &mut [u8],
) -> Charged
    ensures { let v = view options tables.now strings.now blob.now in
        NamedCharged (name_charged (ParameterName class.0 m p) v steps) buf.old result.reply buf.new result.left }
{
    let name = NameQuestion::ParamName(class, m, p);
    asks::ask_name(tables, strings, blob, options, steps, name, buf)
}
