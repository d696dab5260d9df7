// What C asks, as the library takes it: the options as a set of bits, and any call as the number of its question
// (include/dotnet_tables.h).

#![tactic(auto)]

ghost use Rattle.std.specs.Prelude.{◌≡◌, ◌<◌};
ghost use Rattle.header.specs.Stream.{opened};
ghost use Rattle.c_questions.specs.Asked.{has_bit, options_of, number_asked, name_asked, no_question, number_meant, name_meant};

use buffers::Refusal;
use classes::ClassNumber;
use header::Options;
use questions::{NameQuestion, NumberQuestion};

// The bits of the options that have a meaning, DN_ and the option's name.
const TAKER: u32 = 2;

// Whether a set of bits has the bit of that value.
#[tactic(auto, unfolding(crate::specs::Asked::has_bit))]
fn has_bit(bits: u32, bit: u32) -> bool
    requires { 0 < bit }
    ensures { result ≡ has_bit bits bit }
{
    bits / bit % 2 == 1
}

// The options that a set of bits means: those of the base, and what its bits add. Bits without a meaning are ignored.
pub fn options_of(bits: u32) -> Options
    ensures { result ≡ options_of bits }
{
    Options {
        taker: has_bit(bits, TAKER),
        ..header::base_options()
    }
}

#[tactic(auto, unfolding(record::specs::Types::look, crate::specs::Asked::number_questions))]
pub fn number_asked(question: u32, a: u32, b: u32) -> Option<NumberQuestion>
    ensures { number_meant result ≡ number_asked question a b }
{
    let class = ClassNumber(a);
    match question {
        1 => Some(NumberQuestion::ClassCount),
        2 => Some(NumberQuestion::ClassFlags(class)),
        3 => Some(NumberQuestion::GenericCount(class)),
        4 => Some(NumberQuestion::BaseCount(class)),
        5 => Some(NumberQuestion::MethodCount(class)),
        6 => Some(NumberQuestion::MethodFlags(class, b)),
        7 => Some(NumberQuestion::MethodGenericCount(class, b)),
        8 => Some(NumberQuestion::ParamCount(class, b)),
        9 => Some(NumberQuestion::ClassPacking(class)),
        10 => Some(NumberQuestion::ClassSize(class)),
        _ => None,
    }
}

#[tactic(auto, unfolding(record::specs::Types::look, crate::specs::Asked::name_questions))]
pub fn name_asked(question: u32, a: u32, b: u32, c: u32) -> Option<NameQuestion>
    ensures { name_meant result ≡ name_asked question a b c }
{
    let class = ClassNumber(a);
    match question {
        101 => Some(NameQuestion::ClassName(class)),
        102 => Some(NameQuestion::GenericName(class, b)),
        103 => Some(NameQuestion::BaseName(class, b)),
        104 => Some(NameQuestion::MethodName(class, b)),
        105 => Some(NameQuestion::MethodGenericName(class, b, c)),
        106 => Some(NameQuestion::ReturnType(class, b)),
        107 => Some(NameQuestion::ParamType(class, b, c)),
        108 => Some(NameQuestion::ParamName(class, b, c)),
        _ => None,
    }
}

// What is said to a question that there is not: why the stream is refused, or else that there is no such row.
pub fn refused_question(tables: &[u8], options: Options) -> Refusal
    ensures { result ≡ no_question (opened options tables.now).answer }
{
    header::read_header(tables, options)
        .err()
        .unwrap_or(Refusal::NoSuchRow)
}
