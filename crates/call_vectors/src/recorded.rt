// One recorded answer, `CALL NUMBERS = ANSWER` or `CALL NUMBERS /ALLOWANCE LEFT = ANSWER`: the call is asked, and all that it hands back
// compared. The answer is a number, a name in hex, or `!` and the number of a refusal, with a point and the reason behind it where that is
// not 0. A name is asked for with buffers of every length up to two more than its own, a name that is refused with those of up to four
// bytes; of a name of more than 64 bytes the lengths up to 8 and those from four less than its own are tried. Each length is tried with a
// buffer that holds 0x00 before, one that holds 0xAA and one that holds 0xFF. The calls that count steps have an allowance, and are asked by
// name and by their questions; another call that has one is asked by its question alone. What is left is compared each time.
use buffers::{Refusal, Reply, reason_number, refusal_number};
use case_text::{cut_at, low_bits, read_decimal, read_hex};
use classes::ClassNumber;
use header::Options;
use questions::{NameQuestion, NumberQuestion};
use replaying::{Block, Refused, is_answer};
use steps::Charged;

// The key of the line that holds a block's options.
const OPTIONS: &[u8] = b"options";

// The longest buffer that a call is asked with; up to which length of a name all are tried, and of a longer one how many from 0 on, and how
// many below its own.
const ROOM: usize = 16_384;

const SHORT: usize = 64;

const FIRST: usize = 8;

const LAST: usize = 4;

// So many bytes more than the name has, or than none has that is refused.
const MORE: usize = 2;

const REFUSED: usize = 4;

// How a call is asked.
#[derive(Clone, Copy)]
enum Way {
    Plain,
    Within,
    Question,
}

// A call of a block: its name, and the numbers of its line: a class; its method, generic parameter or base type; a generic parameter or a
// parameter of that method; the allowance, and what is to be left of it. Those that a call does not take count for nothing.
#[derive(Clone, Copy)]
struct Asked<'a> {
    block: Block<'a>,
    options: Options,
    call: &'a [u8],
    class: ClassNumber,
    member: u32,
    part: u32,
    steps: u64,
    left: u64,
}

// Whether the answer of a line agrees, if it holds one.
pub fn agrees(block: Block<'_>, options: Options, line: &[u8]) -> Option<bool> {
    let (call, numbers) = cut_at(line, b' ');
    if call == OPTIONS {
        return None;
    }
    let (before, allowed) = cut_at(line, b'/');
    let (_, answer) = cut_at(line, b'=');
    let answer = answer.get(1..).unwrap_or_default();
    let asked = asked_in(block, options, call, numbers, allowed);
    if before.len() == line.len() {
        return Some(agrees_so(Way::Plain, asked, answer));
    }
    let by_question = agrees_so(Way::Question, asked, answer);
    Some(by_question && (!is_counting(call) || agrees_so(Way::Within, asked, answer)))
}

// The call with the numbers before the slash, and behind it.
fn asked_in<'a>(
    block: Block<'a>,
    options: Options,
    call: &'a [u8],
    numbers: &[u8],
    allowed: &[u8],
) -> Asked<'a> {
    let (class, rest) = cut_at(numbers, b' ');
    let (member, rest) = cut_at(rest, b' ');
    let (part, _) = cut_at(rest, b' ');
    let (steps, rest) = cut_at(allowed, b' ');
    let (left, _) = cut_at(rest, b' ');
    Asked {
        block,
        options,
        call,
        class: ClassNumber(read_u32(class)),
        member: read_u32(member),
        part: read_u32(part),
        steps: read_decimal(steps) as u64,
        left: read_decimal(left) as u64,
    }
}

fn read_u32(digits: &[u8]) -> u32 {
    low_bits(read_decimal(digits))
}

// The options of a block, from what stands behind its streams.
pub fn options_in(cases: &[u8]) -> Options {
    let (line, _) = cut_at(cases, b'\n');
    let (key, bits) = cut_at(line, b' ');
    if key == OPTIONS {
        return c_questions::options_of(read_u32(bits));
    }
    header::base_options()
}

// Whether the call, asked in that way, answers so.
fn agrees_so(way: Way, asked: Asked<'_>, answer: &[u8]) -> bool {
    if is_of_name(asked.call) {
        return name_agrees(way, asked, answer);
    }
    let came = ask_number(way, asked);
    let reply = came.reply;
    came.left == asked.left && number_agrees(reply, answer)
}

fn is_of_name(call: &[u8]) -> bool {
    call.ends_with(b"_name") || call.ends_with(b"_type")
}

// Whether a call counts steps.
fn is_counting(call: &[u8]) -> bool {
    matches!(
        call,
        b"base_count"
            | b"base_name"
            | b"return_type"
            | b"param_count"
            | b"param_type"
            | b"param_name"
    )
}

// 8 answers a call that there is not, and nothing is left.
fn no_call() -> Charged {
    leaves_none(Err(Refusal::BadInput))
}

// A call that takes no allowance leaves none.
fn leaves_none(reply: Reply) -> Charged {
    Charged { reply, left: 0 }
}

fn ask_number(way: Way, asked: Asked<'_>) -> Charged {
    match way {
        Way::Plain => leaves_none(ask_plain_number(asked)),
        Way::Within => ask_number_within(asked),
        Way::Question => ask_number_question(asked),
    }
}

fn ask_plain_number(asked: Asked<'_>) -> Reply {
    let Block {
        tables,
        strings,
        blob,
        ..
    } = asked.block;
    let options = asked.options;
    let class = asked.class;
    let m = asked.member;
    match asked.call {
        b"class_count" => dotnet::class_count(tables, strings, blob, options),
        b"class_flags" => dotnet::class_flags(tables, strings, blob, options, class),
        b"class_packing" => dotnet::class_packing(tables, strings, blob, options, class),
        b"class_size" => dotnet::class_size(tables, strings, blob, options, class),
        b"generic_count" => dotnet::generic_count(tables, strings, blob, options, class),
        b"method_count" => dotnet::method_count(tables, strings, blob, options, class),
        b"method_flags" => dotnet::method_flags(tables, strings, blob, options, class, m),
        b"method_generic_count" => {
            dotnet::method_generic_count(tables, strings, blob, options, class, m)
        }
        _ => Err(Refusal::BadInput),
    }
}

fn ask_number_within(asked: Asked<'_>) -> Charged {
    let Block {
        tables,
        strings,
        blob,
        ..
    } = asked.block;
    let options = asked.options;
    let steps = asked.steps;
    let class = asked.class;
    let m = asked.member;
    match asked.call {
        b"base_count" => dotnet::base_count(tables, strings, blob, options, steps, class),
        b"param_count" => dotnet::param_count(tables, strings, blob, options, steps, class, m),
        _ => no_call(),
    }
}

fn number_question(asked: Asked<'_>) -> Option<NumberQuestion> {
    let class = asked.class;
    let m = asked.member;
    match asked.call {
        b"class_count" => Some(NumberQuestion::ClassCount),
        b"class_flags" => Some(NumberQuestion::ClassFlags(class)),
        b"class_packing" => Some(NumberQuestion::ClassPacking(class)),
        b"class_size" => Some(NumberQuestion::ClassSize(class)),
        b"generic_count" => Some(NumberQuestion::GenericCount(class)),
        b"base_count" => Some(NumberQuestion::BaseCount(class)),
        b"method_count" => Some(NumberQuestion::MethodCount(class)),
        b"method_flags" => Some(NumberQuestion::MethodFlags(class, m)),
        b"method_generic_count" => Some(NumberQuestion::MethodGenericCount(class, m)),
        b"param_count" => Some(NumberQuestion::ParamCount(class, m)),
        _ => None,
    }
}

fn ask_number_question(asked: Asked<'_>) -> Charged {
    let Block {
        tables,
        strings,
        blob,
        ..
    } = asked.block;
    let Some(question) = number_question(asked) else {
        return no_call();
    };
    dotnet::ask_number(tables, strings, blob, asked.options, asked.steps, question)
}

fn ask_name(way: Way, asked: Asked<'_>, buf: &mut [u8]) -> Charged {
    match way {
        Way::Plain => leaves_none(ask_plain_name(asked, buf)),
        Way::Within => ask_name_within(asked, buf),
        Way::Question => ask_name_question(asked, buf),
    }
}

fn ask_plain_name(asked: Asked<'_>, buf: &mut [u8]) -> Reply {
    let Block {
        tables,
        strings,
        blob,
        ..
    } = asked.block;
    let options = asked.options;
    let class = asked.class;
    let m = asked.member;
    let i = asked.part;
    match asked.call {
        b"class_name" => dotnet::class_name(tables, strings, blob, options, class, buf),
        b"generic_name" => dotnet::generic_name(tables, strings, blob, options, class, m, buf),
        b"method_name" => dotnet::method_name(tables, strings, blob, options, class, m, buf),
        b"method_generic_name" => {
            dotnet::method_generic_name(tables, strings, blob, options, class, m, i, buf)
        }
        _ => Err(Refusal::BadInput),
    }
}

fn ask_name_within(asked: Asked<'_>, buf: &mut [u8]) -> Charged {
    let Block {
        tables,
        strings,
        blob,
        ..
    } = asked.block;
    let options = asked.options;
    let steps = asked.steps;
    let class = asked.class;
    let m = asked.member;
    let i = asked.part;
    match asked.call {
        b"base_name" => dotnet::base_name(tables, strings, blob, options, steps, class, m, buf),
        b"return_type" => dotnet::return_type(tables, strings, blob, options, steps, class, m, buf),
        b"param_type" => dotnet::param_type(
            tables, strings, blob, options, steps, class, m, i, buf,
        ),
        b"param_name" => dotnet::param_name(
            tables, strings, blob, options, steps, class, m, i, buf,
        ),
        _ => no_call(),
    }
}

fn name_question(asked: Asked<'_>) -> Option<NameQuestion> {
    let class = asked.class;
    let m = asked.member;
    let i = asked.part;
    match asked.call {
        b"class_name" => Some(NameQuestion::ClassName(class)),
        b"generic_name" => Some(NameQuestion::GenericName(class, m)),
        b"base_name" => Some(NameQuestion::BaseName(class, m)),
        b"method_name" => Some(NameQuestion::MethodName(class, m)),
        b"return_type" => Some(NameQuestion::ReturnType(class, m)),
        b"method_generic_name" => Some(NameQuestion::MethodGenericName(class, m, i)),
        b"param_type" => Some(NameQuestion::ParamType(class, m, i)),
        b"param_name" => Some(NameQuestion::ParamName(class, m, i)),
        _ => None,
    }
}

fn ask_name_question(asked: Asked<'_>, buf: &mut [u8]) -> Charged {
    let Block {
        tables,
        strings,
        blob,
        ..
    } = asked.block;
    let Some(question) = name_question(asked) else {
        return no_call();
    };
    dotnet::ask_name(
        tables,
        strings,
        blob,
        asked.options,
        asked.steps,
        question,
        buf,
    )
}

// The refusal that an answer holds, `!5` or `!5.2`.
fn refused_in(answer: &[u8]) -> Option<Refused> {
    if !answer.starts_with(b"!") {
        return None;
    }
    let (number, reason) = cut_at(answer, b'.');
    let refused = Refused {
        number: read_decimal(number),
        reason: read_decimal(reason),
    };
    (refused.number != 0).then_some(refused)
}

// A reply, with what says no as numbers.
fn in_numbers(came: Reply) -> Result<usize, Refused> {
    match came {
        Ok(n) => Ok(n),
        Err(why) => Err(Refused {
            number: refusal_number(why) as usize,
            reason: reason_number(why) as usize,
        }),
    }
}

fn number_agrees(came: Reply, answer: &[u8]) -> bool {
    let expected = match refused_in(answer) {
        Some(refused) => Err(refused),
        None => Ok(read_decimal(answer)),
    };
    in_numbers(came) == expected
}

fn name_agrees(way: Way, asked: Asked<'_>, answer: &[u8]) -> bool {
    if let Some(refused) = refused_in(answer) {
        return rooms_agree(way, asked, Err(refused), 0, REFUSED);
    }
    let mut space = [0u8; ROOM];
    let n = read_hex(answer, &mut space);
    let name = numbers::cut(&space, 0, n);
    rooms_agree(way, asked, Ok(name), name.len(), name.len() + MORE)
}

// Whether a name of so many bytes, or the refusal of one, is answered right in buffers of up to so many bytes.
fn rooms_agree(
    way: Way,
    asked: Asked<'_>,
    expected: Result<&[u8], Refused>,
    length: usize,
    last: usize,
) -> bool {
    last <= ROOM
        && (0..=last)
            .filter(|room| is_tried(*room, length))
            .all(|room| room_agrees(way, asked, expected, room))
}

fn is_tried(room: usize, length: usize) -> bool {
    length <= SHORT || room <= FIRST || length - LAST <= room
}

// Whether a buffer of so many bytes is answered right, whatever it holds before.
fn room_agrees(way: Way, asked: Asked<'_>, expected: Result<&[u8], Refused>, room: usize) -> bool {
    [0x00, 0xAA, 0xFF].iter().all(|fill| fill_agrees(
        way,
        asked,
        expected,
        &mut [*fill; ROOM],
        room,
    ))
}

fn fill_agrees(
    way: Way,
    asked: Asked<'_>,
    expected: Result<&[u8], Refused>,
    space: &mut [u8],
    room: usize,
) -> bool {
    let Some(buffer) = space.get_mut(..room) else {
        return false;
    };
    let came = ask_name(way, asked, buffer);
    let reply = came.reply;
    came.left == asked.left && is_answer(in_numbers(reply), expected, buffer)
}
