// One type: `type SIG = TEXT next POSITION`, or `!` and a refusal for the text; before it `owned CLASS METHOD SIG` where there are generic
// parameters, by their Owner column. The type at the start of the signature is rendered with all its levels, and the text, the position
// after the type and the whole buffer compared. A text of up to 64 bytes is asked for with buffers of every length up to two more than
// its own, a longer one with those of 0 bytes and of its own length, one less and one more; a refusal with all of up to 66 bytes. Each
// buffer holds 0xAA before. The signature and the text stand in pieces (see pieces.rt).
ghost use Rattle.rows.specs.Layout.{Laid};

use crate::pieces::expand;
use buffers::{Reason, Refusal, Reply, refusal_number};
use case_text::{cut_at, read_decimal};
use header::base_options;
use replaying::{Block, Refused, is_answer};
use rows::columns;
use signatures::Owners;

// The levels of a type that is in no other.
const LEVELS: usize = 17;

// The longest text that is asked for with buffers of every length, and so many bytes more than it or than a refusal.
const SHORT: usize = 64;

const MORE: usize = 2;

// Bytes for a signature, and for a text, which is the longest buffer that one is asked for with.
const SIGNATURE: usize = 65_536;

const ROOM: usize = 131_072;

// A type: the streams of its block, its signature, and its generic parameters' owners.
#[derive(Clone, Copy)]
struct Asked<'a> {
    block: Block<'a>,
    sig: &'a [u8],
    owners: Owners,
}

// What is expected: the text or a refusal, and the position after the type.
#[derive(Clone, Copy)]
struct Expected<'a> {
    text: Result<&'a [u8], Refused>,
    next: usize,
}

// What rendering handed back: the text's length or a refusal, and the position after the type.
#[derive(Drop)]
struct Came {
    reply: Reply,
    next: usize,
}

pub fn agrees(block: Block<'_>, line: &[u8]) -> bool {
    let (word, rest) = cut_at(line, b' ');
    match word {
        b"owned" => {
            let (class, rest) = cut_at(rest, b' ');
            let (method, rest) = cut_at(rest, b' ');
            let owners = Owners {
                class: Some(read_decimal(class)),
                method: Some(read_decimal(method)),
            };
            type_agrees(block, owners, rest)
        }
        _ => {
            let nobody = Owners {
                class: None,
                method: None,
            };
            type_agrees(block, nobody, rest)
        }
    }
}

fn type_agrees(block: Block<'_>, owners: Owners, text: &[u8]) -> bool {
    let mut space = [0u8; SIGNATURE];
    let (n, rest) = expand(text, b'=', &mut space);
    let asked = Asked {
        block,
        sig: numbers::cut(&space, 0, n),
        owners,
    };
    answer_agrees(asked, rest.get(2..).unwrap_or_default())
}

fn answer_agrees(asked: Asked<'_>, answer: &[u8]) -> bool {
    if let Some(refused) = refused_in(answer) {
        let expected = Expected {
            text: Err(refused),
            next: read_decimal(answer.get(2..).unwrap_or_default()),
        };
        return rooms_agree(asked, expected, 0, SHORT + MORE);
    }
    let mut space = [0u8; ROOM];
    let (n, rest) = expand(answer, b'n', &mut space);
    let text = numbers::cut(&space, 0, n);
    let expected = Expected {
        text: Ok(text),
        next: read_decimal(rest.get(1..).unwrap_or_default()),
    };
    text_agrees(asked, expected, text.len())
}

// The refusal that an answer holds, of one digit.
fn refused_in(answer: &[u8]) -> Option<Refused> {
    let digit = answer.strip_prefix(b"!")?.get(..1)?;
    let number = read_decimal(digit);
    (number != 0).then_some(Refused { number, reason: 0 })
}

// Whether a text of n bytes is answered right in the buffers that are tried.
fn text_agrees(asked: Asked<'_>, expected: Expected<'_>, n: usize) -> bool {
    if n <= SHORT {
        return rooms_agree(asked, expected, 0, n + MORE);
    }
    rooms_agree(asked, expected, 0, 0) && rooms_agree(asked, expected, n - 1, n.saturating_add(1))
}

// Whether a type is answered right in buffers of so many bytes to so many.
fn rooms_agree(asked: Asked<'_>, expected: Expected<'_>, least: usize, most: usize) -> bool {
    most <= ROOM && (least..=most).all(|room| room_agrees(asked, expected, room))
}

fn room_agrees(asked: Asked<'_>, expected: Expected<'_>, room: usize) -> bool {
    let mut space = [0xAAu8; ROOM];
    let Some(buffer) = space.get_mut(..room) else {
        return false;
    };
    let came = render(asked, buffer);
    came.next == expected.next && is_answer(in_numbers(came.reply), expected.text, buffer)
}

// A reply, with what says no as a number. No reason is recorded.
fn in_numbers(came: Reply) -> Result<usize, Refused> {
    match came {
        Ok(n) => Ok(n),
        Err(why) => Err(Refused {
            number: refusal_number(why) as usize,
            reason: 0,
        }),
    }
}

fn render(asked: Asked<'_>, buf: &mut [u8]) -> Came {
    let mut layout = [0u32; columns::SIZE];
    match opening::open(asked.block.tables, base_options(), &mut layout) {
        Err(why) => Came {
            reply: Err(why),
            next: 0,
        },
        Ok(()) => render_by(asked, &layout, buf),
    }
}

fn render_by(asked: Asked<'_>, layout: &[u32], buf: &mut [u8]) -> Came
    requires { Laid asked.block.tables.now layout.now }
{
    let Block {
        tables,
        strings,
        blob,
        ..
    } = asked.block;
    let Owners { class, method } = asked.owners;
    match signatures::parse_sig_type(
        buf, 0, tables, strings, blob, layout, class, method, asked.sig, 0, LEVELS,
    ) {
        Ok((end, next)) => {
            let reply = buffers::finish(buf, end);
            Came { reply, next }
        }
        Err(next) => {
            let reply = buffers::refuse(buf, Refusal::NoName(Reason::Untold));
            Came { reply, next }
        }
    }
}
