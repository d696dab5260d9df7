// What a call with a lent buffer is to answer, and what the buffer is to hold then.
ghost use Rattle.std.specs.Prelude.{◌≡◌, ◌↔◌, IsTrue, length};
ghost use Rattle.std.specs.List.{All};
ghost use Rattle.replaying.specs.Expected.{Holds, text_of, text_in, Answers};

// The number and the reason of a refusal, which is 0 where none is told.
#[derive(Clone, Copy, Debug, PartialEq, Eq)]
pub struct Refused {
    pub number: usize,
    pub reason: usize,
}

// The buffer has no room for the text.
const NO_ROOM: Refused = Refused {
    number: 6,
    reason: 0,
};

fn is_zero(bytes: &[u8]) -> bool
    ensures { IsTrue result ↔ All (λ b. b ≡ 0) bytes.now }
{
    bytes.iter().all(|b| *b == 0)
}

// Whether a buffer holds a text and then zeros.
pub fn holds(buffer: &[u8], text: &[u8]) -> bool
    ensures { IsTrue result ↔ Holds buffer.now text.now }
{
    buffer.strip_prefix(text).is_some_and(is_zero)
}

// What is expected in so much room.
fn text_in<'a>(expected: Result<&'a [u8], Refused>, room: usize) -> Result<&'a [u8], Refused>
    ensures { text_of result ≡ text_in (text_of expected.entry) room }
{
    match expected {
        Ok(text) if room < text.len() => Err(NO_ROOM),
        _ => expected,
    }
}

// Whether a call's answer, the length of a text or why there is none, is as expected, and the buffer holds the text alone.
pub fn is_answer(
    came: Result<usize, Refused>,
    expected: Result<&[u8], Refused>,
    buffer: &[u8],
) -> bool
    ensures { IsTrue result ↔ Answers (text_in (text_of expected.entry) (length buffer.now)) came buffer.now }
{
    match text_in(expected, buffer.len()) {
        Ok(text) => came == Ok(text.len()) && holds(buffer, text),
        Err(why) => came == Err(why) && holds(buffer, b""),
    }
}
