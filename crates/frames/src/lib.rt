// Generic types inside of one another, at one level of a signature (ECMA-335 II.23.2.12). What follows behind a type that ends is kept
// in a lent array as a stack of frames, one number each, so that a nesting takes two bytes and no call.

#![tactic(auto)]

ghost use Rattle.std.specs.Prelude.{◌≡◌, ◌+◌, ◌<◌, ◌≤◌, length};
ghost use Rattle.frames.specs.Stack.{stack, Ends, Ascends, Descends, Paired};

// A frame of a generic type whose first type is being read. From 1 to MOST_ARGUMENTS a frame is of a generic type of which so many
// arguments, the one that is being read included, have not ended. Above, it is of so many pairs of brackets as it is above.
const FIRST_TYPE: u16 = 0;

const MOST_ARGUMENTS: u16 = 1000;

const ONE_PAIR: u16 = 1001;

const MOST_PAIRS: u16 = 65535;

// What a frame comes to at the end of a type: it has ended too, with the next place and position; or the same with what the frame is
// now, where an argument follows.
#[derive(Clone, Copy, Debug, PartialEq, Eq)]
pub enum Ended {
    Closed(usize, usize),
    Next(usize, usize, u16),
}

// What all frames come to: an argument follows, with the place, the position and the frames in use; or all have ended.
#[derive(Clone, Copy, Debug, PartialEq, Eq)]
pub enum Ascent {
    More(usize, usize, usize),
    Over(usize, usize),
}

// The position of a type, the frames in use, whether one of the four tags begins it, for which no frame is free, and the type bytes
// passed.
#[derive(Clone, Copy, Debug, PartialEq, Eq)]
pub struct Descent {
    pub at: usize,
    pub used: usize,
    pub full: bool,
    pub passed: usize,
}

// A frame at the end of a type, or the position at which the reading fails.
fn end_frame(buf: &mut [u8], at: usize, sig: &[u8], pos: usize, v: u16) -> Result<Ended, usize>
    ensures { Ends sig.now pos v buf.old at buf.new result }
{
    if v == FIRST_TYPE {
        let (count, first) = sig_leaves::read_argument_count(sig, pos)?;
        if count == 0 {
            return Ok(Ended::Closed(buffers::push(buf, at, b"<>"), first));
        }
        return Ok(Ended::Next(buffers::push(buf, at, b"<"), first, count as u16));
    }
    if v == 1 {
        return Ok(Ended::Closed(buffers::push(buf, at, b">"), pos));
    }
    if v <= MOST_ARGUMENTS {
        return Ok(Ended::Next(buffers::push(buf, at, b","), pos, v - 1));
    }
    Ok(Ended::Closed(
        shapes::push_brackets(buf, at, usize::from(v - MOST_ARGUMENTS)),
        pos,
    ))
}

// All frames at the end of a type, or the position at which the reading fails.
pub fn ascend(
    buf: &mut [u8],
    at: usize,
    sig: &[u8],
    pos: usize,
    frames: &mut [u16],
    used: usize,
) -> Result<Ascent, usize>
    requires { (at ≤ length buf.old + 1) × (used ≤ length frames.old) }
    ensures { Ascends sig.now pos (stack frames.old used) used buf.old at buf.new
        frames.new result }
{
    let mut k = at;
    let mut p = pos;
    let mut n = used;
    while 0 < n {
        let top = n - 1;
        // The failure has an arm of its own, which must-fail/failure_in_a_frame answers as a success.
        match end_frame(buf, k, sig, p, frames[top]) {
            Ok(Ended::Closed(end, next)) => {
                k = end;
                p = next;
                n = top;
            }
            Ok(Ended::Next(end, next, v)) => {
                frames[top] = v;
                return Ok(Ascent::More(end, next, n));
            }
            Err(next) => return Err(next),
        }
    }
    Ok(Ascent::Over(k, p))
}

// One pair of brackets more: in the innermost frame, if that is of brackets and has room for one more.
fn add_pair(frames: &mut [u16], used: usize) -> usize
    requires { used < length frames.old }
    ensures { Paired (stack frames.old used) used frames.new result }
{
    if 0 < used {
        let v = frames[used - 1];
        if MOST_ARGUMENTS < v {
            if v < MOST_PAIRS {
                frames[used - 1] = v + 1;
                return used;
            }
        }
    }
    frames[used] = ONE_PAIR;
    used + 1
}

// Pass the tags that keep the level before a type, as far as there are frames for them. Or the position at which the reading fails, and
// the type bytes passed.
pub fn descend(
    sig: &[u8],
    pos: usize,
    frames: &mut [u16],
    used: usize,
) -> Result<Descent, (usize, usize)>
    requires { used ≤ length frames.old }
    ensures { Descends sig.now pos (stack frames.old used) used frames.new result }
{
    let mut p = pos;
    let mut n = used;
    let mut m = 0;
    while p < sig.len() {
        match sig[p] {
            0x15 => {
                if n == frames.len() {
                    return Ok(Descent {
                        at: p,
                        used: n,
                        full: true,
                        passed: m,
                    });
                }
                frames[n] = FIRST_TYPE;
                n += 1;
                m += 1;
                p += 1;
            }
            0x1D => {
                if n == frames.len() {
                    return Ok(Descent {
                        at: p,
                        used: n,
                        full: true,
                        passed: m,
                    });
                }
                n = add_pair(frames, n);
                m += 1;
                p += 1;
            }
            // With map_err and the question mark the proof did not close.
            0x1F | 0x20 => match numbers::read_uint(sig, p + 1) {
                Ok((_, next)) => {
                    m += 1;
                    p = next;
                }
                Err(next) => return Err((next, m + 1)),
            },
            _ => break,
        }
    }
    Ok(Descent {
        at: p,
        used: n,
        full: false,
        passed: m,
    })
}
