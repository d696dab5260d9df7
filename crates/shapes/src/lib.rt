// Arrays in a signature: the shape (ECMA-335 II.23.2.13), which follows the element type of an array with dimensions and bounds; and
// runs of tags that keep the level before a type, each 0x1D of which is a pair of brackets behind the type's text.

#![tactic(auto)]

ghost use Rattle.std.specs.Prelude.{◌≡◌, ◌++◌, ◌+◌, ◌-◌, ◌<◌, length, pos, negsuc, ◌+ℤ◌};
ghost use Rattle.std.proofs.Math.Option.{none, some};
ghost use Rattle.numbers.specs.Compressed.{uint, sint, uint_says, sint_says};
ghost use Rattle.buffers.specs.Texts.{q};
ghost use Rattle.buffers.specs.Writes.{Wrote};
ghost use Rattle.record.specs.Dims.{signed, sep, dim, dims};
ghost use Rattle.record.specs.Types.{shape};
ghost use Rattle.rendering.specs.Rendered.{Rendered};
ghost use Rattle.shapes.specs.Series.{with_sign, items, moved, Pops, Passes, Finds};
ghost use Rattle.shapes.specs.Runs.{brackets, Tags, Skips};

use numbers::{Signed, Sint, Uint, wide};
use rendering::Rendering;

// Numbers that stand one after another: how many, and the position of the first.
#[derive(Clone, Copy, Debug, PartialEq, Eq)]
pub struct Items {
    pub count: usize,
    pub first: usize,
}

// A tag that keeps the level, by what follows it: the type; or a number that is passed over, with the position after it, and the type.
// Or no such tag.
#[derive(Clone, Copy, Debug, PartialEq, Eq)]
pub enum Tag {
    Vector,
    Modifier(usize),
    Other,
}

// Append a number other than 0 with its sign.
fn push_signed(buf: &mut [u8], at: usize, minus: bool, size: usize) -> usize
    requires { 0 < size }
    ensures { Wrote buf.old at (signed (with_sign minus size)) buf.new result }
{
    if !minus {
        return buffers::push_decimal(buf, at, size);
    }
    let k = buffers::push(buf, at, b"-");
    buffers::push_decimal(buf, k, size)
}

// Append the upper bound, which is the lower bound and the size less 1. The lower bound is not 0.
fn push_upper(buf: &mut [u8], at: usize, minus: bool, low: u32, size: u32) -> usize
    requires { 0 < low }
    ensures { Wrote buf.old at (signed (with_sign minus low +ℤ pos size +ℤ negsuc 0)) buf.new result }
{
    let m = wide(low);
    let n = wide(size);
    if !minus {
        return buffers::push_decimal(buf, at, m - 1 + n);
    }
    if m < n {
        return buffers::push_decimal(buf, at, n - m - 1);
    }
    push_signed(buf, at, true, m + 1 - n)
}

// Append a size that is there or not.
fn push_size(buf: &mut [u8], at: usize, size: Uint) -> usize
    ensures { Wrote buf.old at (dim (uint_says size).got none) buf.new result }
{
    match size {
        Ok((n, _)) => buffers::push_decimal(buf, at, wide(n)),
        Err(_) => buffers::push(buf, at, b""),
    }
}

// Append a dimension that has a lower bound.
fn push_bounded(buf: &mut [u8], at: usize, size: Uint, minus: bool, low: u32) -> usize
    ensures { Wrote buf.old at (dim (uint_says size).got (some (with_sign minus low))) buf.new result }
{
    if low == 0 {
        return push_size(buf, at, size);
    }
    let k = push_signed(buf, at, minus, wide(low));
    let next = buffers::push(buf, k, b"...");
    match size {
        Ok((n, _)) => push_upper(buf, next, minus, low, n),
        Err(_) => next,
    }
}

// Append one dimension.
fn push_dim(buf: &mut [u8], at: usize, size: Uint, low: Sint) -> usize
    ensures { Wrote buf.old at (dim (uint_says size).got (sint_says low).got) buf.new result }
{
    match low {
        Ok((Signed::Plus(n), _)) => push_bounded(buf, at, size, false, n),
        Ok((Signed::Minus(n), _)) => push_bounded(buf, at, size, true, n),
        Err(_) => push_size(buf, at, size),
    }
}

// Append the comma before dimension i.
fn push_comma(buf: &mut [u8], at: usize, i: usize) -> usize
    ensures { Wrote buf.old at (sep i (q ",")) buf.new result }
{
    if i == 0 {
        return buffers::push(buf, at, b"");
    }
    buffers::push(buf, at, b",")
}

// Size i of so many.
fn size_at(sig: &[u8], at: usize, i: usize, count: usize) -> Uint
    ensures { Pops uint sig.now at (count - i) (count - (i + 1)) (uint_says result) }
{
    if count <= i {
        return Err(at);
    }
    numbers::read_uint(sig, at)
}

// Lower bound i of so many.
fn bound_at(sig: &[u8], at: usize, i: usize, count: usize) -> Sint
    ensures { Pops sint sig.now at (count - i) (count - (i + 1)) (sint_says result) }
{
    if count <= i {
        return Err(at);
    }
    numbers::read_sint(sig, at)
}

// The position after a size that stands at a position; one that is not there leaves it.
fn after_size(at: usize, size: Uint) -> usize
    ensures { result ≡ moved at (uint_says size) }
{
    match size {
        Ok((_, next)) => next,
        Err(_) => at,
    }
}

// The same of a lower bound.
fn after_bound(at: usize, low: Sint) -> usize
    ensures { result ≡ moved at (sint_says low) }
{
    match low {
        Ok((_, next)) => next,
        Err(_) => at,
    }
}

// Append the dimensions and the bracket behind them. The rank may be far larger than the buffer, past whose end nothing is added.
fn push_dims(
    buf: &mut [u8],
    at: usize,
    sig: &[u8],
    rank: usize,
    sizes: Items,
    bounds: Items,
) -> usize
    ensures { Wrote buf.old at (dims rank 0 (items uint sig.now sizes) (items sint sig.now bounds) ++ q "]")
        buf.new result }
{
    let mut size_pos = sizes.first;
    let mut bound_pos = bounds.first;
    let mut k = at;
    for i in 0..rank {
        if buf.len() < k {
            return buf.len() + 1;
        }
        let size = size_at(sig, size_pos, i, sizes.count);
        let low = bound_at(sig, bound_pos, i, bounds.count);
        let next = push_comma(buf, k, i);
        k = push_dim(buf, next, size, low);
        size_pos = after_size(size_pos, size);
        bound_pos = after_bound(bound_pos, low);
    }
    buffers::push(buf, k, b"]")
}

// Pass n numbers. Signed ones have the form of unsigned ones.
fn pass_items(sig: &[u8], at: usize, n: usize) -> Result<usize, usize>
    ensures { Passes n sig.now at result }
{
    let mut p = at;
    for _ in 0..n {
        let (_, next) = numbers::read_uint(sig, p)?;
        p = next;
    }
    Ok(p)
}

// Numbers with their count before them.
fn find_items(sig: &[u8], pos: usize) -> Result<(Items, usize), usize>
    ensures { Finds sig.now pos result }
{
    let (n, first) = numbers::read_uint(sig, pos)?;
    let count = wide(n);
    let next = pass_items(sig, first, count)?;
    Ok((Items { count, first }, next))
}

// Append the shape of an array, which follows its element type: the rank, the sizes, the lower bounds.
pub fn push_shape(buf: &mut [u8], at: usize, sig: &[u8], pos: usize) -> Rendering
    ensures { Rendered (shape sig.now pos) buf.old at buf.new result }
{
    let (rank, behind) = numbers::read_uint(sig, pos)?;
    let (sizes, between) = find_items(sig, behind)?;
    let (bounds, next) = find_items(sig, between)?;
    let k = buffers::push(buf, at, b"[");
    Ok((push_dims(buf, k, sig, wide(rank), sizes, bounds), next))
}

// The tag at a position, or the position after the bytes of a number that is broken off.
fn read_tag(sig: &[u8], at: usize) -> Result<Tag, usize>
    requires { at < length sig.now }
    ensures { Tags sig.now at result }
{
    match sig[at] {
        0x1D => Ok(Tag::Vector),
        0x1F | 0x20 => {
            let (_, next) = numbers::read_uint(sig, at + 1)?;
            Ok(Tag::Modifier(next))
        }
        _ => Ok(Tag::Other),
    }
}

// Pass a run of tags that keep the level.
pub fn skip_run(sig: &[u8], pos: usize) -> Result<(usize, usize), usize>
    ensures { Skips sig.now pos result }
{
    let mut p = pos;
    let mut count = 0;
    while p < sig.len() {
        match read_tag(sig, p)? {
            Tag::Vector => {
                count += 1;
                p += 1;
            }
            Tag::Modifier(next) => p = next,
            Tag::Other => return Ok((count, p)),
        }
    }
    Ok((count, p))
}

// Append so many pairs of brackets. There may be far more than the buffer holds, past whose end nothing is added.
pub fn push_brackets(buf: &mut [u8], at: usize, count: usize) -> usize
    ensures { Wrote buf.old at (brackets count) buf.new result }
{
    let mut k = at;
    for _ in 0..count {
        if buf.len() < k {
            return buf.len() + 1;
        }
        k = buffers::push(buf, k, b"[]");
    }
    buffers::push(buf, k, b"")
}
