// The header of the tables stream and its row counts (ECMA-335 II.24.2.6), or why the stream is refused.

#![tactic(auto)]

ghost use Rattle.std.specs.Prelude.{◌≡◌, ◌+◌, ◌*◌, ◌≤◌, min, length};
ghost use Rattle.numbers.specs.Bits.{bit_at, ones_below};
ghost use Rattle.header.specs.Stream.{base, valid, counts_end, header_says, opened, CountsRead};

use buffers::Refusal;

// How a stream is opened: the most rows that a table may have, whether DeclSecurity counts for HasCustomAttribute, as in the standard,
// and whether the class that takes a method is the only one to read its signature.
#[derive(Clone, Copy)]
pub struct Options {
    pub limit: u32,
    pub security: bool,
    pub taker: bool,
}

// That a stream opens, or why not.
pub type Opened = Result<(), Refusal>;

// What opening finds: the heap sizes, where the first table begins, and the rows of each of the 64 kinds.
#[derive(Clone, Copy)]
pub struct Header {
    pub heap: u8,
    pub first: usize,
    pub counts: [u32; 64],
}

pub fn base_options() -> Options
    ensures { result ≡ base }
{
    Options {
        limit: 15_000,
        security: false,
        taker: false,
    }
}

// How many bits of the mask are set.
fn count_ones(mask: u64) -> usize
    ensures { (result ≡ ones_below mask 64) × (result ≤ 64) }
{
    mask.count_ones() as usize
}

// A count for each set bit of the mask, lowest bit first; refusal 3 if one is over the limit.
fn read_counts(s: &[u8], mask: u64, limit: u32) -> Result<[u32; 64], Refusal>
    requires { (mask ≡ valid s.now) × (counts_end s.now ≤ length s.now) }
    ensures { CountsRead limit s.now result }
{
    let mut counts = [0; 64];
    let mut at = 24;
    for kind in 0..64 {
        if (mask >> kind) % 2 == 1 {
            let n = numbers::read_four(s, at);
            if limit < n {
                return Err(Refusal::TooManyRows);
            }
            counts[kind] = n;
            at += 4;
        }
    }
    Ok(counts)
}

// Where the first table begins, after counts that end there.
#[tactic(auto, unfolding(numbers::specs::Bits::bit_at))]
fn tables_start(len: usize, end: usize, heap: u8) -> usize
    requires { end ≤ len }
    ensures { result ≡ min len (end + 4 * bit_at heap 6) }
{
    if heap / 0x40 % 2 == 0 {
        return end;
    }
    if len - end < 4 {
        return len;
    }
    end + 4
}

#[tactic(auto, unfolding(crate::specs::Stream::opened))]
pub fn read_header(s: &[u8], options: Options) -> Result<Header, Refusal>
    ensures { header_says result ≡ opened options s.now }
{
    if s.len() < 24 {
        return Err(Refusal::ShortHeader);
    }
    let mask = numbers::read_le(s, 8, 8);
    let end = 24 + 4 * count_ones(mask);
    if s.len() < end {
        return Err(Refusal::ShortCounts);
    }
    let counts = read_counts(s, mask, options.limit)?;
    let heap = s[6];
    let first = tables_start(s.len(), end, heap);
    Ok(Header {
        heap,
        first,
        counts,
    })
}
