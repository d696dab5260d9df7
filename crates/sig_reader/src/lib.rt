// The signature reader: a struct that holds a lent part of the blob heap and a position in it, where the Rust moves its `Bytes` on. It
// goes by value, so what has read on is a reader made anew. The functions named `read_` have plain parameters: whoever calls them has
// no reader of their own. (Functions and not methods: what docs/ names may not change its name.)

#![tactic(auto)]

ghost use Rattle.std.specs.Prelude.{◌≡◌};
ghost use Rattle.numbers.specs.Compressed.{uint, uint_says};
ghost use Rattle.sig_reader.specs.Numbers.{next_number};

use numbers::Uint;

#[derive(Clone, Copy)]
pub struct SigReader<'a> {
    pub sig: &'a [u8],
    pub pos: usize,
}

// A reader at the start of a signature.
pub fn begin<'a>(sig: &'a [u8]) -> SigReader<'a>
    ensures { (result.sig ≡ sig.entry) × (result.pos ≡ 0) }
{
    SigReader { sig, pos: 0 }
}

// The same signature, read from another position on.
pub fn moved<'a>(r: SigReader<'a>, pos: usize) -> SigReader<'a>
    ensures { (result.sig ≡ r.entry.sig) × (result.pos ≡ pos) }
{
    SigReader { sig: r.sig, pos }
}

// The compressed number at the reader's position (II.23.2), and the position after it.
pub fn number<'a>(r: SigReader<'a>) -> Uint
    ensures { uint_says result ≡ uint r.entry.sig.now r.entry.pos }
{
    numbers::read_uint(r.sig, r.pos)
}

// The number after the one at the reader's position.
#[tactic(auto, using(crate::proofs::Numbers::after_none), unfolding(crate::specs::Numbers::next_number))]
pub fn next_number<'a>(r: SigReader<'a>) -> Uint
    ensures { uint_says result ≡ next_number r.entry.sig.now r.entry.pos }
{
    let (_, next) = number(r)?;
    number(moved(r, next))
}

// The compressed number at a position of a signature.
pub fn read_number(sig: &[u8], pos: usize) -> Uint
    ensures { uint_says result ≡ uint sig.now pos }
{
    number(moved(begin(sig), pos))
}

// The number after the one at a position of a signature.
pub fn read_next_number(sig: &[u8], pos: usize) -> Uint
    ensures { uint_says result ≡ next_number sig.now pos }
{
    next_number(moved(begin(sig), pos))
}
