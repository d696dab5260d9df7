// The walk over the tables of an opened tables stream (ECMA-335 II.24.2.6): where each table begins, its row size and its whole rows.
// The public calls `walk` and `walk_with` stand in crate `walks`.

#![tactic(auto)]

pub mod blocks;

ghost use Rattle.std.specs.Prelude.{◌≡◌, ℕ, ◌-◌, ◌/◌, ◌≤◌, ◌<◌, min};
ghost use Rattle.layouts.specs.Columns.{width_in, row_size};
ghost use Rattle.tables.specs.Extents.{walk_says, Gives, walked, refused_walk};

use buffers::{Refusal, Reply};
use layouts::IndexSizes;

// The kind at which the walk is left, 64 if there is none, or why the stream is refused; and for each kind where it begins in the
// stream, its row size and its whole rows. The three are 0 for a kind that is empty, unknown or not reached.
// The answer and the three arrays stand beside each other, since the definition `walk_says` and the C interface read them of a refused
// stream too, where the arrays are zeros.
#[derive(Drop)]
pub struct Extents {
    pub answer: Reply,
    pub starts: [usize; 64],
    pub sizes: [u32; 64],
    pub rows: [u32; 64],
}

// The known kinds are those below.
const KNOWN: usize = 45;

// The rows of a size that fit in the room, up to n.
fn whole_rows(room: usize, size: u32, n: u32) -> u32
    requires { 0 < size }
    ensures { result ≡ min n (room / size) }
{
    if n as usize * size as usize <= room {
        return n;
    }
    (room / size as usize) as u32
}

// The extents of a stream that is refused.
pub fn refused_extents(why: Refusal) -> Extents
    ensures { walk_says result ≡ refused_walk why }
{
    Extents {
        answer: Err(why),
        starts: [0; 64],
        sizes: [0; 64],
        rows: [0; 64],
    }
}

// The walk over tables whose first begins at a place of a stream of that length, with the row sizes that a function gives.
fn walk_sized<F: Fn(usize) -> u32>(
    len: usize,
    first: usize,
    counts: &[u32; 64],
    size_of: F,
) -> Extents
    requires first_le_len { first ≤ len }
    requires known { (k : ℕ) → k < 45 → F.pre size_of k }
    requires some { (k r : ℕ) → k < 45 → F.post size_of k r → 0 < r }
    ensures { (size : ℕ → ℕ) → Gives (F.post size_of) size → walk_says result ≡ walked size counts.now len first }
{
    let mut starts = [0; 64];
    let mut sizes = [0; 64];
    let mut rows = [0; 64];
    let mut at = first;
    let mut kind = 0;
    // A `loop`, since a `for` has no value: the kind that it is left at is the break's.
    let stop = loop {
        if 64 <= kind {
            break kind;
        }
        let n = counts[kind];
        if 0 < n {
            if KNOWN <= kind {
                break kind;
            }
            let size = size_of(kind);
            let whole = whole_rows(len - at, size, n);
            starts[kind] = at;
            sizes[kind] = size;
            rows[kind] = whole;
            if whole < n {
                break kind;
            }
            at += n as usize * size as usize;
        }
        kind += 1;
    };
    Extents {
        answer: Ok(stop),
        starts,
        sizes,
        rows,
    }
}

// The walk over tables whose first begins at a place of a stream of that length, with indices of these sizes.
pub fn walk_tables(len: usize, first: usize, counts: &[u32; 64], index_sizes: IndexSizes) -> Extents
    requires first_le_len { first ≤ len }
    requires by_index { (k : ℕ) → k < 45 → 0 < row_size (width_in index_sizes) k }
    ensures { walk_says result ≡ walked (row_size (width_in index_sizes)) counts.now len first }
{
    let row_sizes = layouts::rows::row_sizes(index_sizes);
    walk_sized(len, first, counts, |kind| row_sizes[kind])
}
