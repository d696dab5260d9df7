// The walk by row sizes that stand in a block of a table, 8 for each kind: the second engine.
ghost use Rattle.std.specs.Prelude.{◌≡◌, ℕ, ◌≤◌, ◌<◌};
ghost use Rattle.tables.specs.Extents.{walk_says, in_block, walked};

use super::{Extents, walk_sized};

// The walk over tables whose first begins at a place of a stream of that length, with the row sizes of a block by one of its
// settings.
pub fn walk_block(
    len: usize,
    first: usize,
    counts: &[u32; 64],
    block: &[u8; 360],
    setting: usize,
) -> Extents
    requires first_le_len { (first ≤ len) × (setting < 8) }
    requires by_index { (k : ℕ) → k < 45 → 0 < in_block block.now setting k }
    ensures { walk_says result ≡ walked (in_block block.now setting) counts.now len first }
{
    walk_sized(
        len,
        first,
        counts,
        |kind| u32::from(block[8 * kind + setting]),
    )
}
