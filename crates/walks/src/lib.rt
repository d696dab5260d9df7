// The public calls for the walk over the tables of a stream (ECMA-335 II.24.2.6): open it, and say where each table begins, its row size
// and its whole rows. There are two engines with one reply: one finds the row sizes as sums of columns, the other in a table.

#![tactic(auto)]

ghost use Rattle.std.specs.Prelude.{◌≡◌};
ghost use Rattle.header.specs.Stream.{base};
ghost use Rattle.tables.specs.Extents.{walk_says, walk_of};

use header::Options;
use tables::Extents;

// The largest limit that the table of row sizes serves.
const TABLE_LIMIT: u32 = 15_000;

// The walk over a stream that is opened with these options.
pub fn walk_with(tables: &[u8], options: Options) -> Extents
    ensures { walk_says result ≡ walk_of options tables.now }
{
    match header::read_header(tables, options) {
        Ok(h) => {
            let sizes = layouts::index_sizes(h.heap, &h.counts, options.security);
            tables::walk_tables(tables.len(), h.first, &h.counts, sizes)
        }
        Err(why) => tables::refused_extents(why),
    }
}

// The same by the table of row sizes, which serves limits of up to 15,000 rows. Under a larger one an index may have 4 bytes for which the
// table has no setting.
pub fn walk_by_table(tables: &[u8], options: Options) -> Extents
    ensures { walk_says result ≡ walk_of options tables.now }
{
    if TABLE_LIMIT < options.limit {
        return walk_with(tables, options);
    }
    match header::read_header(tables, options) {
        Ok(h) => {
            let block = row_table::row_block(layouts::coded_setting(&h.counts, options.security));
            let setting = usize::from(h.heap % 8);
            tables::blocks::walk_block(tables.len(), h.first, &h.counts, block, setting)
        }
        Err(why) => tables::refused_extents(why),
    }
}

// The walk of the base.
pub fn walk(tables: &[u8]) -> Extents
    ensures { walk_says result ≡ walk_of base tables.now }
{
    let base = header::base_options();
    walk_with(tables, base)
}
