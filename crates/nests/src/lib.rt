// The classes around a class, found through a lent memory of links: for each class the last NestedClass row (ECMA-335 II.22.32) that puts
// another around it, and for each such row the last row before it that does the same for its enclosing class. One pass over NestedClass
// fills it, forwards, whatever the order of the rows; so a class's name goes from link to link, outwards. What the memory held before means
// nothing.

#![tactic(auto)]

ghost use Rattle.std.specs.Prelude.{◌≡◌, ℕ, ◌+◌, ◌<◌, ◌≤◌, length, get_or};
ghost use Rattle.rows.specs.Columns as columns;
ghost use Rattle.rows.specs.Layout.{Laid, rows_at, cell};
ghost use Rattle.rows.specs.Held.{Nested};
ghost use Rattle.nests.specs.Nests.{Nesting};

use numbers::wide;
use rows::columns;

// The link of a class, by its TypeDef row as a key; 0 where there is no room for it.
fn link_of(memory: &[u32], room: usize, key: usize) -> u32
    requires { room ≤ length memory.now }
    ensures { key < room → result ≡ get_or memory.now key 0 }
{
    if key < room {
        return memory[key];
    }
    0
}

// Link row i of NestedClass, behind those before it.
fn nest_row(memory: &mut [u32], room: usize, i: usize, nested: usize, enclosing: usize)
    requires { (room + i < length memory.old) × (i < 0xFFFF_FFFF) }
    ensures { (f g : ℕ → ℕ) (n : ℕ) → i < n → room + n ≡ length memory.old → nested ≡ f i → enclosing ≡ g i
        → Nesting f g n i memory.old → Nesting f g n (i + 1) memory.new }
{
    let link = link_of(memory, room, enclosing);
    memory[room + i] = link;
    if nested < 2 || enclosing < 2 || room <= nested {
        return;
    }
    memory[nested] = (i + 1) as u32;
}

// Link the rows of NestedClass. The last words are the rows' own; those before them are the classes', by their TypeDef rows.
pub fn nest_rows(memory: &mut [u32], tables: &[u8], layout: &[u32])
    requires { Laid tables.now layout.now }
    ensures { Nested (cell tables.now layout.now columns.nested)
        (cell tables.now layout.now columns.enclosing) (rows_at layout.now columns.nested)
        memory.new }
{
    let n = rows::count_rows(layout, columns::NESTED);
    if memory.len() < n {
        return;
    }
    let room = memory.len() - n;
    numbers::clear_words(&mut memory[..room]);
    for i in 0..n {
        let nested = wide(rows::read_column(tables, layout, columns::NESTED, i));
        let enclosing = wide(rows::read_column(tables, layout, columns::ENCLOSING, i));
        nest_row(memory, room, i, nested, enclosing);
    }
}
