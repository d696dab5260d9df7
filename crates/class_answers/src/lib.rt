// The answers of the calls for a class, of a stream that is opened: by its layout. The public calls open it, and so does a listing, once.

#![tactic(auto)]

ghost use Rattle.std.specs.Prelude.{List, ℕ};
ghost use Rattle.std.proofs.Math.Option.{Option};
ghost use Rattle.buffers.specs.Texts.{Text};
ghost use Rattle.buffers.specs.Writes.{Said, place_says};
ghost use Rattle.buffers.specs.Telling.{ToldIs};
ghost use Rattle.bases.specs.Candidates.{KnowsBases};
ghost use Rattle.record.specs.Answers.{Numbered, or_no_row, class_flags, class_packing, class_size, class_name, generic_count, generic_name, base_count, base_name};
ghost use Rattle.record.specs.Allowance.{count_of, base_work};
ghost use Rattle.rows.specs.Layout.{Laid, view_in};
ghost use Rattle.steps.specs.Counting.{Takes};
ghost use Rattle.class_answers.specs.Layouts.{LayoutRowIs};

use bases::Bases;
use buffers::{Refusal, Reply, Told, Unnamed};
use classes::ClassNumber;
use rows::columns;

// What the answer for a base type came to, and what is known of base types after it.
#[derive(Clone, Copy, Debug, PartialEq, Eq)]
pub struct ToldBase {
    pub told: Told,
    pub bases: Bases,
}

// The flags of a class (II.23.1.15).
pub fn class_flags_of(tables: &[u8], layout: &[u32], class: ClassNumber) -> Reply
    requires { Laid tables.now layout.now }
    ensures { (strings blob : List ℕ) → Numbered (class_flags (view_in tables.now layout.now strings blob) class.0) result }
{
    let row = places::class_row(layout, class).ok_or(Refusal::NoSuchRow)?;
    let place = row.0 - 1;
    let flags = rows::read_column(tables, layout, columns::TYPE_FLAGS, place as usize);
    Ok(flags as usize)
}

// The first ClassLayout row of a class (II.22.8), from 0: none where there is no such class, or no row whose Parent column, as stored, is its
// TypeDef row.
fn layout_row(tables: &[u8], layout: &[u32], class: ClassNumber) -> Option<usize>
    requires { Laid tables.now layout.now }
    ensures { LayoutRowIs tables.now layout.now class.0 result }
{
    let row = places::class_row(layout, class)?;
    keys::find_key(tables, layout, columns::LAYOUT_PARENT, row.0 as usize, 0)
}

// The packing of a class, as its first ClassLayout row has it.
pub fn class_packing_of(tables: &[u8], layout: &[u32], class: ClassNumber) -> Reply
    requires { Laid tables.now layout.now }
    ensures { (strings blob : List ℕ) → Numbered (class_packing (view_in tables.now layout.now strings blob) class.0) result }
{
    let i = layout_row(tables, layout, class).ok_or(Refusal::NoSuchRow)?;
    let packing = rows::read_column(tables, layout, columns::PACKING_SIZE, i);
    Ok(packing as usize)
}

// The size of a class, in the same way. One function of the column would need a word for what a row says there, and is no plainer.
pub fn class_size_of(tables: &[u8], layout: &[u32], class: ClassNumber) -> Reply
    requires { Laid tables.now layout.now }
    ensures { (strings blob : List ℕ) → Numbered (class_size (view_in tables.now layout.now strings blob) class.0) result }
{
    let i = layout_row(tables, layout, class).ok_or(Refusal::NoSuchRow)?;
    let size = rows::read_column(tables, layout, columns::CLASS_SIZE, i);
    Ok(size as usize)
}

// What the answer for the full name of a class comes to at a place. Where it is missing, its own name is.
pub fn tell_class_name(
    buf: &mut [u8],
    at: usize,
    tables: &[u8],
    strings: &[u8],
    layout: &[u32],
    class: ClassNumber,
) -> Told
    requires { Laid tables.now layout.now }
    ensures { (blob : List ℕ) → ToldIs (class_name (view_in tables.now layout.now strings.now blob) class.0)
        buf.old at buf.new result }
{
    let row = places::class_row(layout, class).ok_or(Unnamed::NoRow)?;
    if let Some(end) = names::push_class_name(buf, at, tables, strings, layout, row) {
        return Ok(end);
    }
    let i = row.0 - 1;
    Err(Unnamed::Missing(rows::missing_reason(
        tables,
        strings,
        layout,
        columns::TYPE_NAME,
        i as usize,
    )))
}

// How many generic parameters a class has (II.22.20).
pub fn count_generics_of(tables: &[u8], layout: &[u32], class: ClassNumber) -> Reply
    requires { Laid tables.now layout.now }
    ensures { (strings blob : List ℕ) → Numbered (generic_count (view_in tables.now layout.now strings blob) class.0) result }
{
    let row = places::class_row(layout, class).ok_or(Refusal::NoSuchRow)?;
    Ok(places::count_generics(tables, layout, 2 * (row.0 as usize)))
}

// What the answer for the name of generic parameter g of a class comes to at a place.
pub fn tell_generic_name(
    buf: &mut [u8],
    at: usize,
    tables: &[u8],
    strings: &[u8],
    layout: &[u32],
    class: ClassNumber,
    g: u32,
) -> Told
    requires { Laid tables.now layout.now }
    ensures { (blob : List ℕ) → ToldIs
        (generic_name (view_in tables.now layout.now strings.now blob) class.0 g) buf.old at
        buf.new result }
{
    let row = places::class_row(layout, class).ok_or(Unnamed::NoRow)?;
    let owner = 2 * (row.0 as usize);
    places::tell_generic(buf, at, tables, strings, layout, owner, g)
}

// How many base types a class has (II.22.37, II.22.23).
pub fn count_bases_of(
    tables: &[u8],
    strings: &[u8],
    blob: &[u8],
    layout: &[u32],
    class: ClassNumber,
) -> Reply
    requires { Laid tables.now layout.now }
    ensures { let v = view_in tables.now layout.now strings.now blob.now in
        Numbered (base_count v class.0) result }
{
    let row = places::class_row(layout, class).ok_or(Refusal::NoSuchRow)?;
    Ok(bases::count_bases(tables, strings, blob, layout, row))
}

// What the search for a base type came to, as the answer for its name.
fn told_base(place: Option<usize>) -> Told
    ensures { (o : Option Text) (b b' : List ℕ) (at : ℕ) → Said b at b' o (place_says place) → ToldIs (or_no_row o) b at b' result }
{
    place.ok_or(Unnamed::NoRow)
}

// What the answer for the name of base type b of a class comes to at a place, by what is known of base types.
pub fn tell_base_name(
    buf: &mut [u8],
    at: usize,
    tables: &[u8],
    strings: &[u8],
    blob: &[u8],
    layout: &[u32],
    class: ClassNumber,
    b: u32,
    known: Bases,
) -> ToldBase
    requires laid { Laid tables.now layout.now }
    requires knows_bases { KnowsBases (view_in tables.now layout.now strings.now blob.now) known }
    ensures { let v = view_in tables.now layout.now strings.now blob.now in
        ToldIs (base_name v class.0 b) buf.old at buf.new result.told × KnowsBases v result.bases }
{
    let Some(row) = places::class_row(layout, class) else {
        return ToldBase {
            told: Err(Unnamed::NoRow),
            bases: known,
        };
    };
    let nth = b as usize;
    let based = bases::push_base(buf, at, tables, strings, blob, layout, row, nth, known);
    ToldBase {
        told: told_base(based.place),
        bases: based.bases,
    }
}

// What all base types of a class take of the steps: nothing where there is no such class.
pub fn pass_bases_of(
    tables: &[u8],
    strings: &[u8],
    blob: &[u8],
    layout: &[u32],
    class: ClassNumber,
    steps: u64,
) -> Option<u64>
    requires { Laid tables.now layout.now }
    ensures { let v = view_in tables.now layout.now strings.now blob.now in
        Takes (count_of (base_work v class.0)) steps result }
{
    let Some(row) = places::class_row(layout, class) else {
        return Some(steps);
    };
    bases::pass_bases(tables, strings, blob, layout, row, steps)
}
