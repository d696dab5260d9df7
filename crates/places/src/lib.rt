// What the calls share: which row is meant by a class's place in the record, and by a method's place in its class, or that there is none;
// and the names of generic parameters by their owner.

#![tactic(auto)]

ghost use Rattle.std.specs.Prelude.{◌≡◌, List, ℕ, ◌-◌, ◌<◌, ◌≤◌, length};
ghost use Rattle.std.proofs.Math.ListN.{get_elem?};
ghost use Rattle.buffers.specs.Replies.{value};
ghost use Rattle.buffers.specs.Telling.{ToldIs};
ghost use Rattle.heaps.specs.Lookups.{name_or_why};
ghost use Rattle.record.specs.View.{View};
ghost use Rattle.record.specs.Record.{class};
ghost use Rattle.record.specs.Answers.{◌⟫◌, or_no_row, the_class};
ghost use Rattle.rows.specs.Columns as columns;
ghost use Rattle.rows.specs.Layout.{Laid, rows_at, view_in};
ghost use Rattle.methods.specs.Ranges.{RangeOf};
ghost use Rattle.places.specs.Places.{ClassRowIs, MethodRowIs, Owns};

use buffers::{Told, Unnamed};
use classes::{ClassNumber, TypeDefRow};
use numbers::wide;
use rows::columns;

// What is known of the methods of the class at a TypeDef row: they are the places of MethodDef from the first up to the end. Row 0 is none.
#[derive(Clone, Copy)]
pub struct Own {
    pub row: usize,
    pub first: usize,
    pub end: usize,
}

// The row of a method, and what is known of its class after it.
#[derive(Drop)]
pub struct Placed {
    pub row: Option<usize>,
    pub own: Own,
}

// How many classes there are: TypeDef row 1 is none.
pub fn count_classes(layout: &[u32]) -> usize
    requires { columns.size ≤ length layout.now }
    ensures { result ≡ rows_at layout.now columns.type_name - 1 }
{
    rows::count_rows(layout, columns::TYPE_NAME).saturating_sub(1)
}

pub fn class_row(layout: &[u32], class: ClassNumber) -> Option<TypeDefRow>
    requires { (rows_at layout.now columns.type_name < 4294967296) × (columns.size ≤ length layout.now) }
    ensures { ClassRowIs layout.now class.0 result }
{
    let row = classes::row_of(class);
    let r = wide(row.0);
    if r < 2 || rows::count_rows(layout, columns::TYPE_NAME) < r {
        return None;
    }
    Some(row)
}

// Nothing is known.
pub fn no_own() -> Own
    ensures { (v : View) → Owns v result }
{
    Own {
        row: 0,
        first: 0,
        end: 0,
    }
}

// The methods of the class at a TypeDef row: what is known, if it is about the class.
fn own_methods(tables: &[u8], layout: &[u32], row: TypeDefRow, known: Own) -> Own
    requires laid { Laid tables.now layout.now }
    requires lt_row { (1 < row.0) × (row.0 ≤ rows_at layout.now columns.method_list) }
    ensures { let v = view_in tables.now layout.now in
        (result.row ≡ row.0) × ((strings blob : List ℕ) → Owns (v strings blob) known → Owns (v strings blob) result) }
{
    let own = wide(row.0);
    if known.row == own {
        return known;
    }
    let range = methods::method_range(tables, layout, row);
    Own {
        row: own,
        first: range.first,
        end: range.end,
    }
}

// Method m of a class, by its methods.
fn own_method(own: Own, m: u32) -> Option<usize>
    ensures { (v : View) (c : ℕ) → the_class v c ≡ value (class v c) → RangeOf v c own.first own.end → MethodRowIs v c m result }
{
    if own.end.saturating_sub(own.first) <= wide(m) {
        return None;
    }
    Some(own.first + wide(m))
}

// The row of method m of a class. Whoever asks for the next method of the class hands on what is known.
pub fn place_method(tables: &[u8], layout: &[u32], class: ClassNumber, m: u32, known: Own) -> Placed
    requires { Laid tables.now layout.now }
    ensures { let v = view_in tables.now layout.now in
        ((strings blob : List ℕ) → Owns (v strings blob) known → MethodRowIs (v strings blob) class.0 m result.row × Owns
        (v strings blob) result.own) }
{
    let Some(row) = class_row(layout, class) else {
        return Placed {
            row: None,
            own: known,
        };
    };
    let own = own_methods(tables, layout, row, known);
    let place = own_method(own, m);
    Placed { row: place, own }
}

// How many generic parameters an owner has, by the Owner column as stored.
pub fn count_generics(tables: &[u8], layout: &[u32], owner: usize) -> usize
    requires { Laid tables.now layout.now }
    ensures { (strings blob : List ℕ) → result ≡ length ((view_in tables.now layout.now strings blob).generics owner) }
{
    keys::count_key(tables, layout, columns::OWNER, owner)
}

// What the answer for the name of generic parameter g of an owner comes to at a place.
pub fn tell_generic(
    buf: &mut [u8],
    at: usize,
    tables: &[u8],
    strings: &[u8],
    layout: &[u32],
    owner: usize,
    g: u32,
) -> Told
    requires { Laid tables.now layout.now }
    ensures { (blob : List ℕ) → ToldIs
        (or_no_row (get_elem? ((view_in tables.now layout.now strings.now blob).generics owner) g) ⟫ name_or_why)
        buf.old at buf.new result }
{
    let Some(i) = keys::find_key(tables, layout, columns::OWNER, owner, wide(g)) else {
        return Err(Unnamed::NoRow);
    };
    rows::tell_string(buf, at, tables, strings, layout, columns::GENERIC_NAME, i)
}
