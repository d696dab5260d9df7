// TypeDef rows and classes. TypeDef row 1 is no class, so row r is class r - 2: the two numbers are two types, and turn into each
// other here and nowhere else.

#![tactic(auto)]

ghost use Rattle.std.specs.Prelude.{◌≡◌, ◌<◌, ◌≤◌};
ghost use Rattle.classes.specs.Numbering.{row_of, place_of, class_at, owner_of};

// A row of TypeDef, counted from 1; 0 is no row.
#[derive(Clone, Copy, Debug, PartialEq, Eq)]
pub struct TypeDefRow(pub u32);

// A class of the record, counted from 0.
#[derive(Clone, Copy, Debug, PartialEq, Eq)]
pub struct ClassNumber(pub u32);

// The row of a class; of a number too large for a row, no row.
pub fn row_of(class: ClassNumber) -> TypeDefRow
    ensures { result ≡ row_of class }
{
    TypeDefRow(class.0.checked_add(2).unwrap_or(0))
}

// Where the row of a class stands in TypeDef, from 0.
pub fn place_of(class: ClassNumber) -> usize
    ensures { result ≡ place_of class }
{
    class.0 as usize + 1
}

// The class whose row stands at a place of TypeDef, from 0. The first is no class's.
pub fn class_at(place: usize) -> ClassNumber
    requires { (0 < place) × (place ≤ 4294967296) }
    ensures { result ≡ class_at place }
{
    ClassNumber((place - 1) as u32)
}

// The Owner column of a class's generic parameters.
pub fn owner_of(class: ClassNumber) -> usize
    ensures { result ≡ owner_of class }
{
    2 * (class.0 as usize + 2)
}
