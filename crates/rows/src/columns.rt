// Where the numbers of a layout stand, under the names and in the order of specs/Columns.antt: the columns that are read, and what is
// behind their numbers.

// TypeRef, II.22.38
pub const REF_NAME: usize = 0;

pub const REF_NAMESPACE: usize = 1;
// TypeDef, II.22.37
pub const TYPE_FLAGS: usize = 2;

pub const TYPE_NAME: usize = 3;

pub const TYPE_NAMESPACE: usize = 4;

pub const EXTENDS: usize = 5;

pub const METHOD_LIST: usize = 6;
// MethodDef, II.22.26
pub const METHOD_FLAGS: usize = 7;

pub const METHOD_NAME: usize = 8;

pub const METHOD_SIGNATURE: usize = 9;

pub const PARAM_LIST: usize = 10;
// Param, II.22.33
pub const PARAM_NAME: usize = 11;
// InterfaceImpl, II.22.23
pub const IMPL_CLASS: usize = 12;

pub const IMPL_INTERFACE: usize = 13;
// TypeSpec, II.22.39
pub const SPEC_SIGNATURE: usize = 14;
// NestedClass, II.22.32
pub const NESTED: usize = 15;

pub const ENCLOSING: usize = 16;
// GenericParam, II.22.20
pub const OWNER: usize = 17;

pub const GENERIC_NAME: usize = 18;
// ClassLayout, II.22.8
pub const PACKING_SIZE: usize = 19;

pub const CLASS_SIZE: usize = 20;

pub const LAYOUT_PARENT: usize = 21;

// How many columns there are.
pub const COUNT: usize = layouts::columns::COUNT;
// The layout has so many numbers for each: where the column stands in the table's first row, in two words, the lower one first,
pub const NUMBERS: usize = 5;

pub const START_HIGH: usize = 1;
// how far it is to the next row, its bytes, and how many rows are kept.
pub const STEP: usize = 2;

pub const WIDTH: usize = 3;

pub const ROWS: usize = 4;
// A word holds less than this.
pub const WORD: usize = 0x1_0000_0000;
// Behind those stand the options that the stream was opened with: the limit of rows, whether DeclSecurity counts, and whether the class
// that takes a method is the only one to read its signature;
pub const LIMIT: usize = NUMBERS * COUNT;

pub const SECURITY: usize = LIMIT + 1;

pub const TAKER: usize = SECURITY + 1;
// and a mark: 1 where METHOD_LIST is known to ascend.
pub const MARK: usize = TAKER + 1;
// Then, for each column by which rows are held, where in the layout the words of its memory begin, and how many there are.
pub const HELD: usize = MARK + 1;

pub const HELD_NUMBERS: usize = 2;

pub const HELD_WORDS: usize = 1;
// These are OWNER, IMPL_CLASS, NESTED and LAYOUT_PARENT.
pub const BY_OWNER: usize = 0;

pub const BY_CLASS: usize = 1;

pub const BY_NESTED: usize = 2;

pub const BY_PARENT: usize = 3;

pub const HELD_COUNT: usize = 4;

pub const SIZE: usize = HELD + HELD_NUMBERS * HELD_COUNT;
