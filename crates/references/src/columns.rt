// Where the numbers of the references' layout stand, under the names and in the order of specs/Columns.antt: the columns that are read,
// and what is behind their numbers.

// Module, II.22.30
pub const MODULE_NAME: usize = 0;
// TypeRef, II.22.38
pub const REF_NAME: usize = 1;
// MemberRef, II.22.25
pub const MEMBER_CLASS: usize = 2;
// Constant, II.22.9
pub const CONSTANT_TYPE: usize = 3;

pub const CONSTANT_VALUE: usize = 4;
// CustomAttribute, II.22.10
pub const ATTRIBUTE_PARENT: usize = 5;

pub const ATTRIBUTE_TYPE: usize = 6;

pub const ATTRIBUTE_VALUE: usize = 7;
// ModuleRef, II.22.31
pub const MODULE_REF_NAME: usize = 8;
// Assembly, II.22.2: the first of the four columns of its version, its name and its culture
pub const ASSEMBLY_VERSION: usize = 9;

pub const ASSEMBLY_NAME: usize = 13;

pub const ASSEMBLY_CULTURE: usize = 14;
// AssemblyRef, II.22.5: the first of the four columns of its version, its public key or token and its name
pub const ASSEMBLY_REF_VERSION: usize = 15;

pub const ASSEMBLY_REF_KEY: usize = 19;

pub const ASSEMBLY_REF_NAME: usize = 20;

// How many columns there are, and how many numbers each has.
pub const COUNT: usize = layouts::references::COUNT;

pub const NUMBERS: usize = rows::columns::NUMBERS;
// Behind those stand the options that the stream was opened with,
pub const LIMIT: usize = NUMBERS * COUNT;

pub const SECURITY: usize = LIMIT + 1;

pub const TAKER: usize = SECURITY + 1;
// and how many rows the tables Constant, CustomAttribute, ModuleRef and AssemblyRef have, where they are read whole.
pub const CONSTANTS: usize = TAKER + 1;

pub const ATTRIBUTES: usize = CONSTANTS + 1;

pub const MODULE_REFS: usize = ATTRIBUTES + 1;

pub const ASSEMBLY_REFS: usize = MODULE_REFS + 1;

pub const SIZE: usize = ASSEMBLY_REFS + 1;
