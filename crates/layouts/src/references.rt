// The columns that the references are read by, in the order of specs/Read.antt, as the Rust's row parsers take them (`parse_modules`,
// `parse_assembly_table` and the like, and `custom_attribute_is_typelib`).
ghost use Rattle.std.specs.Prelude.{◌≡◌, map};
ghost use Rattle.layouts.specs.Read.{reference_columns, offset_in, bytes_in};

use super::{IndexSizes, kinds, sum};

// How many there are.
pub const COUNT: usize = 21;

// The table of each.
pub fn column_kinds() -> [usize; COUNT]
    ensures { result ≡ map (λ c. c.kind) reference_columns }
{
    [
        // Module, II.22.30: Name
        kinds::MODULE,
        // TypeRef, II.22.38: TypeName
        kinds::TYPE_REF,
        // MemberRef, II.22.25: Class
        kinds::MEMBER_REF,
        // Constant, II.22.9: Type, Value
        kinds::CONSTANT,
        kinds::CONSTANT,
        // CustomAttribute, II.22.10: Parent, Type, Value
        kinds::CUSTOM_ATTRIBUTE,
        kinds::CUSTOM_ATTRIBUTE,
        kinds::CUSTOM_ATTRIBUTE,
        // ModuleRef, II.22.31: Name
        kinds::MODULE_REF,
        // Assembly, II.22.2: MajorVersion, MinorVersion, BuildNumber, RevisionNumber, Name, Culture
        kinds::ASSEMBLY,
        kinds::ASSEMBLY,
        kinds::ASSEMBLY,
        kinds::ASSEMBLY,
        kinds::ASSEMBLY,
        kinds::ASSEMBLY,
        // AssemblyRef, II.22.5: MajorVersion, MinorVersion, BuildNumber, RevisionNumber, PublicKeyOrToken, Name
        kinds::ASSEMBLY_REF,
        kinds::ASSEMBLY_REF,
        kinds::ASSEMBLY_REF,
        kinds::ASSEMBLY_REF,
        kinds::ASSEMBLY_REF,
        kinds::ASSEMBLY_REF,
    ]
}

// The bytes of a row before each.
#[tactic(auto, unfolding(crate::specs::Columns::tables, crate::specs::Columns::sum_of))]
pub fn column_offsets(w: IndexSizes) -> [u32; COUNT]
    ensures { result ≡ map (offset_in w) reference_columns }
{
    [
        // Module: Name
        2,
        // TypeRef: TypeName
        sum(&[w.resolution_scope]),
        // MemberRef: Class
        0,
        // Constant: Type, Value
        0,
        sum(&[2, w.has_constant]),
        // CustomAttribute: Parent, Type, Value
        0,
        sum(&[w.has_custom_attribute]),
        sum(&[w.has_custom_attribute, w.custom_attribute_type]),
        // ModuleRef: Name
        0,
        // Assembly: MajorVersion, MinorVersion, BuildNumber, RevisionNumber, Name, Culture
        4,
        6,
        8,
        10,
        sum(&[16, w.blob]),
        sum(&[16, w.blob, w.string]),
        // AssemblyRef: MajorVersion, MinorVersion, BuildNumber, RevisionNumber, PublicKeyOrToken, Name
        0,
        2,
        4,
        6,
        12,
        sum(&[12, w.blob]),
    ]
}

// The bytes of each. They are converted one by one, since a map over the array is slower.
#[tactic(auto, unfolding(crate::specs::Columns::tables))]
pub fn column_widths(w: IndexSizes) -> [u32; COUNT]
    ensures { result ≡ map (bytes_in w) reference_columns }
{
    [
        // Module: Name
        u32::from(w.string),
        // TypeRef: TypeName
        u32::from(w.string),
        // MemberRef: Class
        u32::from(w.member_ref_parent),
        // Constant: Type, Value
        2,
        u32::from(w.blob),
        // CustomAttribute: Parent, Type, Value
        u32::from(w.has_custom_attribute),
        u32::from(w.custom_attribute_type),
        u32::from(w.blob),
        // ModuleRef: Name
        u32::from(w.string),
        // Assembly: MajorVersion, MinorVersion, BuildNumber, RevisionNumber, Name, Culture
        2,
        2,
        2,
        2,
        u32::from(w.string),
        u32::from(w.string),
        // AssemblyRef: MajorVersion, MinorVersion, BuildNumber, RevisionNumber, PublicKeyOrToken, Name
        2,
        2,
        2,
        2,
        u32::from(w.blob),
        u32::from(w.string),
    ]
}
