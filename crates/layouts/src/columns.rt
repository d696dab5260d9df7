// The columns that are read, in the order of specs/Read.antt, as the Rust's row parsers take them (`parse_type_defs` and the like, and
// the readers of a record of TypeRef, TypeSpec and InterfaceImpl); and those of ClassLayout, which the Rust skips.
ghost use Rattle.std.specs.Prelude.{◌≡◌, map};
ghost use Rattle.layouts.specs.Read.{read_columns, offset_in, bytes_in};

use super::{IndexSizes, kinds, sum};

// How many there are.
pub const COUNT: usize = 22;

// The table of each.
pub fn column_kinds() -> [usize; COUNT]
    ensures { result ≡ map (λ c. c.kind) read_columns }
{
    [
        // TypeRef, II.22.38: TypeName, TypeNamespace
        kinds::TYPE_REF,
        kinds::TYPE_REF,
        // TypeDef, II.22.37: Flags, TypeName, TypeNamespace, Extends, MethodList
        kinds::TYPE_DEF,
        kinds::TYPE_DEF,
        kinds::TYPE_DEF,
        kinds::TYPE_DEF,
        kinds::TYPE_DEF,
        // MethodDef, II.22.26: Flags, Name, Signature, ParamList
        kinds::METHOD_DEF,
        kinds::METHOD_DEF,
        kinds::METHOD_DEF,
        kinds::METHOD_DEF,
        // Param, II.22.33: Name
        kinds::PARAM,
        // InterfaceImpl, II.22.23: Class, Interface
        kinds::INTERFACE_IMPL,
        kinds::INTERFACE_IMPL,
        // TypeSpec, II.22.39: Signature
        kinds::TYPE_SPEC,
        // NestedClass, II.22.32: NestedClass, EnclosingClass
        kinds::NESTED_CLASS,
        kinds::NESTED_CLASS,
        // GenericParam, II.22.20: Owner, Name
        kinds::GENERIC_PARAM,
        kinds::GENERIC_PARAM,
        // ClassLayout, II.22.8: PackingSize, ClassSize, Parent
        kinds::CLASS_LAYOUT,
        kinds::CLASS_LAYOUT,
        kinds::CLASS_LAYOUT,
    ]
}

// The bytes of a row before each.
pub fn column_offsets(w: IndexSizes) -> [u32; COUNT]
    ensures { result ≡ map (offset_in w) read_columns }
{
    [
        // TypeRef: TypeName, TypeNamespace
        sum(&[w.resolution_scope]),
        sum(&[w.resolution_scope, w.string]),
        // TypeDef: Flags, TypeName, TypeNamespace, Extends, MethodList
        0,
        4,
        sum(&[4, w.string]),
        sum(&[4, w.string, w.string]),
        sum(&[4, w.string, w.string, w.type_def_or_ref, w.field]),
        // MethodDef: Flags, Name, Signature, ParamList
        6,
        8,
        sum(&[8, w.string]),
        sum(&[8, w.string, w.blob]),
        // Param: Name
        4,
        // InterfaceImpl: Class, Interface
        0,
        sum(&[w.type_def]),
        // TypeSpec: Signature
        0,
        // NestedClass: NestedClass, EnclosingClass
        0,
        sum(&[w.type_def]),
        // GenericParam: Owner, Name
        4,
        sum(&[4, w.type_or_method_def]),
        // ClassLayout: PackingSize, ClassSize, Parent
        0,
        2,
        6,
    ]
}

// The bytes of each. They are converted one by one, since a map over the array is slower.
#[tactic(auto, unfolding(crate::specs::Columns::tables))]
pub fn column_widths(w: IndexSizes) -> [u32; COUNT]
    ensures { result ≡ map (bytes_in w) read_columns }
{
    [
        // TypeRef: TypeName, TypeNamespace
        u32::from(w.string),
        u32::from(w.string),
        // TypeDef: Flags, TypeName, TypeNamespace, Extends, MethodList
        4,
        u32::from(w.string),
        u32::from(w.string),
        u32::from(w.type_def_or_ref),
        u32::from(w.method_def),
        // MethodDef: Flags, Name, Signature, ParamList
        2,
        u32::from(w.string),
        u32::from(w.blob),
        u32::from(w.param),
        // Param: Name
        u32::from(w.string),
        // InterfaceImpl: Class, Interface
        u32::from(w.type_def),
        u32::from(w.type_def_or_ref),
        // TypeSpec: Signature
        u32::from(w.blob),
        // NestedClass: NestedClass, EnclosingClass
        u32::from(w.type_def),
        u32::from(w.type_def),
        // GenericParam: Owner, Name
        u32::from(w.type_or_method_def),
        u32::from(w.string),
        // ClassLayout: PackingSize, ClassSize, Parent
        2,
        4,
        u32::from(w.type_def),
    ]
}
