// The bytes of a row of each table, as the Rust reads or skips it in `parse_table_type` and the parsers that it calls: those that are no
// index, and the indices.
ghost use Rattle.std.specs.Prelude.{◌≡◌, map};
ghost use Rattle.layouts.specs.Columns.{width_in, sum_of, tables};

use super::{IndexSizes, sum};

// By table, 0x00 to 0x2C.
pub fn row_sizes(w: IndexSizes) -> [u32; 45]
    ensures { result ≡ map (sum_of (width_in w)) tables }
{
    [
        // 0x00 MODULE
        sum(&[2, w.string, w.guid, w.guid, w.guid]),
        // 0x01 TYPE_REF
        sum(&[w.resolution_scope, w.string, w.string]),
        // 0x02 TYPE_DEF
        sum(&[
            4,
            w.string,
            w.string,
            w.type_def_or_ref,
            w.field,
            w.method_def,
        ]),
        // 0x03 FIELD_PTR
        u32::from(w.field),
        // 0x04 FIELD
        sum(&[2, w.string, w.blob]),
        // 0x05 METHOD_PTR
        u32::from(w.method_def),
        // 0x06 METHOD_DEF
        sum(&[8, w.string, w.blob, w.param]),
        // 0x07 PARAM_PTR
        u32::from(w.param),
        // 0x08 PARAM
        sum(&[4, w.string]),
        // 0x09 INTERFACE_IMPL
        sum(&[w.type_def, w.type_def_or_ref]),
        // 0x0A MEMBER_REF
        sum(&[w.member_ref_parent, w.string, w.blob]),
        // 0x0B CONSTANT
        sum(&[2, w.has_constant, w.blob]),
        // 0x0C CUSTOM_ATTRIBUTE
        sum(&[w.has_custom_attribute, w.custom_attribute_type, w.blob]),
        // 0x0D FIELD_MARSHALL
        sum(&[w.has_field_marshall, w.blob]),
        // 0x0E DECL_SECURITY
        sum(&[2, w.has_decl_security, w.blob]),
        // 0x0F CLASS_LAYOUT
        sum(&[6, w.type_def]),
        // 0x10 FIELD_LAYOUT
        sum(&[4, w.field]),
        // 0x11 STAND_ALONE_SIG
        u32::from(w.blob),
        // 0x12 EVENT_MAP
        sum(&[w.type_def, w.event]),
        // 0x13 EVENT_PTR
        u32::from(w.event),
        // 0x14 EVENT
        sum(&[2, w.string, w.type_def_or_ref]),
        // 0x15 PROPERTY_MAP
        sum(&[w.type_def, w.property]),
        // 0x16 PROPERTY_PTR
        u32::from(w.property),
        // 0x17 PROPERTY
        sum(&[2, w.string, w.blob]),
        // 0x18 METHOD_SEMANTICS
        sum(&[2, w.method_def, w.has_semantics]),
        // 0x19 METHOD_IMPL
        sum(&[w.type_def, w.method_def_or_ref, w.method_def_or_ref]),
        // 0x1A MODULE_REF
        u32::from(w.string),
        // 0x1B TYPE_SPEC
        u32::from(w.blob),
        // 0x1C IMPL_MAP
        sum(&[2, w.member_forwarded, w.string, w.module_ref]),
        // 0x1D FIELD_RVA
        sum(&[4, w.field]),
        // 0x1E ENC_LOG
        8,
        // 0x1F ENC_MAP
        4,
        // 0x20 ASSEMBLY
        sum(&[16, w.blob, w.string, w.string]),
        // 0x21 ASSEMBLY_PROCESSOR
        4,
        // 0x22 ASSEMBLY_OS
        12,
        // 0x23 ASSEMBLY_REF
        sum(&[12, w.blob, w.string, w.string, w.blob]),
        // 0x24 ASSEMBLY_REF_PROCESSOR
        sum(&[4, w.assembly_ref]),
        // 0x25 ASSEMBLY_REF_OS
        sum(&[12, w.assembly_ref]),
        // 0x26 FILE
        sum(&[4, w.string, w.blob]),
        // 0x27 EXPORTED_TYPE
        sum(&[8, w.string, w.string, w.implementation]),
        // 0x28 MANIFEST_RESOURCE
        sum(&[8, w.string, w.implementation]),
        // 0x29 NESTED_CLASS
        sum(&[w.type_def, w.type_def]),
        // 0x2A GENERIC_PARAM
        sum(&[4, w.type_or_method_def, w.string]),
        // 0x2B METHOD_SPEC
        sum(&[w.method_def_or_ref, w.blob]),
        // 0x2C GENERIC_PARAM_CONSTRAINT
        sum(&[w.generic_param, w.type_def_or_ref]),
    ]
}
