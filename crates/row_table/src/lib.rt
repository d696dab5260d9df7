// Row sizes by table: those of the 45 kinds (ECMA-335 II.22) under 64 settings of widths, three heap bits and the three coded indices that can
// have 4 bytes where no table has more than 15,000 rows. Which entry stands where, and that each is the sum of its kind's columns, say the
// specs.

#![tactic(auto)]

ghost use Rattle.std.specs.Prelude.{◌≡◌, [], ◌<◌, get_or};
ghost use Rattle.row_table.specs.RowTable.{row_table};

// A part for each setting of the coded indices: bit 0 is that of HasCustomAttribute, bit 1 of MemberRefParent, bit 2 of CustomAttributeType.
// In it, for each kind its 8 sizes by the setting of the heap bits: bit 0 is that of strings, bit 1 of GUIDs, bit 2 of blobs. The parts
// differ in two kinds alone.
static ROW_SIZES: [[u8; 360]; 8] = [
    // no coded index has 4 bytes
    [
        // 0x00 Module
        10, // the first entry
        12, 16, 18, 10, 12, 16, 18,
        // 0x01 TypeRef
        6, 10, 6, 10, 6, 10, 6, 10,
        // 0x02 TypeDef
        14, 18, 14, 18, 14, 18, 14, 18,
        // 0x03 FieldPtr
        2, 2, 2, 2, 2, 2, 2, 2,
        // 0x04 Field
        6, 8, 6, 8, 8, 10, 8, 10,
        // 0x05 MethodPtr
        2, 2, 2, 2, 2, 2, 2, 2,
        // 0x06 MethodDef
        14, 16, 14, 16, 16, 18, 16, 18,
        // 0x07 ParamPtr
        2, 2, 2, 2, 2, 2, 2, 2,
        // 0x08 Param
        6, 8, 6, 8, 6, 8, 6, 8,
        // 0x09 InterfaceImpl
        4, 4, 4, 4, 4, 4, 4, 4,
        // 0x0A MemberRef
        6, 8, 6, 8, 8, 10, 8, 10,
        // 0x0B Constant
        6, 6, 6, 6, 8, 8, 8, 8,
        // 0x0C CustomAttribute
        6, 6, 6, 6, 8, 8, 8, 8,
        // 0x0D FieldMarshal
        4, 4, 4, 4, 6, 6, 6, 6,
        // 0x0E DeclSecurity
        6, 6, 6, 6, 8, 8, 8, 8,
        // 0x0F ClassLayout
        8, 8, 8, 8, 8, 8, 8, 8,
        // 0x10 FieldLayout
        6, 6, 6, 6, 6, 6, 6, 6,
        // 0x11 StandAloneSig
        2, 2, 2, 2, 4, 4, 4, 4,
        // 0x12 EventMap
        4, 4, 4, 4, 4, 4, 4, 4,
        // 0x13 EventPtr
        2, 2, 2, 2, 2, 2, 2, 2,
        // 0x14 Event
        6, 8, 6, 8, 6, 8, 6, 8,
        // 0x15 PropertyMap
        4, 4, 4, 4, 4, 4, 4, 4,
        // 0x16 PropertyPtr
        2, 2, 2, 2, 2, 2, 2, 2,
        // 0x17 Property
        6, 8, 6, 8, 8, 10, 8, 10,
        // 0x18 MethodSemantics
        6, 6, 6, 6, 6, 6, 6, 6,
        // 0x19 MethodImpl
        6, 6, 6, 6, 6, 6, 6, 6,
        // 0x1A ModuleRef
        2, 4, 2, 4, 2, 4, 2, 4,
        // 0x1B TypeSpec
        2, 2, 2, 2, 4, 4, 4, 4,
        // 0x1C ImplMap
        8, 10, 8, 10, 8, 10, 8, 10,
        // 0x1D FieldRVA
        6, 6, 6, 6, 6, 6, 6, 6,
        // 0x1E EncLog
        8, 8, 8, 8, 8, 8, 8, 8,
        // 0x1F EncMap
        4, 4, 4, 4, 4, 4, 4, 4,
        // 0x20 Assembly
        22, 26, 22, 26, 24, 28, 24, 28,
        // 0x21 AssemblyProcessor
        4, 4, 4, 4, 4, 4, 4, 4,
        // 0x22 AssemblyOS
        12, 12, 12, 12, 12, 12, 12, 12,
        // 0x23 AssemblyRef
        20, 24, 20, 24, 24, 28, 24, 28,
        // 0x24 AssemblyRefProcessor
        6, 6, 6, 6, 6, 6, 6, 6,
        // 0x25 AssemblyRefOS
        14, 14, 14, 14, 14, 14, 14, 14,
        // 0x26 File
        8, 10, 8, 10, 10, 12, 10, 12,
        // 0x27 ExportedType
        14, 18, 14, 18, 14, 18, 14, 18,
        // 0x28 ManifestResource
        12, 14, 12, 14, 12, 14, 12, 14,
        // 0x29 NestedClass
        4, 4, 4, 4, 4, 4, 4, 4,
        // 0x2A GenericParam
        8, 10, 8, 10, 8, 10, 8, 10,
        // 0x2B MethodSpec
        4, 4, 4, 4, 6, 6, 6, 6,
        // 0x2C GenericParamConstraint
        4, 4, 4, 4, 4, 4, 4, 4,
    ],
    // HasCustomAttribute has 4 bytes
    [
        // 0x00 Module
        10, 12, 16, 18, 10, 12, 16, 18,
        // 0x01 TypeRef
        6, 10, 6, 10, 6, 10, 6, 10,
        // 0x02 TypeDef
        14, 18, 14, 18, 14, 18, 14, 18,
        // 0x03 FieldPtr
        2, 2, 2, 2, 2, 2, 2, 2,
        // 0x04 Field
        6, 8, 6, 8, 8, 10, 8, 10,
        // 0x05 MethodPtr
        2, 2, 2, 2, 2, 2, 2, 2,
        // 0x06 MethodDef
        14, 16, 14, 16, 16, 18, 16, 18,
        // 0x07 ParamPtr
        2, 2, 2, 2, 2, 2, 2, 2,
        // 0x08 Param
        6, 8, 6, 8, 6, 8, 6, 8,
        // 0x09 InterfaceImpl
        4, 4, 4, 4, 4, 4, 4, 4,
        // 0x0A MemberRef
        6, 8, 6, 8, 8, 10, 8, 10,
        // 0x0B Constant
        6, 6, 6, 6, 8, 8, 8, 8,
        // 0x0C CustomAttribute
        8, 8, 8, 8, 10, 10, 10, 10,
        // 0x0D FieldMarshal
        4, 4, 4, 4, 6, 6, 6, 6,
        // 0x0E DeclSecurity
        6, 6, 6, 6, 8, 8, 8, 8,
        // 0x0F ClassLayout
        8, 8, 8, 8, 8, 8, 8, 8,
        // 0x10 FieldLayout
        6, 6, 6, 6, 6, 6, 6, 6,
        // 0x11 StandAloneSig
        2, 2, 2, 2, 4, 4, 4, 4,
        // 0x12 EventMap
        4, 4, 4, 4, 4, 4, 4, 4,
        // 0x13 EventPtr
        2, 2, 2, 2, 2, 2, 2, 2,
        // 0x14 Event
        6, 8, 6, 8, 6, 8, 6, 8,
        // 0x15 PropertyMap
        4, 4, 4, 4, 4, 4, 4, 4,
        // 0x16 PropertyPtr
        2, 2, 2, 2, 2, 2, 2, 2,
        // 0x17 Property
        6, 8, 6, 8, 8, 10, 8, 10,
        // 0x18 MethodSemantics
        6, 6, 6, 6, 6, 6, 6, 6,
        // 0x19 MethodImpl
        6, 6, 6, 6, 6, 6, 6, 6,
        // 0x1A ModuleRef
        2, 4, 2, 4, 2, 4, 2, 4,
        // 0x1B TypeSpec
        2, 2, 2, 2, 4, 4, 4, 4,
        // 0x1C ImplMap
        8, 10, 8, 10, 8, 10, 8, 10,
        // 0x1D FieldRVA
        6, 6, 6, 6, 6, 6, 6, 6,
        // 0x1E EncLog
        8, 8, 8, 8, 8, 8, 8, 8,
        // 0x1F EncMap
        4, 4, 4, 4, 4, 4, 4, 4,
        // 0x20 Assembly
        22, 26, 22, 26, 24, 28, 24, 28,
        // 0x21 AssemblyProcessor
        4, 4, 4, 4, 4, 4, 4, 4,
        // 0x22 AssemblyOS
        12, 12, 12, 12, 12, 12, 12, 12,
        // 0x23 AssemblyRef
        20, 24, 20, 24, 24, 28, 24, 28,
        // 0x24 AssemblyRefProcessor
        6, 6, 6, 6, 6, 6, 6, 6,
        // 0x25 AssemblyRefOS
        14, 14, 14, 14, 14, 14, 14, 14,
        // 0x26 File
        8, 10, 8, 10, 10, 12, 10, 12,
        // 0x27 ExportedType
        14, 18, 14, 18, 14, 18, 14, 18,
        // 0x28 ManifestResource
        12, 14, 12, 14, 12, 14, 12, 14,
        // 0x29 NestedClass
        4, 4, 4, 4, 4, 4, 4, 4,
        // 0x2A GenericParam
        8, 10, 8, 10, 8, 10, 8, 10,
        // 0x2B MethodSpec
        4, 4, 4, 4, 6, 6, 6, 6,
        // 0x2C GenericParamConstraint
        4, 4, 4, 4, 4, 4, 4, 4,
    ],
    // MemberRefParent has
    [
        // 0x00 Module
        10, 12, 16, 18, 10, 12, 16, 18,
        // 0x01 TypeRef
        6, 10, 6, 10, 6, 10, 6, 10,
        // 0x02 TypeDef
        14, 18, 14, 18, 14, 18, 14, 18,
        // 0x03 FieldPtr
        2, 2, 2, 2, 2, 2, 2, 2,
        // 0x04 Field
        6, 8, 6, 8, 8, 10, 8, 10,
        // 0x05 MethodPtr
        2, 2, 2, 2, 2, 2, 2, 2,
        // 0x06 MethodDef
        14, 16, 14, 16, 16, 18, 16, 18,
        // 0x07 ParamPtr
        2, 2, 2, 2, 2, 2, 2, 2,
        // 0x08 Param
        6, 8, 6, 8, 6, 8, 6, 8,
        // 0x09 InterfaceImpl
        4, 4, 4, 4, 4, 4, 4, 4,
        // 0x0A MemberRef
        8, 10, 8, 10, 10, 12, 10, 12,
        // 0x0B Constant
        6, 6, 6, 6, 8, 8, 8, 8,
        // 0x0C CustomAttribute
        6, 6, 6, 6, 8, 8, 8, 8,
        // 0x0D FieldMarshal
        4, 4, 4, 4, 6, 6, 6, 6,
        // 0x0E DeclSecurity
        6, 6, 6, 6, 8, 8, 8, 8,
        // 0x0F ClassLayout
        8, 8, 8, 8, 8, 8, 8, 8,
        // 0x10 FieldLayout
        6, 6, 6, 6, 6, 6, 6, 6,
        // 0x11 StandAloneSig
        2, 2, 2, 2, 4, 4, 4, 4,
        // 0x12 EventMap
        4, 4, 4, 4, 4, 4, 4, 4,
        // 0x13 EventPtr
        2, 2, 2, 2, 2, 2, 2, 2,
        // 0x14 Event
        6, 8, 6, 8, 6, 8, 6, 8,
        // 0x15 PropertyMap
        4, 4, 4, 4, 4, 4, 4, 4,
        // 0x16 PropertyPtr
        2, 2, 2, 2, 2, 2, 2, 2,
        // 0x17 Property
        6, 8, 6, 8, 8, 10, 8, 10,
        // 0x18 MethodSemantics
        6, 6, 6, 6, 6, 6, 6, 6,
        // 0x19 MethodImpl
        6, 6, 6, 6, 6, 6, 6, 6,
        // 0x1A ModuleRef
        2, 4, 2, 4, 2, 4, 2, 4,
        // 0x1B TypeSpec
        2, 2, 2, 2, 4, 4, 4, 4,
        // 0x1C ImplMap
        8, 10, 8, 10, 8, 10, 8, 10,
        // 0x1D FieldRVA
        6, 6, 6, 6, 6, 6, 6, 6,
        // 0x1E EncLog
        8, 8, 8, 8, 8, 8, 8, 8,
        // 0x1F EncMap
        4, 4, 4, 4, 4, 4, 4, 4,
        // 0x20 Assembly
        22, 26, 22, 26, 24, 28, 24, 28,
        // 0x21 AssemblyProcessor
        4, 4, 4, 4, 4, 4, 4, 4,
        // 0x22 AssemblyOS
        12, 12, 12, 12, 12, 12, 12, 12,
        // 0x23 AssemblyRef
        20, 24, 20, 24, 24, 28, 24, 28,
        // 0x24 AssemblyRefProcessor
        6, 6, 6, 6, 6, 6, 6, 6,
        // 0x25 AssemblyRefOS
        14, 14, 14, 14, 14, 14, 14, 14,
        // 0x26 File
        8, 10, 8, 10, 10, 12, 10, 12,
        // 0x27 ExportedType
        14, 18, 14, 18, 14, 18, 14, 18,
        // 0x28 ManifestResource
        12, 14, 12, 14, 12, 14, 12, 14,
        // 0x29 NestedClass
        4, 4, 4, 4, 4, 4, 4, 4,
        // 0x2A GenericParam
        8, 10, 8, 10, 8, 10, 8, 10,
        // 0x2B MethodSpec
        4, 4, 4, 4, 6, 6, 6, 6,
        // 0x2C GenericParamConstraint
        4, 4, 4, 4, 4, 4, 4, 4,
    ],
    // HasCustomAttribute and MemberRefParent have
    [
        // 0x00 Module
        10, 12, 16, 18, 10, 12, 16, 18,
        // 0x01 TypeRef
        6, 10, 6, 10, 6, 10, 6, 10,
        // 0x02 TypeDef
        14, 18, 14, 18, 14, 18, 14, 18,
        // 0x03 FieldPtr
        2, 2, 2, 2, 2, 2, 2, 2,
        // 0x04 Field
        6, 8, 6, 8, 8, 10, 8, 10,
        // 0x05 MethodPtr
        2, 2, 2, 2, 2, 2, 2, 2,
        // 0x06 MethodDef
        14, 16, 14, 16, 16, 18, 16, 18,
        // 0x07 ParamPtr
        2, 2, 2, 2, 2, 2, 2, 2,
        // 0x08 Param
        6, 8, 6, 8, 6, 8, 6, 8,
        // 0x09 InterfaceImpl
        4, 4, 4, 4, 4, 4, 4, 4,
        // 0x0A MemberRef
        8, 10, 8, 10, 10, 12, 10, 12,
        // 0x0B Constant
        6, 6, 6, 6, 8, 8, 8, 8,
        // 0x0C CustomAttribute
        8, 8, 8, 8, 10, 10, 10, 10,
        // 0x0D FieldMarshal
        4, 4, 4, 4, 6, 6, 6, 6,
        // 0x0E DeclSecurity
        6, 6, 6, 6, 8, 8, 8, 8,
        // 0x0F ClassLayout
        8, 8, 8, 8, 8, 8, 8, 8,
        // 0x10 FieldLayout
        6, 6, 6, 6, 6, 6, 6, 6,
        // 0x11 StandAloneSig
        2, 2, 2, 2, 4, 4, 4, 4,
        // 0x12 EventMap
        4, 4, 4, 4, 4, 4, 4, 4,
        // 0x13 EventPtr
        2, 2, 2, 2, 2, 2, 2, 2,
        // 0x14 Event
        6, 8, 6, 8, 6, 8, 6, 8,
        // 0x15 PropertyMap
        4, 4, 4, 4, 4, 4, 4, 4,
        // 0x16 PropertyPtr
        2, 2, 2, 2, 2, 2, 2, 2,
        // 0x17 Property
        6, 8, 6, 8, 8, 10, 8, 10,
        // 0x18 MethodSemantics
        6, 6, 6, 6, 6, 6, 6, 6,
        // 0x19 MethodImpl
        6, 6, 6, 6, 6, 6, 6, 6,
        // 0x1A ModuleRef
        2, 4, 2, 4, 2, 4, 2, 4,
        // 0x1B TypeSpec
        2, 2, 2, 2, 4, 4, 4, 4,
        // 0x1C ImplMap
        8, 10, 8, 10, 8, 10, 8, 10,
        // 0x1D FieldRVA
        6, 6, 6, 6, 6, 6, 6, 6,
        // 0x1E EncLog
        8, 8, 8, 8, 8, 8, 8, 8,
        // 0x1F EncMap
        4, 4, 4, 4, 4, 4, 4, 4,
        // 0x20 Assembly
        22, 26, 22, 26, 24, 28, 24, 28,
        // 0x21 AssemblyProcessor
        4, 4, 4, 4, 4, 4, 4, 4,
        // 0x22 AssemblyOS
        12, 12, 12, 12, 12, 12, 12, 12,
        // 0x23 AssemblyRef
        20, 24, 20, 24, 24, 28, 24, 28,
        // 0x24 AssemblyRefProcessor
        6, 6, 6, 6, 6, 6, 6, 6,
        // 0x25 AssemblyRefOS
        14, 14, 14, 14, 14, 14, 14, 14,
        // 0x26 File
        8, 10, 8, 10, 10, 12, 10, 12,
        // 0x27 ExportedType
        14, 18, 14, 18, 14, 18, 14, 18,
        // 0x28 ManifestResource
        12, 14, 12, 14, 12, 14, 12, 14,
        // 0x29 NestedClass
        4, 4, 4, 4, 4, 4, 4, 4,
        // 0x2A GenericParam
        8, 10, 8, 10, 8, 10, 8, 10,
        // 0x2B MethodSpec
        4, 4, 4, 4, 6, 6, 6, 6,
        // 0x2C GenericParamConstraint
        4, 4, 4, 4, 4, 4, 4, 4,
    ],
    // CustomAttributeType has
    [
        // 0x00 Module
        10, 12, 16, 18, 10, 12, 16, 18,
        // 0x01 TypeRef
        6, 10, 6, 10, 6, 10, 6, 10,
        // 0x02 TypeDef
        14, 18, 14, 18, 14, 18, 14, 18,
        // 0x03 FieldPtr
        2, 2, 2, 2, 2, 2, 2, 2,
        // 0x04 Field
        6, 8, 6, 8, 8, 10, 8, 10,
        // 0x05 MethodPtr
        2, 2, 2, 2, 2, 2, 2, 2,
        // 0x06 MethodDef
        14, 16, 14, 16, 16, 18, 16, 18,
        // 0x07 ParamPtr
        2, 2, 2, 2, 2, 2, 2, 2,
        // 0x08 Param
        6, 8, 6, 8, 6, 8, 6, 8,
        // 0x09 InterfaceImpl
        4, 4, 4, 4, 4, 4, 4, 4,
        // 0x0A MemberRef
        6, 8, 6, 8, 8, 10, 8, 10,
        // 0x0B Constant
        6, 6, 6, 6, 8, 8, 8, 8,
        // 0x0C CustomAttribute
        8, 8, 8, 8, 10, 10, 10, 10,
        // 0x0D FieldMarshal
        4, 4, 4, 4, 6, 6, 6, 6,
        // 0x0E DeclSecurity
        6, 6, 6, 6, 8, 8, 8, 8,
        // 0x0F ClassLayout
        8, 8, 8, 8, 8, 8, 8, 8,
        // 0x10 FieldLayout
        6, 6, 6, 6, 6, 6, 6, 6,
        // 0x11 StandAloneSig
        2, 2, 2, 2, 4, 4, 4, 4,
        // 0x12 EventMap
        4, 4, 4, 4, 4, 4, 4, 4,
        // 0x13 EventPtr
        2, 2, 2, 2, 2, 2, 2, 2,
        // 0x14 Event
        6, 8, 6, 8, 6, 8, 6, 8,
        // 0x15 PropertyMap
        4, 4, 4, 4, 4, 4, 4, 4,
        // 0x16 PropertyPtr
        2, 2, 2, 2, 2, 2, 2, 2,
        // 0x17 Property
        6, 8, 6, 8, 8, 10, 8, 10,
        // 0x18 MethodSemantics
        6, 6, 6, 6, 6, 6, 6, 6,
        // 0x19 MethodImpl
        6, 6, 6, 6, 6, 6, 6, 6,
        // 0x1A ModuleRef
        2, 4, 2, 4, 2, 4, 2, 4,
        // 0x1B TypeSpec
        2, 2, 2, 2, 4, 4, 4, 4,
        // 0x1C ImplMap
        8, 10, 8, 10, 8, 10, 8, 10,
        // 0x1D FieldRVA
        6, 6, 6, 6, 6, 6, 6, 6,
        // 0x1E EncLog
        8, 8, 8, 8, 8, 8, 8, 8,
        // 0x1F EncMap
        4, 4, 4, 4, 4, 4, 4, 4,
        // 0x20 Assembly
        22, 26, 22, 26, 24, 28, 24, 28,
        // 0x21 AssemblyProcessor
        4, 4, 4, 4, 4, 4, 4, 4,
        // 0x22 AssemblyOS
        12, 12, 12, 12, 12, 12, 12, 12,
        // 0x23 AssemblyRef
        20, 24, 20, 24, 24, 28, 24, 28,
        // 0x24 AssemblyRefProcessor
        6, 6, 6, 6, 6, 6, 6, 6,
        // 0x25 AssemblyRefOS
        14, 14, 14, 14, 14, 14, 14, 14,
        // 0x26 File
        8, 10, 8, 10, 10, 12, 10, 12,
        // 0x27 ExportedType
        14, 18, 14, 18, 14, 18, 14, 18,
        // 0x28 ManifestResource
        12, 14, 12, 14, 12, 14, 12, 14,
        // 0x29 NestedClass
        4, 4, 4, 4, 4, 4, 4, 4,
        // 0x2A GenericParam
        8, 10, 8, 10, 8, 10, 8, 10,
        // 0x2B MethodSpec
        4, 4, 4, 4, 6, 6, 6, 6,
        // 0x2C GenericParamConstraint
        4, 4, 4, 4, 4, 4, 4, 4,
    ],
    // HasCustomAttribute and CustomAttributeType have
    [
        // 0x00 Module
        10, 12, 16, 18, 10, 12, 16, 18,
        // 0x01 TypeRef
        6, 10, 6, 10, 6, 10, 6, 10,
        // 0x02 TypeDef
        14, 18, 14, 18, 14, 18, 14, 18,
        // 0x03 FieldPtr
        2, 2, 2, 2, 2, 2, 2, 2,
        // 0x04 Field
        6, 8, 6, 8, 8, 10, 8, 10,
        // 0x05 MethodPtr
        2, 2, 2, 2, 2, 2, 2, 2,
        // 0x06 MethodDef
        14, 16, 14, 16, 16, 18, 16, 18,
        // 0x07 ParamPtr
        2, 2, 2, 2, 2, 2, 2, 2,
        // 0x08 Param
        6, 8, 6, 8, 6, 8, 6, 8,
        // 0x09 InterfaceImpl
        4, 4, 4, 4, 4, 4, 4, 4,
        // 0x0A MemberRef
        6, 8, 6, 8, 8, 10, 8, 10,
        // 0x0B Constant
        6, 6, 6, 6, 8, 8, 8, 8,
        // 0x0C CustomAttribute
        10, 10, 10, 10, 12, 12, 12, 12,
        // 0x0D FieldMarshal
        4, 4, 4, 4, 6, 6, 6, 6,
        // 0x0E DeclSecurity
        6, 6, 6, 6, 8, 8, 8, 8,
        // 0x0F ClassLayout
        8, 8, 8, 8, 8, 8, 8, 8,
        // 0x10 FieldLayout
        6, 6, 6, 6, 6, 6, 6, 6,
        // 0x11 StandAloneSig
        2, 2, 2, 2, 4, 4, 4, 4,
        // 0x12 EventMap
        4, 4, 4, 4, 4, 4, 4, 4,
        // 0x13 EventPtr
        2, 2, 2, 2, 2, 2, 2, 2,
        // 0x14 Event
        6, 8, 6, 8, 6, 8, 6, 8,
        // 0x15 PropertyMap
        4, 4, 4, 4, 4, 4, 4, 4,
        // 0x16 PropertyPtr
        2, 2, 2, 2, 2, 2, 2, 2,
        // 0x17 Property
        6, 8, 6, 8, 8, 10, 8, 10,
        // 0x18 MethodSemantics
        6, 6, 6, 6, 6, 6, 6, 6,
        // 0x19 MethodImpl
        6, 6, 6, 6, 6, 6, 6, 6,
        // 0x1A ModuleRef
        2, 4, 2, 4, 2, 4, 2, 4,
        // 0x1B TypeSpec
        2, 2, 2, 2, 4, 4, 4, 4,
        // 0x1C ImplMap
        8, 10, 8, 10, 8, 10, 8, 10,
        // 0x1D FieldRVA
        6, 6, 6, 6, 6, 6, 6, 6,
        // 0x1E EncLog
        8, 8, 8, 8, 8, 8, 8, 8,
        // 0x1F EncMap
        4, 4, 4, 4, 4, 4, 4, 4,
        // 0x20 Assembly
        22, 26, 22, 26, 24, 28, 24, 28,
        // 0x21 AssemblyProcessor
        4, 4, 4, 4, 4, 4, 4, 4,
        // 0x22 AssemblyOS
        12, 12, 12, 12, 12, 12, 12, 12,
        // 0x23 AssemblyRef
        20, 24, 20, 24, 24, 28, 24, 28,
        // 0x24 AssemblyRefProcessor
        6, 6, 6, 6, 6, 6, 6, 6,
        // 0x25 AssemblyRefOS
        14, 14, 14, 14, 14, 14, 14, 14,
        // 0x26 File
        8, 10, 8, 10, 10, 12, 10, 12,
        // 0x27 ExportedType
        14, 18, 14, 18, 14, 18, 14, 18,
        // 0x28 ManifestResource
        12, 14, 12, 14, 12, 14, 12, 14,
        // 0x29 NestedClass
        4, 4, 4, 4, 4, 4, 4, 4,
        // 0x2A GenericParam
        8, 10, 8, 10, 8, 10, 8, 10,
        // 0x2B MethodSpec
        4, 4, 4, 4, 6, 6, 6, 6,
        // 0x2C GenericParamConstraint
        4, 4, 4, 4, 4, 4, 4, 4,
    ],
    // MemberRefParent and CustomAttributeType have
    [
        // 0x00 Module
        10, 12, 16, 18, 10, 12, 16, 18,
        // 0x01 TypeRef
        6, 10, 6, 10, 6, 10, 6, 10,
        // 0x02 TypeDef
        14, 18, 14, 18, 14, 18, 14, 18,
        // 0x03 FieldPtr
        2, 2, 2, 2, 2, 2, 2, 2,
        // 0x04 Field
        6, 8, 6, 8, 8, 10, 8, 10,
        // 0x05 MethodPtr
        2, 2, 2, 2, 2, 2, 2, 2,
        // 0x06 MethodDef
        14, 16, 14, 16, 16, 18, 16, 18,
        // 0x07 ParamPtr
        2, 2, 2, 2, 2, 2, 2, 2,
        // 0x08 Param
        6, 8, 6, 8, 6, 8, 6, 8,
        // 0x09 InterfaceImpl
        4, 4, 4, 4, 4, 4, 4, 4,
        // 0x0A MemberRef
        8, 10, 8, 10, 10, 12, 10, 12,
        // 0x0B Constant
        6, 6, 6, 6, 8, 8, 8, 8,
        // 0x0C CustomAttribute
        8, 8, 8, 8, 10, 10, 10, 10,
        // 0x0D FieldMarshal
        4, 4, 4, 4, 6, 6, 6, 6,
        // 0x0E DeclSecurity
        6, 6, 6, 6, 8, 8, 8, 8,
        // 0x0F ClassLayout
        8, 8, 8, 8, 8, 8, 8, 8,
        // 0x10 FieldLayout
        6, 6, 6, 6, 6, 6, 6, 6,
        // 0x11 StandAloneSig
        2, 2, 2, 2, 4, 4, 4, 4,
        // 0x12 EventMap
        4, 4, 4, 4, 4, 4, 4, 4,
        // 0x13 EventPtr
        2, 2, 2, 2, 2, 2, 2, 2,
        // 0x14 Event
        6, 8, 6, 8, 6, 8, 6, 8,
        // 0x15 PropertyMap
        4, 4, 4, 4, 4, 4, 4, 4,
        // 0x16 PropertyPtr
        2, 2, 2, 2, 2, 2, 2, 2,
        // 0x17 Property
        6, 8, 6, 8, 8, 10, 8, 10,
        // 0x18 MethodSemantics
        6, 6, 6, 6, 6, 6, 6, 6,
        // 0x19 MethodImpl
        6, 6, 6, 6, 6, 6, 6, 6,
        // 0x1A ModuleRef
        2, 4, 2, 4, 2, 4, 2, 4,
        // 0x1B TypeSpec
        2, 2, 2, 2, 4, 4, 4, 4,
        // 0x1C ImplMap
        8, 10, 8, 10, 8, 10, 8, 10,
        // 0x1D FieldRVA
        6, 6, 6, 6, 6, 6, 6, 6,
        // 0x1E EncLog
        8, 8, 8, 8, 8, 8, 8, 8,
        // 0x1F EncMap
        4, 4, 4, 4, 4, 4, 4, 4,
        // 0x20 Assembly
        22, 26, 22, 26, 24, 28, 24, 28,
        // 0x21 AssemblyProcessor
        4, 4, 4, 4, 4, 4, 4, 4,
        // 0x22 AssemblyOS
        12, 12, 12, 12, 12, 12, 12, 12,
        // 0x23 AssemblyRef
        20, 24, 20, 24, 24, 28, 24, 28,
        // 0x24 AssemblyRefProcessor
        6, 6, 6, 6, 6, 6, 6, 6,
        // 0x25 AssemblyRefOS
        14, 14, 14, 14, 14, 14, 14, 14,
        // 0x26 File
        8, 10, 8, 10, 10, 12, 10, 12,
        // 0x27 ExportedType
        14, 18, 14, 18, 14, 18, 14, 18,
        // 0x28 ManifestResource
        12, 14, 12, 14, 12, 14, 12, 14,
        // 0x29 NestedClass
        4, 4, 4, 4, 4, 4, 4, 4,
        // 0x2A GenericParam
        8, 10, 8, 10, 8, 10, 8, 10,
        // 0x2B MethodSpec
        4, 4, 4, 4, 6, 6, 6, 6,
        // 0x2C GenericParamConstraint
        4, 4, 4, 4, 4, 4, 4, 4,
    ],
    // all three have
    [
        // 0x00 Module
        10, 12, 16, 18, 10, 12, 16, 18,
        // 0x01 TypeRef
        6, 10, 6, 10, 6, 10, 6, 10,
        // 0x02 TypeDef
        14, 18, 14, 18, 14, 18, 14, 18,
        // 0x03 FieldPtr
        2, 2, 2, 2, 2, 2, 2, 2,
        // 0x04 Field
        6, 8, 6, 8, 8, 10, 8, 10,
        // 0x05 MethodPtr
        2, 2, 2, 2, 2, 2, 2, 2,
        // 0x06 MethodDef
        14, 16, 14, 16, 16, 18, 16, 18,
        // 0x07 ParamPtr
        2, 2, 2, 2, 2, 2, 2, 2,
        // 0x08 Param
        6, 8, 6, 8, 6, 8, 6, 8,
        // 0x09 InterfaceImpl
        4, 4, 4, 4, 4, 4, 4, 4,
        // 0x0A MemberRef
        8, 10, 8, 10, 10, 12, 10, 12,
        // 0x0B Constant
        6, 6, 6, 6, 8, 8, 8, 8,
        // 0x0C CustomAttribute
        10, 10, 10, 10, 12, 12, 12, 12,
        // 0x0D FieldMarshal
        4, 4, 4, 4, 6, 6, 6, 6,
        // 0x0E DeclSecurity
        6, 6, 6, 6, 8, 8, 8, 8,
        // 0x0F ClassLayout
        8, 8, 8, 8, 8, 8, 8, 8,
        // 0x10 FieldLayout
        6, 6, 6, 6, 6, 6, 6, 6,
        // 0x11 StandAloneSig
        2, 2, 2, 2, 4, 4, 4, 4,
        // 0x12 EventMap
        4, 4, 4, 4, 4, 4, 4, 4,
        // 0x13 EventPtr
        2, 2, 2, 2, 2, 2, 2, 2,
        // 0x14 Event
        6, 8, 6, 8, 6, 8, 6, 8,
        // 0x15 PropertyMap
        4, 4, 4, 4, 4, 4, 4, 4,
        // 0x16 PropertyPtr
        2, 2, 2, 2, 2, 2, 2, 2,
        // 0x17 Property
        6, 8, 6, 8, 8, 10, 8, 10,
        // 0x18 MethodSemantics
        6, 6, 6, 6, 6, 6, 6, 6,
        // 0x19 MethodImpl
        6, 6, 6, 6, 6, 6, 6, 6,
        // 0x1A ModuleRef
        2, 4, 2, 4, 2, 4, 2, 4,
        // 0x1B TypeSpec
        2, 2, 2, 2, 4, 4, 4, 4,
        // 0x1C ImplMap
        8, 10, 8, 10, 8, 10, 8, 10,
        // 0x1D FieldRVA
        6, 6, 6, 6, 6, 6, 6, 6,
        // 0x1E EncLog
        8, 8, 8, 8, 8, 8, 8, 8,
        // 0x1F EncMap
        4, 4, 4, 4, 4, 4, 4, 4,
        // 0x20 Assembly
        22, 26, 22, 26, 24, 28, 24, 28,
        // 0x21 AssemblyProcessor
        4, 4, 4, 4, 4, 4, 4, 4,
        // 0x22 AssemblyOS
        12, 12, 12, 12, 12, 12, 12, 12,
        // 0x23 AssemblyRef
        20, 24, 20, 24, 24, 28, 24, 28,
        // 0x24 AssemblyRefProcessor
        6, 6, 6, 6, 6, 6, 6, 6,
        // 0x25 AssemblyRefOS
        14, 14, 14, 14, 14, 14, 14, 14,
        // 0x26 File
        8, 10, 8, 10, 10, 12, 10, 12,
        // 0x27 ExportedType
        14, 18, 14, 18, 14, 18, 14, 18,
        // 0x28 ManifestResource
        12, 14, 12, 14, 12, 14, 12, 14,
        // 0x29 NestedClass
        4, 4, 4, 4, 4, 4, 4, 4,
        // 0x2A GenericParam
        8, 10, 8, 10, 8, 10, 8, 10,
        // 0x2B MethodSpec
        4, 4, 4, 4, 6, 6, 6, 6,
        // 0x2C GenericParamConstraint
        4, 4, 4, 4, 4, 4, 4, 4, // the last entry
    ],
];

// The part of a setting of the coded indices.
#[tactic(auto, using(crate::proofs::Table::whole))]
pub fn row_block(coded: usize) -> &'static [u8; 360]
    requires { coded < 8 }
    ensures { result.now ≡ get_or row_table coded [] }
{
    &ROW_SIZES[coded]
}
