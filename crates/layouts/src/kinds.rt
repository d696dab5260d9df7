// The numbers of the tables that index sizes depend on and of those whose columns are read, named as in the Rust's `table_type`.

// II.22.30
pub const MODULE: usize = 0x00;
// II.22.38
pub const TYPE_REF: usize = 0x01;
// II.22.37
pub const TYPE_DEF: usize = 0x02;
// II.22.15
pub const FIELD: usize = 0x04;
// II.22.26
pub const METHOD_DEF: usize = 0x06;
// II.22.33
pub const PARAM: usize = 0x08;
// II.22.23
pub const INTERFACE_IMPL: usize = 0x09;
// II.22.25
pub const MEMBER_REF: usize = 0x0A;
// II.22.9
pub const CONSTANT: usize = 0x0B;
// II.22.10
pub const CUSTOM_ATTRIBUTE: usize = 0x0C;
// II.22.11
pub const DECL_SECURITY: usize = 0x0E;
// II.22.8
pub const CLASS_LAYOUT: usize = 0x0F;
// II.22.36
pub const STAND_ALONE_SIG: usize = 0x11;
// II.22.13
pub const EVENT: usize = 0x14;
// II.22.34
pub const PROPERTY: usize = 0x17;
// II.22.31
pub const MODULE_REF: usize = 0x1A;
// II.22.39
pub const TYPE_SPEC: usize = 0x1B;
// II.22.2
pub const ASSEMBLY: usize = 0x20;
// II.22.5
pub const ASSEMBLY_REF: usize = 0x23;
// II.22.19
pub const FILE: usize = 0x26;
// II.22.14
pub const EXPORTED_TYPE: usize = 0x27;
// II.22.24
pub const MANIFEST_RESOURCE: usize = 0x28;
// II.22.32
pub const NESTED_CLASS: usize = 0x29;
// II.22.20
pub const GENERIC_PARAM: usize = 0x2A;
// II.22.29
pub const METHOD_SPEC: usize = 0x2B;
// II.22.21
pub const GENERIC_PARAM_CONSTRAINT: usize = 0x2C;
