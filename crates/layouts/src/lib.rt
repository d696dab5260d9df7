// How many bytes an index into a heap or a table takes (ECMA-335 II.24.2.6), and with that a row of each table (II.22), and the columns
// that are read. What is listed here, in rows.rt, columns.rt and references.rt is the Rust's; specs/ has it from the standard, and the proofs hold
// the one against the other.

#![tactic(auto)]

pub mod columns;
mod kinds;
pub mod references;
pub mod rows;

ghost use Rattle.std.specs.Prelude.{◌≡◌, Bool, true, [], ◌∷◌, ℕ, ◌+◌, ◌*◌, ◌<◌, ◌≤◌, length, sum};
ghost use Rattle.layouts.specs.Columns.{index_size, has_custom_attribute, index_sizes, coded_setting};
ghost use Rattle.layouts.specs.Lists.{all_below};

// The bytes that an index takes, 2 or 4.
#[derive(Clone, Copy)]
pub struct IndexSizes {
    // into a heap
    pub string: u8,
    pub guid: u8,
    pub blob: u8,

    // into one table
    pub type_def: u8,
    pub field: u8,
    pub method_def: u8,
    pub param: u8,
    pub event: u8,
    pub property: u8,
    pub module_ref: u8,
    pub assembly_ref: u8,
    pub generic_param: u8,

    // into one of several tables, by a tag in the low bits
    pub type_def_or_ref: u8,
    pub has_constant: u8,
    pub has_custom_attribute: u8,
    pub has_field_marshall: u8,
    pub has_decl_security: u8,
    pub member_ref_parent: u8,
    pub has_semantics: u8,
    pub method_def_or_ref: u8,
    pub member_forwarded: u8,
    pub implementation: u8,
    pub custom_attribute_type: u8,
    pub resolution_scope: u8,
    pub type_or_method_def: u8,
}

// An index into a heap, by the heap's bit of the heap sizes. That this is the standard's size is `HeapWidths` in specs/Facts.antt.
fn heap_index_size(bit: u8) -> u8
    requires { bit < 2 }
    ensures { result ≡ 2 + 2 * bit }
{
    2 + 2 * bit
}

// An index into any of these tables, by a tag of so many bits: 4 bytes from 2 ^ (16 - bits) rows of one of them on.
fn coded_index_size(counts: &[u32; 64], bits: u32, tables: &[usize]) -> u8
    requires { (bits ≤ 16) × (all_below 64 tables.now ≡ true) }
    ensures { result ≡ index_size counts.now bits tables.now }
{
    let rows = 1 << (16 - bits);
    if tables.iter().any(|table| rows <= counts[*table]) {
        return 4;
    }
    2
}

// An index into one table: no bits are left to a tag.
fn index_size(counts: &[u32; 64], table: usize) -> u8
    requires { table < 64 }
    ensures { result ≡ index_size counts.now 0 (table ∷ []) }
{
    coded_index_size(counts, 0, &[table])
}

// The standard counts DeclSecurity here, and the Rust does not.
fn has_custom_attribute_size(counts: &[u32; 64], decl_security: bool) -> u8
    ensures { result ≡ index_size counts.now 5 (has_custom_attribute decl_security) }
{
    if decl_security && 2_048 <= counts[kinds::DECL_SECURITY] {
        return 4;
    }
    coded_index_size(
        counts,
        5,
        &[
            kinds::MODULE,
            kinds::TYPE_REF,
            kinds::TYPE_DEF,
            kinds::FIELD,
            kinds::METHOD_DEF,
            kinds::PARAM,
            kinds::INTERFACE_IMPL,
            kinds::MEMBER_REF,
            kinds::STAND_ALONE_SIG,
            kinds::EVENT,
            kinds::PROPERTY,
            kinds::MODULE_REF,
            kinds::TYPE_SPEC,
            kinds::ASSEMBLY,
            kinds::ASSEMBLY_REF,
            kinds::FILE,
            kinds::EXPORTED_TYPE,
            kinds::MANIFEST_RESOURCE,
            kinds::GENERIC_PARAM,
            kinds::METHOD_SPEC,
            kinds::GENERIC_PARAM_CONSTRAINT,
        ],
    )
}

fn member_ref_parent_size(counts: &[u32; 64]) -> u8
    ensures { (decl : Bool) (heap : ℕ) → result ≡ (index_sizes decl heap counts.now).member_ref_parent }
{
    coded_index_size(
        counts,
        3,
        &[
            kinds::TYPE_REF,
            kinds::TYPE_DEF,
            kinds::METHOD_DEF,
            kinds::MODULE_REF,
            kinds::TYPE_SPEC,
        ],
    )
}

fn custom_attribute_type_size(counts: &[u32; 64]) -> u8
    ensures { (decl : Bool) (heap : ℕ) → result ≡ (index_sizes decl heap counts.now).custom_attribute_type }
{
    coded_index_size(counts, 3, &[kinds::METHOD_DEF, kinds::MEMBER_REF])
}

// All sizes, by the heap sizes and the rows of each table.
pub fn index_sizes(heap: u8, counts: &[u32; 64], decl_security: bool) -> IndexSizes
    ensures { result ≡ index_sizes decl_security heap counts.now }
{
    IndexSizes {
        string: heap_index_size(heap % 2),
        guid: heap_index_size(heap / 2 % 2),
        blob: heap_index_size(heap / 4 % 2),
        type_def: index_size(counts, kinds::TYPE_DEF),
        field: index_size(counts, kinds::FIELD),
        method_def: index_size(counts, kinds::METHOD_DEF),
        param: index_size(counts, kinds::PARAM),
        event: index_size(counts, kinds::EVENT),
        property: index_size(counts, kinds::PROPERTY),
        module_ref: index_size(counts, kinds::MODULE_REF),
        assembly_ref: index_size(counts, kinds::ASSEMBLY_REF),
        generic_param: index_size(counts, kinds::GENERIC_PARAM),
        type_def_or_ref: coded_index_size(
            counts,
            2,
            &[kinds::TYPE_REF, kinds::TYPE_DEF, kinds::TYPE_SPEC],
        ),
        has_constant: coded_index_size(counts, 2, &[kinds::FIELD, kinds::PARAM, kinds::PROPERTY]),
        has_custom_attribute: has_custom_attribute_size(counts, decl_security),
        has_field_marshall: coded_index_size(counts, 1, &[kinds::FIELD, kinds::PARAM]),
        has_decl_security: coded_index_size(
            counts,
            2,
            &[kinds::TYPE_DEF, kinds::METHOD_DEF, kinds::ASSEMBLY],
        ),
        member_ref_parent: member_ref_parent_size(counts),
        has_semantics: coded_index_size(counts, 1, &[kinds::EVENT, kinds::PROPERTY]),
        method_def_or_ref: coded_index_size(counts, 1, &[kinds::MEMBER_REF, kinds::METHOD_DEF]),
        member_forwarded: coded_index_size(counts, 1, &[kinds::FIELD, kinds::METHOD_DEF]),
        implementation: coded_index_size(
            counts,
            2,
            &[kinds::FILE, kinds::ASSEMBLY_REF, kinds::EXPORTED_TYPE],
        ),
        custom_attribute_type: custom_attribute_type_size(counts),
        resolution_scope: coded_index_size(
            counts,
            2,
            &[
                kinds::MODULE,
                kinds::MODULE_REF,
                kinds::ASSEMBLY_REF,
                kinds::TYPE_REF,
            ],
        ),
        type_or_method_def: coded_index_size(counts, 1, &[kinds::TYPE_DEF, kinds::METHOD_DEF]),
    }
}

// What the parts of a row take.
fn sum(parts: &[u8]) -> u32
    requires { length parts.now ≤ 6 }
    ensures { result ≡ sum parts.now }
{
    parts.iter().map(|part| u32::from(*part)).sum()
}

// The setting of the three coded indices that can have 4 bytes where no table has more than 15,000 rows: a bit for each that has.
pub fn coded_setting(counts: &[u32; 64], decl_security: bool) -> usize
    ensures { (heap : ℕ) → result ≡ coded_setting (index_sizes decl_security heap counts.now) }
{
    let attribute = has_custom_attribute_size(counts, decl_security) / 4;
    let parent = member_ref_parent_size(counts) / 4;
    let kind = custom_attribute_type_size(counts) / 4;
    usize::from(attribute) + 2 * usize::from(parent) + 4 * usize::from(kind)
}
