// The library: every public call, from the crates that prove them. Each takes the streams as lent slices, opens them itself, has no
// precondition, and says its entire reply and, for a name, the entire final buffer. The calls for base types and for what a signature says
// count type bytes: they take an allowance of steps, and say what is left of it.

#![tactic(auto)]

// The walk of the base, the walk over a stream that is opened with given options, and the same by the table of row sizes.
pub use walks::{walk, walk_by_table, walk_with};

// The raw lookup: the very part of the heap that is meant; or why there is none.
pub use heaps::lookup;

// Classes: how many there are, and the full name, flags, packing and size of each.
pub use class_calls::{class_count, class_flags, class_name, class_packing, class_size};

// The generic parameters of a class.
pub use generic_calls::{generic_count, generic_name};

// The base types of a class.
pub use base_calls::{base_count, base_name};

// The methods of a class, and the generic parameters of each.
pub use method_calls::{method_count, method_flags, method_name};
pub use method_generic_calls::{method_generic_count, method_generic_name};

// What the signature of a method says.
pub use signature_calls::{param_count, param_name, param_type, return_type};

// Any call, as a question: for a number, for a name, and within an allowance that is lent.
pub use asks::{ask_name, ask_number, ask_within};
