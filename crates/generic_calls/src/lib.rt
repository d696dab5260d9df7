// The calls for the generic parameters of a class (ECMA-335 II.22.20): how many it has, and their names.

#![tactic(auto)]

ghost use Rattle.buffers.specs.Replies.{Named};
ghost use Rattle.record.specs.View.{view};
ghost use Rattle.record.specs.Answers.{Numbered, generic_count, generic_name};

use buffers::Reply;
use classes::ClassNumber;
use header::Options;
use questions::{NameQuestion, NumberQuestion};

// How many generic parameters a class has.
pub fn generic_count(
    tables: &[u8],
    strings: &[u8],
    blob: &[u8],
    options: Options,
    class: ClassNumber,
) -> Reply
    ensures { let v = view options tables.now strings.now blob.now in
        Numbered (generic_count v class.0) result }
{
    let count = NumberQuestion::GenericCount(class);
    asks::ask_number(tables, strings, blob, options, 0, count).reply
}

// The name of generic parameter g of a class.
pub fn generic_name(
    tables: &[u8],
    strings: &[u8],
    blob: &[u8],
    options: Options,
    class: ClassNumber,
    g: u32,
    buf: &mut [u8],
) -> Reply
    ensures { let v = view options tables.now strings.now blob.now in
        Named (generic_name v class.0 g) buf.old result buf.new }
{
    let name = NameQuestion::GenericName(class, g);
    asks::ask_name(tables, strings, blob, options, 0, name, buf).reply
}
