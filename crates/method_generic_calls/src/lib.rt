// The calls for the generic parameters of a method (ECMA-335 II.22.20): how many it has, and their names.

#![tactic(auto)]

ghost use Rattle.buffers.specs.Replies.{Named};
ghost use Rattle.record.specs.View.{view};
ghost use Rattle.record.specs.Answers.{Numbered, method_generic_count, method_generic_name};

use buffers::Reply;
use classes::ClassNumber;
use header::Options;
use questions::{NameQuestion, NumberQuestion};

// How many generic parameters method m of a class has.
pub fn method_generic_count(
    tables: &[u8],
    strings: &[u8],
    blob: &[u8],
    options: Options,
    class: ClassNumber,
    m: u32,
) -> Reply
    ensures { let v = view options tables.now strings.now blob.now in
        Numbered (method_generic_count v class.0 m) result }
{
    let count = NumberQuestion::MethodGenericCount(class, m);
    asks::ask_number(tables, strings, blob, options, 0, count).reply
}

// The name of generic parameter g of method m of a class.
pub fn method_generic_name(
    tables: &[u8],
    strings: &[u8],
    blob: &[u8],
    options: Options,
    class: ClassNumber,
    m: u32,
    g: u32,
    buf: &mut [u8],
) -> Reply
    ensures { let v = view options tables.now strings.now blob.now in
        Named (method_generic_name v class.0 m g) buf.old result buf.new }
{
    let name = NameQuestion::MethodGenericName(class, m, g);
    asks::ask_name(tables, strings, blob, options, 0, name, buf).reply
}
