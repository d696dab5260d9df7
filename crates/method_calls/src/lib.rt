// The calls for the methods of a class (ECMA-335 II.22.26): how many it has, and the name and flags of each.

#![tactic(auto)]

ghost use Rattle.buffers.specs.Replies.{Named};
ghost use Rattle.record.specs.View.{view};
ghost use Rattle.record.specs.Answers.{Numbered, method_count, method_flags, method_name};

use buffers::Reply;
use classes::ClassNumber;
use header::Options;
use questions::{NameQuestion, NumberQuestion};

// How many methods a class has.
pub fn method_count(
    tables: &[u8],
    strings: &[u8],
    blob: &[u8],
    options: Options,
    class: ClassNumber,
) -> Reply
    ensures { Numbered (method_count (view options tables.now strings.now blob.now) class.0) result }
{
    let count = NumberQuestion::MethodCount(class);
    asks::ask_number(tables, strings, blob, options, 0, count).reply
}

// The flags of method m of a class (II.23.1.10).
pub fn method_flags(
    tables: &[u8],
    strings: &[u8],
    blob: &[u8],
    options: Options,
    class: ClassNumber,
    m: u32,
) -> Reply
    ensures { let v = view options tables.now strings.now blob.now in
        Numbered (method_flags v class.0 m) result }
{
    let flags = NumberQuestion::MethodFlags(class, m);
    asks::ask_number(tables, strings, blob, options, 0, flags).reply
}

// The name of method m of a class.
pub fn method_name(
    tables: &[u8],
    strings: &[u8],
    blob: &[u8],
    options: Options,
    class: ClassNumber,
    m: u32,
    buf: &mut [u8],
) -> Reply
    ensures { let v = view options tables.now strings.now blob.now in
        Named (method_name v class.0 m) buf.old result buf.new }
{
    let name = NameQuestion::MethodName(class, m);
    asks::ask_name(tables, strings, blob, options, 0, name, buf).reply
}
