// The calls for classes: how many there are, and the full name, flags, packing and size of each.

#![tactic(auto)]

ghost use Rattle.buffers.specs.Replies.{Named};
ghost use Rattle.record.specs.View.{view};
ghost use Rattle.record.specs.Answers.{Numbered, class_count, class_flags, class_packing, class_size, class_name};

use buffers::Reply;
use classes::ClassNumber;
use header::Options;
use questions::{NameQuestion, NumberQuestion};

// How many classes there are.
pub fn class_count(tables: &[u8], strings: &[u8], blob: &[u8], options: Options) -> Reply
    ensures { Numbered (class_count (view options tables.now strings.now blob.now)) result }
{
    let count = NumberQuestion::ClassCount;
    asks::ask_number(tables, strings, blob, options, 0, count).reply
}

// The flags of a class (II.23.1.15).
pub fn class_flags(
    tables: &[u8],
    strings: &[u8],
    blob: &[u8],
    options: Options,
    class: ClassNumber,
) -> Reply
    ensures { Numbered (class_flags (view options tables.now strings.now blob.now) class.0) result }
{
    let flags = NumberQuestion::ClassFlags(class);
    asks::ask_number(tables, strings, blob, options, 0, flags).reply
}

// The packing of a class (II.22.8), as its first ClassLayout row has it.
pub fn class_packing(
    tables: &[u8],
    strings: &[u8],
    blob: &[u8],
    options: Options,
    class: ClassNumber,
) -> Reply
    ensures { Numbered (class_packing (view options tables.now strings.now blob.now) class.0) result }
{
    let packing = NumberQuestion::ClassPacking(class);
    asks::ask_number(tables, strings, blob, options, 0, packing).reply
}

// Its size, in the same way.
pub fn class_size(
    tables: &[u8],
    strings: &[u8],
    blob: &[u8],
    options: Options,
    class: ClassNumber,
) -> Reply
    ensures { Numbered (class_size (view options tables.now strings.now blob.now) class.0) result }
{
    let size = NumberQuestion::ClassSize(class);
    asks::ask_number(tables, strings, blob, options, 0, size).reply
}

// The full name of a class.
pub fn class_name(
    tables: &[u8],
    strings: &[u8],
    blob: &[u8],
    options: Options,
    class: ClassNumber,
    buf: &mut [u8],
) -> Reply
    ensures { let v = view options tables.now strings.now blob.now in
        Named (class_name v class.0) buf.old result buf.new }
{
    let name = NameQuestion::ClassName(class);
    asks::ask_name(tables, strings, blob, options, 0, name, buf).reply
}
