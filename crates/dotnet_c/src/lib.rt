// The library for C: each public call of `dotnet`, any call by the number of its question, the listing by pieces, and the type-name
// section, as include/dotnet_tables.h declares them. The options are a set of bits, the numbers of classes, methods, generics, base types and
// parameters are plain, and every answer is a struct of numbers. A call that counts is lent the allowance, and leaves there what is left.

#![tactic(auto)]

ghost use Rattle.std.specs.Prelude.{◌≡◌, length, replicate};
ghost use Rattle.tables.specs.Extents.{walk_of};
ghost use Rattle.record.specs.View.{view};
ghost use Rattle.record.specs.Answers.{class_count, class_flags, class_packing, class_size, class_name, generic_count, generic_name, method_count, method_flags, method_name, method_generic_count, method_generic_name};
ghost use Rattle.record.specs.Answers.{BaseCount, BaseName, ReturnType, ParameterCount, ParameterType, ParameterName};
ghost use Rattle.record.specs.Allowance.{number_charged, name_charged};
ghost use Rattle.listing_steps.specs.Filling.{piece_of};
ghost use Rattle.c_replies.specs.Told.{the_version, told, ToldName, ToldNumberCharged, ToldNameCharged, told_lookup, told_extent};
ghost use Rattle.c_questions.specs.Asked.{options_of, number_asked, name_asked, asked_number, asked_name};
ghost use Rattle.c_listing.specs.Told.{cursor_of, ToldPiece};
ghost use Rattle.name_section.specs.Section.{names};
ghost use Rattle.c_section.specs.Told.{ToldSection};

use buffers::Reason;
use c_listing::{DnCursor, DnPiece};
use c_questions::options_of;
use c_replies::{DnExtent, DnPart, DnReply};
use c_section::DnSection;
use classes::ClassNumber;

// The version of this interface.
#[unsafe(no_mangle)]
pub extern "C" fn dn_version() -> u32
    ensures { result ≡ the_version }
{
    c_replies::version()
}

// The kind at which the walk is left, 64 if there is none.
#[unsafe(no_mangle)]
pub extern "C" fn dn_walk_stop(tables: &[u8], options: u32) -> DnReply
    ensures { result ≡ told (walk_of (options_of options) tables.now).stop }
{
    c_replies::stop_of(dotnet::walk_with(tables, options_of(options)))
}

// Where the table of a kind begins, its row size and its whole rows.
#[unsafe(no_mangle)]
pub extern "C" fn dn_walk_extent(tables: &[u8], options: u32, kind: u32) -> DnExtent
    ensures { result ≡ told_extent (walk_of (options_of options) tables.now) kind }
{
    c_replies::extent_of(dotnet::walk_with(tables, options_of(options)), kind)
}

// The kind at which the walk is left, by the table of row sizes.
#[unsafe(no_mangle)]
pub extern "C" fn dn_walk_stop_by_table(tables: &[u8], options: u32) -> DnReply
    ensures { result ≡ told (walk_of (options_of options) tables.now).stop }
{
    c_replies::stop_of(dotnet::walk_by_table(tables, options_of(options)))
}

// Where the table of a kind begins, by the table of row sizes.
#[unsafe(no_mangle)]
pub extern "C" fn dn_walk_extent_by_table(tables: &[u8], options: u32, kind: u32) -> DnExtent
    ensures { result ≡ told_extent (walk_of (options_of options) tables.now) kind }
{
    c_replies::extent_of(dotnet::walk_by_table(tables, options_of(options)), kind)
}

// The raw lookup, in the strings heap for 0 and the blob heap for 1: the place of the part that `dotnet::lookup` hands back.
#[tactic(auto, unfolding(c_replies::specs::Told::told_lookup))]
#[unsafe(no_mangle)]
pub extern "C" fn dn_lookup(strings: &[u8], blobs: &[u8], which: u32, index: u32) -> DnPart
    ensures { result ≡ told_lookup strings.now blobs.now which index }
{
    match which {
        0 => c_replies::part_of(heaps::get_string(strings, index as usize)),
        1 => c_replies::part_of(heaps::get_blob(blobs, index as usize)),
        _ => c_replies::no_part(Reason::Untold),
    }
}

// How many classes there are.
#[unsafe(no_mangle)]
pub extern "C" fn dn_class_count(
    tables: &[u8],
    strings: &[u8],
    blob: &[u8],
    options: u32,
) -> DnReply
    ensures { let v = view (options_of options) tables.now strings.now blob.now in
        result ≡ told (class_count v) }
{
    c_replies::reply_of(dotnet::class_count(tables, strings, blob, options_of(options)))
}

// The flags of a class (II.23.1.15).
#[unsafe(no_mangle)]
pub extern "C" fn dn_class_flags(
    tables: &[u8],
    strings: &[u8],
    blob: &[u8],
    options: u32,
    class: u32,
) -> DnReply
    ensures { let v = view (options_of options) tables.now strings.now blob.now in
        result ≡ told (class_flags v class) }
{
    c_replies::reply_of(dotnet::class_flags(
        tables,
        strings,
        blob,
        options_of(options),
        ClassNumber(class),
    ))
}

// The packing of a class (II.22.8), as its first ClassLayout row has it.
#[unsafe(no_mangle)]
pub extern "C" fn dn_class_packing(
    tables: &[u8],
    strings: &[u8],
    blob: &[u8],
    options: u32,
    class: u32,
) -> DnReply
    ensures { let v = view (options_of options) tables.now strings.now blob.now in
        result ≡ told (class_packing v class) }
{
    c_replies::reply_of(dotnet::class_packing(
        tables,
        strings,
        blob,
        options_of(options),
        ClassNumber(class),
    ))
}

// Its size, in the same way.
#[unsafe(no_mangle)]
pub extern "C" fn dn_class_size(
    tables: &[u8],
    strings: &[u8],
    blob: &[u8],
    options: u32,
    class: u32,
) -> DnReply
    ensures { let v = view (options_of options) tables.now strings.now blob.now in
        result ≡ told (class_size v class) }
{
    c_replies::reply_of(dotnet::class_size(
        tables,
        strings,
        blob,
        options_of(options),
        ClassNumber(class),
    ))
}

// The full name of a class.
#[unsafe(no_mangle)]
pub extern "C" fn dn_class_name(
    tables: &[u8],
    strings: &[u8],
    blob: &[u8],
    options: u32,
    class: u32,
    buf: &mut [u8],
) -> DnReply
    ensures { let v = view (options_of options) tables.now strings.now blob.now in
        ToldName (class_name v class) buf.old result buf.new }
{
    c_replies::reply_of(dotnet::class_name(
        tables,
        strings,
        blob,
        options_of(options),
        ClassNumber(class),
        buf,
    ))
}

// How many generic parameters a class has.
#[unsafe(no_mangle)]
pub extern "C" fn dn_generic_count(
    tables: &[u8],
    strings: &[u8],
    blob: &[u8],
    options: u32,
    class: u32,
) -> DnReply
    ensures { let v = view (options_of options) tables.now strings.now blob.now in
        result ≡ told (generic_count v class) }
{
    c_replies::reply_of(dotnet::generic_count(
        tables,
        strings,
        blob,
        options_of(options),
        ClassNumber(class),
    ))
}

// The name of generic parameter g of a class.
#[unsafe(no_mangle)]
pub extern "C" fn dn_generic_name(
    tables: &[u8],
    strings: &[u8],
    blob: &[u8],
    options: u32,
    class: u32,
    g: u32,
    buf: &mut [u8],
) -> DnReply
    ensures { let v = view (options_of options) tables.now strings.now blob.now in
        ToldName (generic_name v class g) buf.old result buf.new }
{
    c_replies::reply_of(dotnet::generic_name(
        tables,
        strings,
        blob,
        options_of(options),
        ClassNumber(class),
        g,
        buf,
    ))
}

// How many base types a class has.
#[unsafe(no_mangle)]
pub extern "C" fn dn_base_count(
    tables: &[u8],
    strings: &[u8],
    blob: &[u8],
    options: u32,
    steps: &mut u64,
    class: u32,
) -> DnReply
    ensures { let v = view (options_of options) tables.now strings.now blob.now in
        ToldNumberCharged (number_charged (BaseCount class) v steps.old) result steps.new }
{
    c_replies::reply_charged(
        dotnet::base_count(
            tables,
            strings,
            blob,
            options_of(options),
            *steps,
            ClassNumber(class),
        ),
        steps,
    )
}

// The name of base type b of a class.
#[unsafe(no_mangle)]
pub extern "C" fn dn_base_name(
    tables: &[u8],
    strings: &[u8],
    blob: &[u8],
    options: u32,
    steps: &mut u64,
    class: u32,
    b: u32,
    buf: &mut [u8],
) -> DnReply
    ensures { let v = view (options_of options) tables.now strings.now blob.now in
        ToldNameCharged (name_charged (BaseName class b) v steps.old) buf.old result buf.new steps.new }
{
    c_replies::reply_charged(
        dotnet::base_name(
            tables,
            strings,
            blob,
            options_of(options),
            *steps,
            ClassNumber(class),
            b,
            buf,
        ),
        steps,
    )
}

// How many methods a class has.
#[unsafe(no_mangle)]
pub extern "C" fn dn_method_count(
    tables: &[u8],
    strings: &[u8],
    blob: &[u8],
    options: u32,
    class: u32,
) -> DnReply
    ensures { let v = view (options_of options) tables.now strings.now blob.now in
        result ≡ told (method_count v class) }
{
    c_replies::reply_of(dotnet::method_count(
        tables,
        strings,
        blob,
        options_of(options),
        ClassNumber(class),
    ))
}

// The flags of method m of a class (II.23.1.10).
#[unsafe(no_mangle)]
pub extern "C" fn dn_method_flags(
    tables: &[u8],
    strings: &[u8],
    blob: &[u8],
    options: u32,
    class: u32,
    m: u32,
) -> DnReply
    ensures { let v = view (options_of options) tables.now strings.now blob.now in
        result ≡ told (method_flags v class m) }
{
    c_replies::reply_of(dotnet::method_flags(
        tables,
        strings,
        blob,
        options_of(options),
        ClassNumber(class),
        m,
    ))
}

// The name of method m of a class.
#[unsafe(no_mangle)]
pub extern "C" fn dn_method_name(
    tables: &[u8],
    strings: &[u8],
    blob: &[u8],
    options: u32,
    class: u32,
    m: u32,
    buf: &mut [u8],
) -> DnReply
    ensures { let v = view (options_of options) tables.now strings.now blob.now in
        ToldName (method_name v class m) buf.old result buf.new }
{
    c_replies::reply_of(dotnet::method_name(
        tables,
        strings,
        blob,
        options_of(options),
        ClassNumber(class),
        m,
        buf,
    ))
}

// How many generic parameters method m of a class has.
#[unsafe(no_mangle)]
pub extern "C" fn dn_method_generic_count(
    tables: &[u8],
    strings: &[u8],
    blob: &[u8],
    options: u32,
    class: u32,
    m: u32,
) -> DnReply
    ensures { let v = view (options_of options) tables.now strings.now blob.now in
        result ≡ told (method_generic_count v class m) }
{
    c_replies::reply_of(dotnet::method_generic_count(
        tables,
        strings,
        blob,
        options_of(options),
        ClassNumber(class),
        m,
    ))
}

// The name of generic parameter g of method m of a class.
#[unsafe(no_mangle)]
pub extern "C" fn dn_method_generic_name(
    tables: &[u8],
    strings: &[u8],
    blob: &[u8],
    options: u32,
    class: u32,
    m: u32,
    g: u32,
    buf: &mut [u8],
) -> DnReply
    ensures { let v = view (options_of options) tables.now strings.now blob.now in
        ToldName (method_generic_name v class m g) buf.old result buf.new }
{
    c_replies::reply_of(dotnet::method_generic_name(
        tables,
        strings,
        blob,
        options_of(options),
        ClassNumber(class),
        m,
        g,
        buf,
    ))
}

// The return type of method m of a class.
#[unsafe(no_mangle)]
pub extern "C" fn dn_return_type(
    tables: &[u8],
    strings: &[u8],
    blob: &[u8],
    options: u32,
    steps: &mut u64,
    class: u32,
    m: u32,
    buf: &mut [u8],
) -> DnReply
    ensures { let v = view (options_of options) tables.now strings.now blob.now in
        ToldNameCharged (name_charged (ReturnType class m) v steps.old) buf.old result buf.new steps.new }
{
    c_replies::reply_charged(
        dotnet::return_type(
            tables,
            strings,
            blob,
            options_of(options),
            *steps,
            ClassNumber(class),
            m,
            buf,
        ),
        steps,
    )
}

// How many parameters method m of a class has.
#[unsafe(no_mangle)]
pub extern "C" fn dn_param_count(
    tables: &[u8],
    strings: &[u8],
    blob: &[u8],
    options: u32,
    steps: &mut u64,
    class: u32,
    m: u32,
) -> DnReply
    ensures { let v = view (options_of options) tables.now strings.now blob.now in
        ToldNumberCharged (number_charged (ParameterCount class m) v steps.old) result steps.new }
{
    c_replies::reply_charged(
        dotnet::param_count(
            tables,
            strings,
            blob,
            options_of(options),
            *steps,
            ClassNumber(class),
            m,
        ),
        steps,
    )
}

// The type of parameter p of method m of a class.
#[unsafe(no_mangle)]
pub extern "C" fn dn_param_type(
    tables: &[u8],
    strings: &[u8],
    blob: &[u8],
    options: u32,
    steps: &mut u64,
    class: u32,
    m: u32,
    p: u32,
    buf: &mut [u8],
) -> DnReply
    ensures { let v = view (options_of options) tables.now strings.now blob.now in
        ToldNameCharged (name_charged (ParameterType class m p) v steps.old) buf.old result buf.new steps.new }
{
    c_replies::reply_charged(
        dotnet::param_type(
            tables,
            strings,
            blob,
            options_of(options),
            *steps,
            ClassNumber(class),
            m,
            p,
            buf,
        ),
        steps,
    )
}

// The name of parameter p of method m of a class.
#[unsafe(no_mangle)]
pub extern "C" fn dn_param_name(
    tables: &[u8],
    strings: &[u8],
    blob: &[u8],
    options: u32,
    steps: &mut u64,
    class: u32,
    m: u32,
    p: u32,
    buf: &mut [u8],
) -> DnReply
    ensures { let v = view (options_of options) tables.now strings.now blob.now in
        ToldNameCharged (name_charged (ParameterName class m p) v steps.old) buf.old result buf.new steps.new }
{
    c_replies::reply_charged(
        dotnet::param_name(
            tables,
            strings,
            blob,
            options_of(options),
            *steps,
            ClassNumber(class),
            m,
            p,
            buf,
        ),
        steps,
    )
}

// Any call for a number, by the number of its question.
#[unsafe(no_mangle)]
pub extern "C" fn dn_ask_number(
    tables: &[u8],
    strings: &[u8],
    blob: &[u8],
    options: u32,
    steps: &mut u64,
    question: u32,
    a: u32,
    b: u32,
    c: u32,
) -> DnReply
    ensures { let v = view (options_of options) tables.now strings.now blob.now in
        ToldNumberCharged (asked_number (number_asked question a b) v steps.old) result steps.new }
{
    c_replies::reply_charged(
        c_asks::ask_number(tables, strings, blob, options, *steps, question, a, b, c),
        steps,
    )
}

// Any call for a name, by the number of its question.
#[unsafe(no_mangle)]
pub extern "C" fn dn_ask_name(
    tables: &[u8],
    strings: &[u8],
    blob: &[u8],
    options: u32,
    steps: &mut u64,
    question: u32,
    a: u32,
    b: u32,
    c: u32,
    buf: &mut [u8],
) -> DnReply
    ensures { let v = view (options_of options) tables.now strings.now blob.now in
        ToldNameCharged (asked_name (name_asked question a b c) v steps.old) buf.old result buf.new steps.new }
{
    c_replies::reply_charged(
        c_asks::ask_name(
            tables, strings, blob, options, *steps, question, a, b, c, buf,
        ),
        steps,
    )
}

// A piece of the listing: as many whole lines from a cursor on as the buffer holds. The lent words are there for speed alone, and zero
// after the call.
#[unsafe(no_mangle)]
pub extern "C" fn dn_listing(
    tables: &[u8],
    strings: &[u8],
    blob: &[u8],
    options: u32,
    from: DnCursor,
    work: &mut [u32],
    buf: &mut [u8],
) -> DnPiece
    ensures { let v = view (options_of options) tables.now strings.now blob.now in
        ToldPiece (piece_of v (length buf.old) (cursor_of from)) buf.old result buf.new ×
        (work.new ≡ replicate (length work.old) 0) }
{
    c_listing::listing(tables, strings, blob, options, from, work, buf)
}

// The type-name section, and in the offsets where the slot of each class begins in it.
#[unsafe(no_mangle)]
pub extern "C" fn dn_name_section(
    tables: &[u8],
    strings: &[u8],
    blob: &[u8],
    options: u32,
    section: &mut [u8],
    offsets: &mut [u32],
) -> DnSection
    ensures { let v = view (options_of options) tables.now strings.now blob.now in
        ToldSection (names v) section.old offsets.old result section.new offsets.new }
{
    c_section::name_section(tables, strings, blob, options, section, offsets)
}
