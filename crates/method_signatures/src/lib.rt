// The signatures of methods (ECMA-335 II.23.2.1): whose reading of a method's signature stands (`finalize`, its first pass), the return
// type that it finds, and the types of the parameters behind it. What is known of a signature goes in and out by value, so that the next
// question about the same method goes on where the last one left off. It is true whatever is asked next: a question first looks whether
// it is about the method that is meant, and the class that takes it, by one number for both, and else finds out anew.

#![tactic(auto)]

ghost use Rattle.std.specs.Prelude.{◌≡◌, true, ◌&&◌, ◌||◌, List, ℕ, ◌+◌, ◌<◌, ◌≤◌, leb, ltb, length};
ghost use Rattle.std.proofs.Math.Option.{none};
ghost use Rattle.buffers.specs.Writes.{Said, place_says};
ghost use Rattle.buffers.specs.Replies.{name_or_5};
ghost use Rattle.buffers.specs.Telling.{ToldIs};
ghost use Rattle.record.specs.View.{View};
ghost use Rattle.record.specs.Names.{levels};
ghost use Rattle.record.specs.Types.{type};
ghost use Rattle.record.specs.Methods.{read_by, read_steps, signature_in, steps_in, parameter_name};
ghost use Rattle.record.specs.Record.{method};
ghost use Rattle.record.specs.Answers.{◌⟫◌, item};
ghost use Rattle.rows.specs.Columns as columns;
ghost use Rattle.rows.specs.Layout.{Laid, rows_at, is_marked, view_in};
ghost use Rattle.signatures.specs.Environment.{env_in};
ghost use Rattle.steps.specs.Counting.{Takes};
ghost use Rattle.method_signatures.specs.Signatures.{behind, FirstIn, ReaderIs, NextIn, ReadingIs};
ghost use Rattle.method_signatures.specs.Known.{key_of, KnowsSignature, About, known_behind, read_more};

use buffers::{Reason, Told, Unnamed};
use classes::ClassNumber;
use heaps::Span;
use numbers::wide;
use rows::columns;
use sig_leaves::{LEVELS, Owner};

// A method's signature as a class reads it: the class as an owner of generic parameters, where in the blob heap the signature stands, the
// position behind the return type, the number of parameters, and the place behind the return type's text in the buffer.
#[derive(Clone, Copy, Debug, PartialEq, Eq)]
pub struct Reading {
    pub owner: usize,
    pub start: usize,
    pub len: usize,
    pub next: usize,
    pub count: u32,
    pub end: usize,
}

// The signature of a method, as far as the types of some of its parameters have been read.
#[derive(Clone, Copy, Debug, PartialEq, Eq)]
pub struct Signature {
    // the class that takes the method, and the method, as one number (`key_of`); 0 where no signature is known
    pub method: usize,
    // whose class reads it, as an owner of generic parameters, and where in the blob heap it stands
    pub owner: usize,
    pub start: usize,
    pub len: usize,
    // how many parameters it has, how many of their types have been read, and the position behind these
    pub count: usize,
    pub read: usize,
    pub next: usize,
}

// What an answer came to, and what is known of the signature after it.
#[derive(Clone, Copy, Debug, PartialEq, Eq)]
pub struct Typed {
    pub told: Told,
    pub signature: Signature,
}

// More than any table has rows, so that the methods of one class are numbered apart from those of another.
const METHODS: usize = 4_294_967_296;

// A class's reading of method m's signature, with the return type at a place.
fn read_by(
    buf: &mut [u8],
    at: usize,
    tables: &[u8],
    strings: &[u8],
    blob: &[u8],
    layout: &[u32],
    m: usize,
    class: ClassNumber,
) -> Option<Reading>
    requires laid { Laid tables.now layout.now }
    requires m_bound { m < rows_at layout.now columns.method_signature }
    ensures { let v = view_in tables.now layout.now strings.now blob.now in
        ReadingIs v blob.now m (read_by v m class.0) buf.old at buf.new result }
{
    let index = rows::read_column(tables, layout, columns::METHOD_SIGNATURE, m);
    let Span { start, len } = heaps::get_blob(blob, index as usize).ok()?;
    let sig = numbers::cut(blob, start, len);
    let owner = classes::owner_of(class);
    let (count, first) = sig_leaves::read_method_start(sig, 0).ok()?;
    let (end, next) = signatures::parse_sig_type(
        buf,
        at,
        tables,
        strings,
        blob,
        layout,
        Some(owner),
        Some(2 * (m + 1) + 1),
        sig,
        first,
        LEVELS,
    )
    .ok()?;
    Some(Reading {
        owner,
        start,
        len,
        next,
        count,
        end,
    })
}

// Whether the methods from first up to an end have m.
fn has_method(first: usize, end: usize, m: usize) -> bool
    ensures { result ≡ (leb first m && ltb m end) }
{
    first <= m && m < end
}

// The class with which the search for the readers of method m begins: in the mode of the taker the one that takes it, and else one before
// which none reads it. Where MethodList is known to ascend, that is the class that has the method, if it begins at or below m.
fn first_reader(tables: &[u8], layout: &[u32], taker: ClassNumber, m: usize) -> ClassNumber
    requires laid { Laid tables.now layout.now }
    requires m_bound { m < rows_at layout.now columns.method_signature }
    ensures { (strings blob : List ℕ) → FirstIn (view_in tables.now layout.now strings blob) taker.0 m result.0 }
{
    if rows::is_taker(layout) {
        return taker;
    }
    let place = classes::place_of(taker);
    if rows::is_marked(layout, columns::METHOD_LIST)
        && place < rows::count_rows(layout, columns::METHOD_LIST)
    {
        let column = rows::read_column(tables, layout, columns::METHOD_LIST, place) as usize;
        if column <= m + 1 {
            return taker;
        }
    }
    ClassNumber(0)
}

// The first class from one on that reads method m. A class reads from its first method up to that of the next class whose MethodList
// column is not 0, so it is known to read m once that one is met.
fn next_reader(
    tables: &[u8],
    layout: &[u32],
    m: usize,
    from: ClassNumber,
) -> Option<(ClassNumber, ClassNumber)>
    requires laid { Laid tables.now layout.now }
    requires m_bound { m < rows_at layout.now columns.method_signature }
    ensures { (strings blob : List ℕ) → ReaderIs (view_in tables.now layout.now strings blob) m from.0 result }
{
    let n = rows::count_rows(layout, columns::METHOD_LIST);
    let mut class = from;
    let mut first = m + 1;
    let mut place = classes::place_of(from);
    // A `while`, for speed: as a `for` over the places a search takes half as much again.
    while place < n {
        let column = rows::read_column(tables, layout, columns::METHOD_LIST, place) as usize;
        let next = classes::class_at(place);
        place += 1;
        if column != 0 {
            if has_method(first, column - 1, m) {
                return Some((class, next));
            }
            class = next;
            first = column - 1;
        }
    }
    if first <= m {
        return Some((class, classes::class_at(place)));
    }
    None
}

// The same by the mode: in that of the taker the class itself reads the method, and no other does.
fn next_in_mode(
    tables: &[u8],
    layout: &[u32],
    m: usize,
    class: ClassNumber,
) -> Option<(ClassNumber, ClassNumber)>
    requires laid { Laid tables.now layout.now }
    requires m_bound { m < rows_at layout.now columns.method_signature }
    ensures { (strings blob : List ℕ) → NextIn (view_in tables.now layout.now strings blob) m class result }
{
    if rows::is_taker(layout) {
        return Some((class, class));
    }
    next_reader(tables, layout, m, class)
}

// The signature of method m, which that class takes, with the return type at a place: of the classes that read it by the mode, the lowest
// whose reading succeeds. Where it is known to be read at most once, none is sought behind the first.
fn read_signature(
    buf: &mut [u8],
    at: usize,
    tables: &[u8],
    strings: &[u8],
    blob: &[u8],
    layout: &[u32],
    taker: ClassNumber,
    m: usize,
) -> Option<Reading>
    requires laid { Laid tables.now layout.now }
    requires m_bound { m < rows_at layout.now columns.method_signature }
    ensures { let v = view_in tables.now layout.now strings.now blob.now in
        ReadingIs v blob.now m (signature_in v taker.0 m) buf.old at buf.new result }
{
    let alone = is_read_once(layout);
    let mut class = first_reader(tables, layout, taker, m);
    loop {
        let (reader, after) = next_in_mode(tables, layout, m, class)?;
        let reading = read_by(buf, at, tables, strings, blob, layout, m, reader);
        if alone || reading.is_some() {
            return reading;
        }
        class = after;
    }
}

// How many parameters method m has. The text of its return type goes to a buffer of one byte, since only its length is counted.
pub fn count_params(
    tables: &[u8],
    strings: &[u8],
    blob: &[u8],
    layout: &[u32],
    taker: ClassNumber,
    m: usize,
) -> usize
    requires laid { Laid tables.now layout.now }
    requires m_bound { m < rows_at layout.now columns.method_signature }
    ensures { let v = view_in tables.now layout.now strings.now blob.now in
        result ≡ length (method v taker.0 m).parameters }
{
    let mut space = [0u8; 1];
    match read_signature(&mut space, 0, tables, strings, blob, layout, taker, m) {
        Some(reading) => wide(reading.count),
        None => 0,
    }
}

// The position behind the types of so many parameters.
fn skip_types(
    buf: &mut [u8],
    tables: &[u8],
    strings: &[u8],
    blob: &[u8],
    layout: &[u32],
    class: Owner,
    method: Owner,
    sig: &[u8],
    pos: usize,
    count: usize,
) -> usize
    requires { Laid tables.now layout.now }
    ensures { let e = env_in tables.now layout.now strings.now blob.now class method in
        (result ≡ behind (type e levels) count sig.now pos) × (length buf.new ≡ length buf.old) }
{
    let mut p = pos;
    for _i in 0..count {
        match signatures::parse_sig_type(
            buf, 0, tables, strings, blob, layout, class, method, sig, p, LEVELS,
        ) {
            Ok((_, next)) | Err(next) => {
                p = next;
            }
        }
    }
    p
}

// The class that takes a method, and the method, as one number, which is not 0: no other two have it.
fn key_of(taker: ClassNumber, m: usize) -> usize
    requires { m + 1 < 4294967296 }
    ensures { result ≡ key_of taker.0 m }
{
    wide(taker.0) * METHODS + m + 1
}

// No signature is known.
pub fn no_signature() -> Signature
    ensures { (v : View) (heap : List ℕ) → KnowsSignature v heap result }
{
    Signature {
        method: 0,
        owner: 0,
        start: 0,
        len: 0,
        count: 0,
        read: 0,
        next: 0,
    }
}

// Method m is known to have no signature: no types, however many have been read.
fn unread_signature(taker: ClassNumber, m: usize, read: usize) -> Signature
    requires { m + 1 < 4294967296 }
    ensures { ((v : View) (heap : List ℕ) → signature_in v taker.0 m ≡ none → KnowsSignature v heap result) × About result taker.0 m × (result.read ≡ read) }
{
    Signature {
        method: key_of(taker, m),
        owner: 0,
        start: 0,
        len: 0,
        count: 0,
        read,
        next: 0,
    }
}

// What a reading of method m found, behind so many types, whose end is at a position.
fn known_behind(
    reading: Reading,
    taker: ClassNumber,
    m: usize,
    read: usize,
    next: usize,
) -> Signature
    requires { m + 1 < 4294967296 }
    ensures { result ≡ known_behind reading taker.0 m read next }
{
    Signature {
        method: key_of(taker, m),
        owner: reading.owner,
        start: reading.start,
        len: reading.len,
        count: wide(reading.count),
        read,
        next,
    }
}

// What the answer for the return type of method m comes to at a place.
pub fn tell_return_type(
    buf: &mut [u8],
    at: usize,
    tables: &[u8],
    strings: &[u8],
    blob: &[u8],
    layout: &[u32],
    taker: ClassNumber,
    m: usize,
) -> Typed
    requires laid { Laid tables.now layout.now }
    requires m_bound { m < rows_at layout.now columns.method_signature }
    ensures { let v = view_in tables.now layout.now strings.now blob.now in
        ToldIs (name_or_5 (method v taker.0 m).returns) buf.old at buf.new result.told ×
        KnowsSignature v blob.now result.signature }
{
    let Some(reading) = read_signature(buf, at, tables, strings, blob, layout, taker, m) else {
        let told = Err(Unnamed::Missing(Reason::Untold));
        let signature = unread_signature(taker, m, 0);
        return Typed { told, signature };
    };
    Typed {
        told: Ok(reading.end),
        signature: known_behind(reading, taker, m, 0, reading.next),
    }
}

// The signature of method m behind the types of p parameters, read from its beginning. The texts go to a buffer of one byte.
fn find_signature(
    tables: &[u8],
    strings: &[u8],
    blob: &[u8],
    layout: &[u32],
    taker: ClassNumber,
    m: usize,
    p: u32,
) -> Signature
    requires laid { Laid tables.now layout.now }
    requires m_bound { m < rows_at layout.now columns.method_signature }
    ensures { let v = view_in tables.now layout.now strings.now blob.now in
        KnowsSignature v blob.now result × About result taker.0 m × (result.read ≡ p) }
{
    let mut space = [0u8; 1];
    let read = wide(p);
    let Some(reading) = read_signature(&mut space, 0, tables, strings, blob, layout, taker, m)
    else {
        return unread_signature(taker, m, read);
    };
    if reading.count <= p {
        return known_behind(reading, taker, m, read, reading.next);
    }
    let sig = numbers::cut(blob, reading.start, reading.len);
    let behind = skip_types(
        &mut space,
        tables,
        strings,
        blob,
        layout,
        Some(reading.owner),
        Some(2 * (m + 1) + 1),
        sig,
        reading.next,
        read,
    );
    known_behind(reading, taker, m, read, behind)
}

// Whether what is known is about method m, which that class takes.
fn is_about(known: Signature, taker: ClassNumber, m: usize) -> bool
    requires { m + 1 < 4294967296 }
    ensures { result ≡ true → About known taker.0 m }
{
    known.method == key_of(taker, m)
}

// The same, by what is known.
fn signature_at(
    tables: &[u8],
    strings: &[u8],
    blob: &[u8],
    layout: &[u32],
    taker: ClassNumber,
    m: usize,
    p: u32,
    known: Signature,
) -> Signature
    requires laid { Laid tables.now layout.now }
    requires m_bound { m < rows_at layout.now columns.method_signature }
    requires knows_signature { KnowsSignature (view_in tables.now layout.now strings.now blob.now) blob.now known }
    ensures { let v = view_in tables.now layout.now strings.now blob.now in
        KnowsSignature v blob.now result × About result taker.0 m × (result.read ≡ p) }
{
    if is_about(known, taker, m) && known.read == wide(p) {
        return known;
    }
    find_signature(tables, strings, blob, layout, taker, m, p)
}

// The same, behind the types of any number of parameters.
fn signature_of(
    tables: &[u8],
    strings: &[u8],
    blob: &[u8],
    layout: &[u32],
    taker: ClassNumber,
    m: usize,
    known: Signature,
) -> Signature
    requires laid { Laid tables.now layout.now }
    requires m_bound { m < rows_at layout.now columns.method_signature }
    requires knows_signature { KnowsSignature (view_in tables.now layout.now strings.now blob.now) blob.now known }
    ensures { let v = view_in tables.now layout.now strings.now blob.now in
        KnowsSignature v blob.now result × About result taker.0 m }
{
    if is_about(known, taker, m) {
        return known;
    }
    find_signature(tables, strings, blob, layout, taker, m, 0)
}

// One more type has been read.
fn read_more(known: Signature, after: usize) -> Signature
    requires { known.read < 4294967296 }
    ensures { result ≡ read_more known after }
{
    Signature {
        read: known.read + 1,
        next: after,
        ..known
    }
}

// What the answer for the type of parameter p of method m comes to at a place, where the types before it have been read.
fn tell_next_type(
    buf: &mut [u8],
    at: usize,
    tables: &[u8],
    strings: &[u8],
    blob: &[u8],
    layout: &[u32],
    taker: ClassNumber,
    m: usize,
    p: u32,
    known: Signature,
) -> Typed
    requires laid { Laid tables.now layout.now }
    requires m_bound { m < rows_at layout.now columns.method_signature }
    requires knows_signature { KnowsSignature (view_in tables.now layout.now strings.now blob.now) blob.now known × About known taker.0 m ×
        (known.read ≡ p) }
    ensures { let v = view_in tables.now layout.now strings.now blob.now in
        ToldIs (item (method v taker.0 m).parameters p ⟫ (λ k. name_or_5 k.type)) buf.old at buf.new result.told ×
        KnowsSignature v blob.now result.signature }
{
    if known.count <= known.read {
        return Typed {
            told: Err(Unnamed::NoRow),
            signature: known,
        };
    }
    let sig = numbers::cut(blob, known.start, known.len);
    match signatures::parse_sig_type(
        buf,
        at,
        tables,
        strings,
        blob,
        layout,
        Some(known.owner),
        Some(2 * (m + 1) + 1),
        sig,
        known.next,
        LEVELS,
    ) {
        Ok((end, next)) => Typed {
            told: Ok(end),
            signature: read_more(known, next),
        },
        Err(next) => Typed {
            told: Err(Unnamed::Missing(Reason::Untold)),
            signature: read_more(known, next),
        },
    }
}

// What the answer for the type of parameter p of method m comes to at a place.
pub fn tell_param_type(
    buf: &mut [u8],
    at: usize,
    tables: &[u8],
    strings: &[u8],
    blob: &[u8],
    layout: &[u32],
    taker: ClassNumber,
    m: usize,
    p: u32,
    known: Signature,
) -> Typed
    requires laid { Laid tables.now layout.now }
    requires m_bound { m < rows_at layout.now columns.method_signature }
    requires knows_signature { KnowsSignature (view_in tables.now layout.now strings.now blob.now) blob.now known }
    ensures { let v = view_in tables.now layout.now strings.now blob.now in
        ToldIs (item (method v taker.0 m).parameters p ⟫ (λ k. name_or_5 k.type)) buf.old at buf.new result.told ×
        KnowsSignature v blob.now result.signature }
{
    let signature = signature_at(tables, strings, blob, layout, taker, m, p, known);
    tell_next_type(
        buf, at, tables, strings, blob, layout, taker, m, p, signature,
    )
}

// Append the name of parameter p of method m (II.22.33, `parse_params`): none where the method has no ParamList column.
fn push_param_name(
    buf: &mut [u8],
    at: usize,
    tables: &[u8],
    strings: &[u8],
    layout: &[u32],
    m: usize,
    p: u32,
) -> Option<usize>
    requires laid { Laid tables.now layout.now }
    requires m_bound { m < rows_at layout.now columns.param_list }
    ensures { (blob : List ℕ) → Said buf.old at buf.new
        (parameter_name (view_in tables.now layout.now strings.now blob) m p) (place_says result) }
{
    let first = rows::read_column(tables, layout, columns::PARAM_LIST, m) as usize;
    let place = p as usize;
    if first == 0 {
        return None;
    }
    if rows::count_rows(layout, columns::PARAM_NAME) < first + place {
        let end = buffers::push(buf, at, b"P_");
        return Some(buffers::push_decimal(buf, end, place));
    }
    match rows::read_string(
        tables,
        strings,
        layout,
        columns::PARAM_NAME,
        first + place - 1,
    ) {
        Ok(Span { start, len }) => {
            let name = numbers::cut(strings, start, len);
            Some(buffers::push(buf, at, name))
        }
        Err(_) => Some(buffers::push(buf, at, b"")),
    }
}

// What the answer for the name of parameter p of method m comes to at a place.
pub fn tell_param_name(
    buf: &mut [u8],
    at: usize,
    tables: &[u8],
    strings: &[u8],
    blob: &[u8],
    layout: &[u32],
    taker: ClassNumber,
    m: usize,
    p: u32,
    known: Signature,
) -> Typed
    requires laid { Laid tables.now layout.now }
    requires m_bound { m < rows_at layout.now columns.method_signature }
    requires knows_signature { KnowsSignature (view_in tables.now layout.now strings.now blob.now) blob.now known }
    ensures { let v = view_in tables.now layout.now strings.now blob.now in
        ToldIs (item (method v taker.0 m).parameters p ⟫ (λ k. name_or_5 k.name)) buf.old at buf.new result.told ×
        KnowsSignature v blob.now result.signature }
{
    let signature = signature_of(tables, strings, blob, layout, taker, m, known);
    if signature.count <= wide(p) {
        return Typed {
            told: Err(Unnamed::NoRow),
            signature,
        };
    }
    let place = push_param_name(buf, at, tables, strings, layout, m, p);
    let told = buffers::told_by(place);
    Typed { told, signature }
}

// What a class's reading of method m's whole signature takes of the steps.
fn pass_by(
    tables: &[u8],
    strings: &[u8],
    blob: &[u8],
    layout: &[u32],
    m: usize,
    class: ClassNumber,
    steps: u64,
) -> Option<u64>
    requires laid { Laid tables.now layout.now }
    requires m_bound { m < rows_at layout.now columns.method_signature }
    ensures { let v = view_in tables.now layout.now strings.now blob.now in
        Takes (read_steps v m class.0) steps result }
{
    let index = rows::read_column(tables, layout, columns::METHOD_SIGNATURE, m);
    let Ok(Span { start, len }) = heaps::get_blob(blob, index as usize) else {
        return Some(steps);
    };
    let sig = numbers::cut(blob, start, len);
    let passed = passing::pass_signature(
        tables,
        strings,
        blob,
        layout,
        Some(classes::owner_of(class)),
        Some(2 * (m + 1) + 1),
        sig,
        steps,
    );
    passing::steps_left(passed)
}

// What the readings of method m's signature take of the steps, where that class takes the method: those of all classes that read it by the
// mode. Where it is known to be read at most once, none is sought behind the first.
pub fn pass_readings(
    tables: &[u8],
    strings: &[u8],
    blob: &[u8],
    layout: &[u32],
    taker: ClassNumber,
    m: usize,
    steps: u64,
) -> Option<u64>
    requires laid { Laid tables.now layout.now }
    requires m_bound { m < rows_at layout.now columns.method_signature }
    ensures { let v = view_in tables.now layout.now strings.now blob.now in
        Takes (steps_in v taker.0 m) steps result }
{
    let alone = is_read_once(layout);
    let mut class = first_reader(tables, layout, taker, m);
    let mut have = steps;
    while let Some((reader, after)) = next_in_mode(tables, layout, m, class) {
        have = pass_by(tables, strings, blob, layout, m, reader, have)?;
        if alone {
            return Some(have);
        }
        class = after;
    }
    Some(have)
}

// Whether each method that a class takes is known to be read at most once.
pub fn is_read_once(layout: &[u32]) -> bool
    requires { columns.size ≤ length layout.now }
    ensures { let l = layout.now in
        ((tables strings blob : List ℕ) → result ≡ ((view_in tables l strings blob).taker || is_marked l columns.method_list)) }
{
    rows::is_taker(layout) || rows::is_marked(layout, columns::METHOD_LIST)
}

// Whether so many steps surely suffice for the readings of method m, whichever class takes it, as far as the bytes of its signature show
// it and it is known to be read at most once.
pub fn surely_fits(tables: &[u8], blob: &[u8], layout: &[u32], m: usize, steps: u64) -> bool
    requires laid { Laid tables.now layout.now }
    requires m_bound { m < rows_at layout.now columns.method_signature }
    ensures { (strings : List ℕ) (c : ℕ) → result ≡ true → steps_in
        (view_in tables.now layout.now strings blob.now) c m ≤ steps }
{
    if !is_read_once(layout) {
        return false;
    }
    let index = rows::read_column(tables, layout, columns::METHOD_SIGNATURE, m);
    let Ok(Span { start, len }) = heaps::get_blob(blob, index as usize) else {
        return true;
    };
    passing::surely_suffices(numbers::cut(blob, start, len), steps)
}
