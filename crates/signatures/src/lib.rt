// The text of types in signatures (ECMA-335 II.23.2.12): the type name, the signature type and the method signature lead into one
// another, as in the Rust. Each call leaves fewer levels, or as many levels and fewer bytes of the signature. Text goes to the lent
// buffer; whether it fits is judged only at the end.

#![tactic(auto)]

ghost use Rattle.std.specs.Prelude.{◌≡◌, true, List, [], ℕ, ◌+◌, ◌<◌, ◌≤◌, length, get_or};
ghost use Rattle.buffers.specs.Writes.{Wrote, Said, place_says};
ghost use Rattle.record.specs.Dims.{sep};
ghost use Rattle.record.specs.Names.{name_at};
ghost use Rattle.record.specs.Readings.{known};
ghost use Rattle.record.specs.Types.{simple, type_full_name, parameters, around, class_type, generic, fn_ptr, array, type};
ghost use Rattle.rows.specs.Layout.{Laid, view_in};
ghost use Rattle.rendering.specs.Rendered.{Rendered};
ghost use Rattle.signatures.specs.Environment.{env_in, env_of};
ghost use Rattle.signatures.specs.Parts.{before, behind, owner_by};
ghost use Rattle.frames.specs.Stack.{Other};
ghost use Rattle.shapes.specs.Runs.{Plain};
ghost use Rattle.sig_leaves.specs.Leaves.{generics_of};

use classes::TypeDefRow;
use frames::Ascent;
use rendering::Rendering;
use sig_leaves::Owner;

// The two owners, which are lent: by value they are copied for each call, which takes 64 bytes more of stack for a nesting.
#[derive(Clone, Copy, Debug, PartialEq, Eq)]
pub struct Owners {
    pub class: Owner,
    pub method: Owner,
}

// Frames for generic types inside of one another: first a few, which suffice nearly always; where they are all in use, many at once, so
// that each takes few bytes of stack.
const FEW: usize = 16;

const MANY: usize = 1024;

// The type at a position, with so many levels left.
pub fn parse_sig_type(
    buf: &mut [u8],
    at: usize,
    tables: &[u8],
    strings: &[u8],
    blob: &[u8],
    layout: &[u32],
    class: Owner,
    method: Owner,
    sig: &[u8],
    pos: usize,
    left: usize,
) -> Rendering
    requires { Laid tables.now layout.now }
    ensures { let e = env_in tables.now layout.now strings.now blob.now class method in
        Rendered (type e left sig.now pos) buf.old at buf.new result }
{
    let owners = Owners { class, method };
    sig_type(
        buf, at, tables, strings, blob, layout, &owners, sig, pos, left,
    )
}

// The name behind a TypeDefOrRef index (II.23.2.8, II.24.2.6), with so many levels left.
pub fn get_type_fullname(
    buf: &mut [u8],
    at: usize,
    tables: &[u8],
    strings: &[u8],
    blob: &[u8],
    layout: &[u32],
    class: Owner,
    method: Owner,
    index: u32,
    left: usize,
) -> Option<usize>
    requires { Laid tables.now layout.now }
    ensures { let e = env_in tables.now layout.now strings.now blob.now class method in
        Said buf.old at buf.new (type_full_name e (type e left) index).got (place_says result) }
{
    let owners = Owners { class, method };
    type_name(buf, at, tables, strings, blob, layout, &owners, index, left)
}

// A separator before all but number 0.
fn push_sep(buf: &mut [u8], at: usize, i: usize, text: &[u8]) -> usize
    ensures { Wrote buf.old at (sep i text.now) buf.new result }
{
    if i == 0 {
        return buffers::push(buf, at, numbers::cut(text, 0, 0));
    }
    buffers::push(buf, at, text)
}

// The type at a position, by the owners. Tags that keep the level and add no text before the type are passed by a loop.
#[cycle(sig)]
fn sig_type(
    buf: &mut [u8],
    at: usize,
    tables: &[u8],
    strings: &[u8],
    blob: &[u8],
    layout: &[u32],
    owners: &Owners,
    sig: &[u8],
    pos: usize,
    left: usize,
) -> Rendering
    requires { Laid tables.now layout.now }
    ensures { let e = env_of tables.now layout.now strings.now blob.now owners.now in
        Rendered (type e left sig.now pos) buf.old at buf.new result }
{
    if sig.len() <= pos {
        return Err(pos);
    }
    if left == 0 {
        return Err(pos + 1);
    }
    let (count, plain) = shapes::skip_run(sig, pos)?;
    let (end, next) = sig_plain(
        buf, at, tables, strings, blob, layout, owners, sig, plain, left,
    )?;
    Ok((shapes::push_brackets(buf, end, count), next))
}

// The type behind such a run. 0x15 keeps the level too.
#[cycle(sig)]
fn sig_plain(
    buf: &mut [u8],
    at: usize,
    tables: &[u8],
    strings: &[u8],
    blob: &[u8],
    layout: &[u32],
    owners: &Owners,
    sig: &[u8],
    pos: usize,
    left: usize,
) -> Rendering
    requires laid { Laid tables.now layout.now }
    requires left_nonzero { (0 < left) × Plain sig.now pos }
    ensures { let e = env_of tables.now layout.now strings.now blob.now owners.now in
        Rendered (type e left sig.now pos) buf.old at buf.new result }
{
    if sig.len() <= pos {
        return Err(pos);
    }
    if sig[pos] == 0x15 {
        return sig_few(
            buf, at, tables, strings, blob, layout, owners, sig, pos, left,
        );
    }
    sig_form(
        buf, at, tables, strings, blob, layout, owners, sig, pos, left,
    )
}

// A type inside of a generic type, with other frames where none is free for it.
#[cycle(sig)]
fn sig_inner(
    buf: &mut [u8],
    at: usize,
    tables: &[u8],
    strings: &[u8],
    blob: &[u8],
    layout: &[u32],
    owners: &Owners,
    sig: &[u8],
    pos: usize,
    left: usize,
    full: bool,
) -> Rendering
    requires laid { Laid tables.now layout.now }
    requires left_nonzero { (0 < left) × (full ≡ true → Other sig.now pos → ⊥) }
    ensures { let e = env_of tables.now layout.now strings.now blob.now owners.now in
        Rendered (type e left sig.now pos) buf.old at buf.new result }
{
    if full {
        return sig_many(
            buf, at, tables, strings, blob, layout, owners, sig, pos, left,
        );
    }
    sig_type(
        buf, at, tables, strings, blob, layout, owners, sig, pos, left,
    )
}

// A type that begins with a tag that keeps the level, with few frames.
#[cycle(sig)]
fn sig_few(
    buf: &mut [u8],
    at: usize,
    tables: &[u8],
    strings: &[u8],
    blob: &[u8],
    layout: &[u32],
    owners: &Owners,
    sig: &[u8],
    pos: usize,
    left: usize,
) -> Rendering
    requires laid { Laid tables.now layout.now }
    requires left_nonzero { (0 < left) × (Other sig.now pos → ⊥) }
    ensures { let e = env_of tables.now layout.now strings.now blob.now owners.now in
        Rendered (type e left sig.now pos) buf.old at buf.new result }
{
    let mut slots = [0u16; FEW];
    sig_level(
        buf, at, tables, strings, blob, layout, owners, sig, pos, left, &mut slots,
    )
}

// The same with many.
#[cycle(sig)]
fn sig_many(
    buf: &mut [u8],
    at: usize,
    tables: &[u8],
    strings: &[u8],
    blob: &[u8],
    layout: &[u32],
    owners: &Owners,
    sig: &[u8],
    pos: usize,
    left: usize,
) -> Rendering
    requires laid { Laid tables.now layout.now }
    requires left_nonzero { (0 < left) × (Other sig.now pos → ⊥) }
    ensures { let e = env_of tables.now layout.now strings.now blob.now owners.now in
        Rendered (type e left sig.now pos) buf.old at buf.new result }
{
    let mut slots = [0u16; MANY];
    sig_level(
        buf, at, tables, strings, blob, layout, owners, sig, pos, left, &mut slots,
    )
}

// All types of one level that are inside of one another, by a loop over frames. A failure anywhere in it ends the whole.
#[cycle(sig)]
fn sig_level(
    buf: &mut [u8],
    at: usize,
    tables: &[u8],
    strings: &[u8],
    blob: &[u8],
    layout: &[u32],
    owners: &Owners,
    sig: &[u8],
    pos: usize,
    left: usize,
    slots: &mut [u16],
) -> Rendering
    requires laid { Laid tables.now layout.now }
    requires left_nonzero { (0 < left) × (Other sig.now pos → ⊥) × (0 < length slots.old) }
    ensures { let e = env_of tables.now layout.now strings.now blob.now owners.now in
        Rendered (type e left sig.now pos) buf.old at buf.new result }
{
    let mut k = at;
    let mut p = pos;
    let mut n = 0;
    while p < sig.len() {
        let to = match frames::descend(sig, p, slots, n) {
            Ok(to) => to,
            Err((next, _)) => return Err(next),
        };
        let (end, next) = sig_inner(
            buf, k, tables, strings, blob, layout, owners, sig, to.at, left, to.full,
        )?;
        // The failure has an arm of its own, which must-fail/failure_ends_the_innermost answers as a success.
        match frames::ascend(buf, end, sig, next, slots, to.used) {
            Ok(Ascent::More(place, first, still)) => {
                k = place;
                p = first;
                n = still;
            }
            Ok(Ascent::Over(place, last)) => return Ok((place, last)),
            Err(last) => return Err(last),
        }
    }
    Err(p)
}

// Any other type, by its tag (II.23.1.16).
#[cycle(sig)]
fn sig_form(
    buf: &mut [u8],
    at: usize,
    tables: &[u8],
    strings: &[u8],
    blob: &[u8],
    layout: &[u32],
    owners: &Owners,
    sig: &[u8],
    pos: usize,
    left: usize,
) -> Rendering
    requires laid { Laid tables.now layout.now }
    requires left_nonzero { (0 < left) × Plain sig.now pos × (pos < length sig.now) × (get_or sig.now pos 0 ≡ 0x15 → ⊥) }
    ensures { let e = env_of tables.now layout.now strings.now blob.now owners.now in
        Rendered (type e left sig.now pos) buf.old at buf.new result }
{
    let tag = sig[pos];
    let p = pos + 1;
    let deep = left - 1;
    match tag {
        0x0F | 0x10 => sig_around(
            buf, at, tables, strings, blob, layout, owners, sig, p, deep, tag,
        ),
        0x11 | 0x12 => sig_class(buf, at, tables, strings, blob, layout, owners, sig, p, deep),
        0x13 | 0x1E => sig_var(buf, at, tables, strings, layout, owners, sig, p, tag),
        0x14 => sig_array(buf, at, tables, strings, blob, layout, owners, sig, p, deep),
        0x1B => parse_method_def_signature(
            buf, at, tables, strings, blob, layout, owners, sig, p, deep,
        ),
        _ => sig_simple(buf, at, p, tag),
    }
}

// A type that is its tag alone.
fn sig_simple(buf: &mut [u8], at: usize, pos: usize, tag: u8) -> Rendering
    ensures { Rendered (known (simple tag) [] pos) buf.old at buf.new result }
{
    match sig_leaves::push_simple(buf, at, tag) {
        Some(end) => Ok((end, pos)),
        None => Err(pos),
    }
}

// 0x13, 0x1E: a generic parameter of the class, or of the method.
fn sig_var(
    buf: &mut [u8],
    at: usize,
    tables: &[u8],
    strings: &[u8],
    layout: &[u32],
    owners: &Owners,
    sig: &[u8],
    pos: usize,
    tag: u8,
) -> Rendering
    requires { Laid tables.now layout.now }
    ensures { (blob : List ℕ) → Rendered
        (generic
        (name_at
        (generics_of (view_in tables.now layout.now strings.now blob)
        (owner_by tag owners.now.class owners.now.method))) sig.now pos) buf.old at
        buf.new result }
{
    if tag == 0x13 {
        return sig_leaves::sig_generic(buf, at, tables, strings, layout, owners.class, sig, pos);
    }
    sig_leaves::sig_generic(buf, at, tables, strings, layout, owners.method, sig, pos)
}

// What stands before the type behind 0x0F or 0x10.
fn push_before(buf: &mut [u8], at: usize, tag: u8) -> usize
    ensures { Wrote buf.old at (before tag) buf.new result }
{
    if tag == 0x0F {
        return buffers::push(buf, at, b"Ptr<");
    }
    buffers::push(buf, at, b"ref ")
}

// What stands behind it.
fn push_behind(buf: &mut [u8], at: usize, tag: u8) -> usize
    ensures { Wrote buf.old at (behind tag) buf.new result }
{
    if tag == 0x0F {
        return buffers::push(buf, at, b">");
    }
    buffers::push(buf, at, b"")
}

// 0x0F, 0x10: a type between two texts.
#[cycle(sig)]
fn sig_around(
    buf: &mut [u8],
    at: usize,
    tables: &[u8],
    strings: &[u8],
    blob: &[u8],
    layout: &[u32],
    owners: &Owners,
    sig: &[u8],
    pos: usize,
    left: usize,
    tag: u8,
) -> Rendering
    requires { Laid tables.now layout.now }
    ensures { let e = env_of tables.now layout.now strings.now blob.now owners.now in
        Rendered (around (before tag) (behind tag) (type e left) sig.now pos) buf.old at buf.new result }
{
    let first = push_before(buf, at, tag);
    let (end, next) = sig_type(
        buf, first, tables, strings, blob, layout, owners, sig, pos, left,
    )?;
    Ok((push_behind(buf, end, tag), next))
}

// 0x11, 0x12: the name behind an index.
#[cycle(sig)]
fn sig_class(
    buf: &mut [u8],
    at: usize,
    tables: &[u8],
    strings: &[u8],
    blob: &[u8],
    layout: &[u32],
    owners: &Owners,
    sig: &[u8],
    pos: usize,
    left: usize,
) -> Rendering
    requires { Laid tables.now layout.now }
    ensures { let e = env_of tables.now layout.now strings.now blob.now owners.now in
        Rendered (class_type e (type e left) sig.now pos) buf.old at buf.new result }
{
    let (index, next) = numbers::read_uint(sig, pos)?;
    match type_name(buf, at, tables, strings, blob, layout, owners, index, left) {
        Some(end) => Ok((end, next)),
        None => Err(next),
    }
}

// The name behind an index. Its two low bits say which table.
#[cycle(sig)]
fn type_name(
    buf: &mut [u8],
    at: usize,
    tables: &[u8],
    strings: &[u8],
    blob: &[u8],
    layout: &[u32],
    owners: &Owners,
    index: u32,
    left: usize,
) -> Option<usize>
    requires { Laid tables.now layout.now }
    ensures { let e = env_of tables.now layout.now strings.now blob.now owners.now in
        Said buf.old at buf.new (type_full_name e (type e left) index).got (place_says result) }
{
    let row = index / 4;
    match index % 4 {
        0 => names::push_class_name(buf, at, tables, strings, layout, TypeDefRow(row)),
        1 => names::push_ref_name(buf, at, tables, strings, layout, row),
        2 => {
            let place = sig_leaves::spec_blob(tables, blob, layout, row)?;
            let spec = numbers::cut(blob, place.start, place.len);
            match sig_type(
                buf, at, tables, strings, blob, layout, owners, spec, 0, left,
            ) {
                Ok((end, _)) => Some(end),
                Err(_) => None,
            }
        }
        _ => None,
    }
}

// 0x14: a type and the shape of an array of it.
#[cycle(sig)]
fn sig_array(
    buf: &mut [u8],
    at: usize,
    tables: &[u8],
    strings: &[u8],
    blob: &[u8],
    layout: &[u32],
    owners: &Owners,
    sig: &[u8],
    pos: usize,
    left: usize,
) -> Rendering
    requires { Laid tables.now layout.now }
    ensures { let e = env_of tables.now layout.now strings.now blob.now owners.now in
        Rendered (array (type e left) sig.now pos) buf.old at buf.new result }
{
    let (end, next) = sig_type(
        buf, at, tables, strings, blob, layout, owners, sig, pos, left,
    )?;
    shapes::push_shape(buf, end, sig, next)
}

// 0x1B: a function pointer, whose signature is a method's (`parse_method_def_signature`).
#[cycle(sig)]
fn parse_method_def_signature(
    buf: &mut [u8],
    at: usize,
    tables: &[u8],
    strings: &[u8],
    blob: &[u8],
    layout: &[u32],
    owners: &Owners,
    sig: &[u8],
    pos: usize,
    left: usize,
) -> Rendering
    requires { Laid tables.now layout.now }
    ensures { let e = env_of tables.now layout.now strings.now blob.now owners.now in
        Rendered (fn_ptr (type e left) sig.now pos) buf.old at buf.new result }
{
    let (count, first) = sig_leaves::read_method_start(sig, pos)?;
    let open = buffers::push(buf, at, b"FnPtr<");
    let (end, after) = sig_type(
        buf, open, tables, strings, blob, layout, owners, sig, first, left,
    )?;
    let inner = buffers::push(buf, end, b"(");
    let (close, next) = sig_parameters(
        buf, inner, tables, strings, blob, layout, owners, sig, after, left, count,
    )?;
    Ok((buffers::push(buf, close, b")>"), next))
}

// So many parameters. One that fails is taken back with its separator, and the reading goes on after the bytes it took.
#[cycle(sig)]
fn sig_parameters(
    buf: &mut [u8],
    at: usize,
    tables: &[u8],
    strings: &[u8],
    blob: &[u8],
    layout: &[u32],
    owners: &Owners,
    sig: &[u8],
    pos: usize,
    left: usize,
    count: u32,
) -> Rendering
    requires laid { Laid tables.now layout.now }
    requires at_in_bounds { at ≤ length buf.old + 1 }
    ensures { let e = env_of tables.now layout.now strings.now blob.now owners.now in
        Rendered (parameters count 0 (type e left) sig.now pos) buf.old at buf.new result }
{
    let mut p = pos;
    let mut k = at;
    for i in 0..count as usize {
        let first = push_sep(buf, k, i, b", ");
        match sig_type(
            buf, first, tables, strings, blob, layout, owners, sig, p, left,
        ) {
            Ok((end, next)) => {
                k = end;
                p = next;
            }
            Err(after) => p = after,
        }
    }
    Ok((k, p))
}
