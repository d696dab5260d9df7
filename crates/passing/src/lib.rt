// Passing over types in signatures (ECMA-335 II.23.2.12) without writing them: whether they have a text, the position after them, and how
// many of the steps lent are left. A type byte takes a step as soon as it is read; where none is left for it, the work ends. The
// functions lead into one another as those that render do, and each call leaves fewer levels, or as many and fewer bytes.

#![tactic(auto)]

ghost use Rattle.std.specs.Prelude.{◌≡◌, true, false, List, [], ℕ, ◌<◌, length};
ghost use Rattle.std.proofs.Math.Option.{Option, some};
ghost use Rattle.buffers.specs.Texts.{Text};
ghost use Rattle.heaps.specs.Lookups.{Name, is_there};
ghost use Rattle.record.specs.Methods.{signature};
ghost use Rattle.record.specs.Names.{name_at, spec_blob, env};
ghost use Rattle.record.specs.Readings.{known};
ghost use Rattle.record.specs.Types.{type_full_name, parameters, class_type, generic, fn_ptr, shape, array, type};
ghost use Rattle.rows.specs.Layout.{Laid, view_in};
ghost use Rattle.sig_leaves.specs.Leaves.{generics_of};
ghost use Rattle.frames.specs.Stack.{Other};
ghost use Rattle.signatures.specs.Environment.{env_in, env_of};
ghost use Rattle.signatures.specs.Parts.{owner_by};
ghost use Rattle.passing.specs.Passing.{Passes, left_of, Simple, NamesSpec, Suffices, SpecsWithin};

use classes::TypeDefRow;
use frames::Ascent;
use heaps::Span;
use rows::columns;
use sig_leaves::{LEVELS, Owner};
use signatures::Owners;

// A part of a signature that was passed over: the position after it and the steps left, where it has a text and where it has none. The
// functions say so of a part, or None, where the steps do not suffice.
#[derive(Clone, Copy, Debug, PartialEq, Eq)]
pub enum Passed {
    Over(usize, u64),
    Failed(usize, u64),
}

// Frames for generic types inside of one another: first a few, which suffice nearly always; where they are all in use, many at once, so
// that each takes few bytes of stack.
const FEW: usize = 16;

const MANY: usize = 1024;

// A place past the end of one byte: what is appended there is not written.
const PAST: usize = 2;

// The type at a position, with so many levels left.
pub fn pass_type(
    tables: &[u8],
    strings: &[u8],
    blob: &[u8],
    layout: &[u32],
    class: Owner,
    method: Owner,
    sig: &[u8],
    pos: usize,
    left: usize,
    steps: u64,
) -> Option<Passed>
    requires { Laid tables.now layout.now }
    ensures { let e = env_in tables.now layout.now strings.now blob.now class method in
        Passes (type e left sig.now pos) steps result }
{
    let owners = Owners { class, method };
    over_type(
        tables, strings, blob, layout, &owners, sig, pos, left, steps,
    )
}

// The name behind a TypeDefOrRef index (II.23.2.8, II.24.2.6), with so many levels left.
pub fn pass_name(
    tables: &[u8],
    strings: &[u8],
    blob: &[u8],
    layout: &[u32],
    class: Owner,
    method: Owner,
    index: u32,
    left: usize,
    steps: u64,
) -> Option<Passed>
    requires { Laid tables.now layout.now }
    ensures { let e = env_in tables.now layout.now strings.now blob.now class method in
        Passes (type_full_name e (type e left) index) steps result }
{
    let owners = Owners { class, method };
    over_name(tables, strings, blob, layout, &owners, index, left, steps)
}

// A method's whole signature (II.23.2.1): its return type and all its parameters. A function pointer reads the same bytes.
pub fn pass_signature(
    tables: &[u8],
    strings: &[u8],
    blob: &[u8],
    layout: &[u32],
    class: Owner,
    method: Owner,
    sig: &[u8],
    steps: u64,
) -> Option<Passed>
    requires { Laid tables.now layout.now }
    ensures { let e = env_in tables.now layout.now strings.now blob.now class method in
        Passes (signature e sig.now 0) steps result }
{
    let owners = Owners { class, method };
    over_method(
        tables, strings, blob, layout, &owners, sig, 0, LEVELS, steps,
    )
}

// What is left of the steps after a part, whether it has a text or not.
pub fn steps_left(passed: Option<Passed>) -> Option<u64>
    ensures { result ≡ left_of passed }
{
    match passed? {
        Passed::Over(_, left) | Passed::Failed(_, left) => Some(left),
    }
}

// Whether the byte at a position begins the name of a TypeSpec row, if it is a type byte.
fn names_spec(sig: &[u8], pos: usize) -> bool
    requires { pos < length sig.now }
    ensures { result ≡ false → NamesSpec sig.now pos → ⊥ }
{
    if !matches!(sig[pos], 0x11 | 0x12) {
        return false;
    }
    match numbers::read_uint(sig, pos + 1) {
        Ok((index, _)) => index % 4 == 2,
        Err(_) => false,
    }
}

// Whether so many steps suffice, as far as the bytes of the signature show it: where no byte can begin the name of a TypeSpec row, whose
// types stand elsewhere, no byte is read twice as a type byte.
pub fn surely_suffices(sig: &[u8], steps: u64) -> bool
    ensures { result ≡ true → Suffices sig.now steps }
{
    if steps < sig.len() as u64 {
        return false;
    }
    for i in 0..sig.len() {
        if names_spec(sig, i) {
            return false;
        }
    }
    true
}

// Whether so many steps surely suffice for TypeSpec row r, from 1; a row without a signature takes none.
fn spec_suffices(tables: &[u8], blob: &[u8], layout: &[u32], row: u32, most: u64) -> bool
    requires { Laid tables.now layout.now }
    ensures { let v = view_in tables.now layout.now in
        ((strings spec : List ℕ) → result ≡ true → spec_blob (v strings blob.now) row ≡ some spec → Suffices spec most) }
{
    match sig_leaves::spec_blob(tables, blob, layout, row) {
        Some(Span { start, len }) => {
            let spec = numbers::cut(blob, start, len);
            surely_suffices(spec, most)
        }
        None => true,
    }
}

// The same of every TypeSpec row, whatever its generic parameters are called.
pub fn specs_suffice(tables: &[u8], blob: &[u8], layout: &[u32], most: u64) -> bool
    requires { Laid tables.now layout.now }
    ensures { let v = view_in tables.now layout.now in
        ((strings : List ℕ) (g h : List Name) → result ≡ true → SpecsWithin (env (v strings blob.now) g h) most) }
{
    for i in 0..rows::count_rows(layout, columns::SPEC_SIGNATURE) {
        if !spec_suffices(tables, blob, layout, i as u32 + 1, most) {
            return false;
        }
    }
    true
}

// What was looked up and read no byte: whether it has a text, and the position after it.
fn tell(there: bool, next: usize, steps: u64) -> Option<Passed>
    ensures { (o : Option Text) → there ≡ is_there o → Passes (known o [] next) steps result }
{
    if there {
        return Some(Passed::Over(next, steps));
    }
    Some(Passed::Failed(next, steps))
}

// Whether a type that is its tag alone stands at a position, with a level and a step left for it.
fn is_simple(sig: &[u8], pos: usize, left: usize, steps: u64) -> bool
    ensures { result ≡ true → Simple sig.now pos left steps }
{
    pos < sig.len() && 0 < left && 0 < steps && sig_leaves::is_simple(sig[pos])
}

// The owner that a tag means: 0x13 the class, 0x1E the method.
fn owner_by(owners: &Owners, tag: u8) -> Owner
    ensures { result ≡ owner_by tag owners.now.class owners.now.method }
{
    if tag == 0x13 {
        return owners.class;
    }
    owners.method
}

// 0x13, 0x1E: a generic parameter of the class, or of the method.
fn over_var(
    tables: &[u8],
    strings: &[u8],
    layout: &[u32],
    owners: &Owners,
    sig: &[u8],
    pos: usize,
    steps: u64,
    tag: u8,
) -> Option<Passed>
    requires { Laid tables.now layout.now }
    ensures { let owner = owner_by tag owners.now.class owners.now.method in
        ((blob : List ℕ) → Passes
        (generic (name_at (generics_of (view_in tables.now layout.now strings.now blob) owner))
        sig.now pos) steps result) }
{
    match numbers::read_uint(sig, pos) {
        Ok((i, next)) => {
            let owner = owner_by(owners, tag);
            let there = sig_leaves::has_generic(tables, strings, layout, owner, numbers::wide(i));
            tell(there, next, steps)
        }
        Err(next) => Some(Passed::Failed(next, steps)),
    }
}

// The shape of an array (II.23.2.13).
fn over_shape(sig: &[u8], pos: usize, steps: u64) -> Option<Passed>
    ensures { Passes (shape sig.now pos) steps result }
{
    let mut space = [0u8; 1];
    match shapes::push_shape(&mut space, PAST, sig, pos) {
        Ok((_, next)) => Some(Passed::Over(next, steps)),
        Err(next) => Some(Passed::Failed(next, steps)),
    }
}

// The type at a position, by the owners' numbers. Pointers, references, vectors and modifiers are passed by a loop: without a text they
// come to what the type behind them comes to.
#[cycle(over)]
fn over_type(
    tables: &[u8],
    strings: &[u8],
    blob: &[u8],
    layout: &[u32],
    owners: &Owners,
    sig: &[u8],
    pos: usize,
    left: usize,
    steps: u64,
) -> Option<Passed>
    requires { Laid tables.now layout.now }
    ensures { let e = env_of tables.now layout.now strings.now blob.now owners.now in
        Passes (type e left sig.now pos) steps result }
{
    let mut p = pos;
    let mut deep = left;
    let mut have = steps;
    while p < sig.len() {
        if have == 0 {
            return None;
        }
        let tag = sig[p];
        let next = p + 1;
        let rest = have - 1;
        if deep == 0 {
            return Some(Passed::Failed(next, rest));
        }
        if sig_leaves::is_simple(tag) {
            return Some(Passed::Over(next, rest));
        }
        match tag {
            0x0F | 0x10 => {
                p = next;
                deep -= 1;
                have = rest;
            }
            0x1D => {
                p = next;
                have = rest;
            }
            0x1F | 0x20 => match numbers::read_uint(sig, next) {
                Ok((_, after)) => {
                    p = after;
                    have = rest;
                }
                Err(after) => return Some(Passed::Failed(after, rest)),
            },
            0x11 | 0x12 => {
                return over_class(
                    tables,
                    strings,
                    blob,
                    layout,
                    owners,
                    sig,
                    next,
                    deep - 1,
                    rest,
                );
            }
            0x13 | 0x1E => {
                return over_var(tables, strings, layout, owners, sig, next, rest, tag);
            }
            0x14 => {
                return over_array(
                    tables,
                    strings,
                    blob,
                    layout,
                    owners,
                    sig,
                    next,
                    deep - 1,
                    rest,
                );
            }
            0x15 => {
                return over_few(tables, strings, blob, layout, owners, sig, p, deep, have);
            }
            0x1B => {
                return over_method(
                    tables,
                    strings,
                    blob,
                    layout,
                    owners,
                    sig,
                    next,
                    deep - 1,
                    rest,
                );
            }
            _ => {
                return Some(Passed::Failed(next, rest));
            }
        }
    }
    Some(Passed::Failed(p, have))
}

// The same, where most types are their tag alone.
#[cycle(over)]
fn over_next(
    tables: &[u8],
    strings: &[u8],
    blob: &[u8],
    layout: &[u32],
    owners: &Owners,
    sig: &[u8],
    pos: usize,
    left: usize,
    steps: u64,
) -> Option<Passed>
    requires { Laid tables.now layout.now }
    ensures { let e = env_of tables.now layout.now strings.now blob.now owners.now in
        Passes (type e left sig.now pos) steps result }
{
    if is_simple(sig, pos, left, steps) {
        return Some(Passed::Over(pos + 1, steps - 1));
    }
    over_type(tables, strings, blob, layout, owners, sig, pos, left, steps)
}

// A type inside of a generic type, with other frames where none is free for it.
#[cycle(over)]
fn over_inner(
    tables: &[u8],
    strings: &[u8],
    blob: &[u8],
    layout: &[u32],
    owners: &Owners,
    sig: &[u8],
    pos: usize,
    left: usize,
    steps: u64,
    full: bool,
) -> Option<Passed>
    requires laid { Laid tables.now layout.now }
    requires left_nonzero { (0 < left) × (full ≡ true → Other sig.now pos → ⊥) }
    ensures { let e = env_of tables.now layout.now strings.now blob.now owners.now in
        Passes (type e left sig.now pos) steps result }
{
    if full {
        return over_many(tables, strings, blob, layout, owners, sig, pos, left, steps);
    }
    over_next(tables, strings, blob, layout, owners, sig, pos, left, steps)
}

// A type that begins with a tag that keeps the level, with few frames.
#[cycle(over)]
fn over_few(
    tables: &[u8],
    strings: &[u8],
    blob: &[u8],
    layout: &[u32],
    owners: &Owners,
    sig: &[u8],
    pos: usize,
    left: usize,
    steps: u64,
) -> Option<Passed>
    requires laid { Laid tables.now layout.now }
    requires left_nonzero { (0 < left) × (Other sig.now pos → ⊥) }
    ensures { let e = env_of tables.now layout.now strings.now blob.now owners.now in
        Passes (type e left sig.now pos) steps result }
{
    let mut slots = [0u16; FEW];
    over_level(
        tables, strings, blob, layout, owners, sig, pos, left, steps, &mut slots,
    )
}

// The same with many.
#[cycle(over)]
fn over_many(
    tables: &[u8],
    strings: &[u8],
    blob: &[u8],
    layout: &[u32],
    owners: &Owners,
    sig: &[u8],
    pos: usize,
    left: usize,
    steps: u64,
) -> Option<Passed>
    requires laid { Laid tables.now layout.now }
    requires left_nonzero { (0 < left) × (Other sig.now pos → ⊥) }
    ensures { let e = env_of tables.now layout.now strings.now blob.now owners.now in
        Passes (type e left sig.now pos) steps result }
{
    let mut slots = [0u16; MANY];
    over_level(
        tables, strings, blob, layout, owners, sig, pos, left, steps, &mut slots,
    )
}

// All types of one level that are inside of one another: a loop over frames.
#[cycle(over)]
fn over_level(
    tables: &[u8],
    strings: &[u8],
    blob: &[u8],
    layout: &[u32],
    owners: &Owners,
    sig: &[u8],
    pos: usize,
    left: usize,
    steps: u64,
    slots: &mut [u16],
) -> Option<Passed>
    requires laid { Laid tables.now layout.now }
    requires left_nonzero { (0 < left) × (Other sig.now pos → ⊥) × (0 < length slots.old) }
    ensures { let e = env_of tables.now layout.now strings.now blob.now owners.now in
        Passes (type e left sig.now pos) steps result }
{
    let mut space = [0u8; 1];
    let mut p = pos;
    let mut have = steps;
    let mut n = 0;
    while p < sig.len() {
        match frames::descend(sig, p, slots, n) {
            Ok(to) => {
                let rest = have.checked_sub(to.passed as u64)?;
                match over_inner(
                    tables, strings, blob, layout, owners, sig, to.at, left, rest, to.full,
                )? {
                    Passed::Over(next, rest) => {
                        match frames::ascend(&mut space, PAST, sig, next, slots, to.used) {
                            Ok(Ascent::More(_, first, still)) => {
                                p = first;
                                have = rest;
                                n = still;
                            }
                            Ok(Ascent::Over(_, last)) => return Some(Passed::Over(last, rest)),
                            Err(last) => return Some(Passed::Failed(last, rest)),
                        }
                    }
                    Passed::Failed(next, rest) => return Some(Passed::Failed(next, rest)),
                }
            }
            Err((next, passed)) => {
                let rest = have.checked_sub(passed as u64)?;
                return Some(Passed::Failed(next, rest));
            }
        }
    }
    Some(Passed::Failed(p, have))
}

// 0x11, 0x12: the name behind an index.
#[cycle(over)]
fn over_class(
    tables: &[u8],
    strings: &[u8],
    blob: &[u8],
    layout: &[u32],
    owners: &Owners,
    sig: &[u8],
    pos: usize,
    left: usize,
    steps: u64,
) -> Option<Passed>
    requires { Laid tables.now layout.now }
    ensures { let e = env_of tables.now layout.now strings.now blob.now owners.now in
        Passes (class_type e (type e left) sig.now pos) steps result }
{
    match numbers::read_uint(sig, pos) {
        Ok((index, next)) => {
            match over_name(tables, strings, blob, layout, owners, index, left, steps)? {
                Passed::Over(_, rest) => Some(Passed::Over(next, rest)),
                Passed::Failed(_, rest) => Some(Passed::Failed(next, rest)),
            }
        }
        Err(next) => Some(Passed::Failed(next, steps)),
    }
}

// The name behind an index, by the owners' numbers. Its two low bits say which table.
#[cycle(over)]
fn over_name(
    tables: &[u8],
    strings: &[u8],
    blob: &[u8],
    layout: &[u32],
    owners: &Owners,
    index: u32,
    left: usize,
    steps: u64,
) -> Option<Passed>
    requires { Laid tables.now layout.now }
    ensures { let e = env_of tables.now layout.now strings.now blob.now owners.now in
        Passes (type_full_name e (type e left) index) steps result }
{
    let row = index / 4;
    match index % 4 {
        0 => tell(
            names::has_class_name(tables, strings, layout, TypeDefRow(row)),
            0,
            steps,
        ),
        1 => tell(names::has_ref_name(tables, strings, layout, row), 0, steps),
        2 => match sig_leaves::spec_blob(tables, blob, layout, row) {
            Some(Span { start, len }) => {
                let spec = numbers::cut(blob, start, len);
                over_type(tables, strings, blob, layout, owners, spec, 0, left, steps)
            }
            None => Some(Passed::Failed(0, steps)),
        },
        _ => Some(Passed::Failed(0, steps)),
    }
}

// 0x14: a type and the shape of an array of it.
#[cycle(over)]
fn over_array(
    tables: &[u8],
    strings: &[u8],
    blob: &[u8],
    layout: &[u32],
    owners: &Owners,
    sig: &[u8],
    pos: usize,
    left: usize,
    steps: u64,
) -> Option<Passed>
    requires { Laid tables.now layout.now }
    ensures { let e = env_of tables.now layout.now strings.now blob.now owners.now in
        Passes (array (type e left) sig.now pos) steps result }
{
    match over_next(tables, strings, blob, layout, owners, sig, pos, left, steps)? {
        Passed::Over(next, rest) => over_shape(sig, next, rest),
        Passed::Failed(next, rest) => Some(Passed::Failed(next, rest)),
    }
}

// 0x1B: a function pointer, whose signature is a method's (`parse_method_def_signature`).
#[cycle(over)]
fn over_method(
    tables: &[u8],
    strings: &[u8],
    blob: &[u8],
    layout: &[u32],
    owners: &Owners,
    sig: &[u8],
    pos: usize,
    left: usize,
    steps: u64,
) -> Option<Passed>
    requires { Laid tables.now layout.now }
    ensures { let e = env_of tables.now layout.now strings.now blob.now owners.now in
        Passes (fn_ptr (type e left) sig.now pos) steps result }
{
    match sig_leaves::read_method_start(sig, pos) {
        Ok((count, first)) => {
            match over_next(
                tables, strings, blob, layout, owners, sig, first, left, steps,
            )? {
                Passed::Over(next, rest) => {
                    over_parameters(
                        tables, strings, blob, layout, owners, sig, next, left, rest, count,
                    )
                }
                Passed::Failed(next, rest) => Some(Passed::Failed(next, rest)),
            }
        }
        Err(next) => Some(Passed::Failed(next, steps)),
    }
}

// So many parameters. One that fails does not end the reading, which goes on after the bytes it took.
#[cycle(over)]
fn over_parameters(
    tables: &[u8],
    strings: &[u8],
    blob: &[u8],
    layout: &[u32],
    owners: &Owners,
    sig: &[u8],
    pos: usize,
    left: usize,
    steps: u64,
    count: u32,
) -> Option<Passed>
    requires { Laid tables.now layout.now }
    ensures { let e = env_of tables.now layout.now strings.now blob.now owners.now in
        Passes (parameters count 0 (type e left) sig.now pos) steps result }
{
    let mut p = pos;
    let mut have = steps;
    for _ in 0..count {
        // Two arms, since with one for both the proof did not close.
        match over_next(tables, strings, blob, layout, owners, sig, p, left, have)? {
            Passed::Over(next, rest) => {
                p = next;
                have = rest;
            }
            Passed::Failed(next, rest) => {
                p = next;
                have = rest;
            }
        }
    }
    Some(Passed::Over(p, have))
}
