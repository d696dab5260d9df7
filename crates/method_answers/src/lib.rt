// The answers of the calls for a method, of a stream that is opened: by its layout. The public calls open it, and so does a listing, once.
// Which row a method of a class has is found before (`places::place_method`), once for all questions about it. A name is told at a place.

#![tactic(auto)]

ghost use Rattle.std.specs.Prelude.{◌≡◌, true, List, ℕ, ◌<◌, ◌≤◌, length, Some};
ghost use Rattle.buffers.specs.Telling.{ToldIs};
ghost use Rattle.record.specs.Answers.{Numbered, method_count, method_flags, method_name, method_generic_count, method_generic_name, return_type, parameter_count, parameter_type, parameter_name};
ghost use Rattle.record.specs.Allowance.{count_of, method_work};
ghost use Rattle.rows.specs.Columns as columns;
ghost use Rattle.rows.specs.Layout.{Laid, rows_at, view_in};
ghost use Rattle.places.specs.Places.{MethodRowIs};
ghost use Rattle.method_signatures.specs.Known.{KnowsSignature};
ghost use Rattle.steps.specs.Counting.{Takes};

use buffers::{Refusal, Reply, Told, Unnamed};
use classes::ClassNumber;
use method_signatures::{Signature, Typed};
use rows::columns;

// How many methods a class has (II.22.26).
pub fn count_methods_of(tables: &[u8], layout: &[u32], class: ClassNumber) -> Reply
    requires { Laid tables.now layout.now }
    ensures { (strings blob : List ℕ) → Numbered (method_count (view_in tables.now layout.now strings blob) class.0) result }
{
    let row = places::class_row(layout, class).ok_or(Refusal::NoSuchRow)?;
    let range = methods::method_range(tables, layout, row);
    Ok(range.end - range.first)
}

// A method's row, where the table has it. One that is some method's stays as it is.
fn row_inside(layout: &[u32], row: Option<usize>) -> Option<usize>
    requires { columns.size ≤ length layout.now }
    ensures { ((i : ℕ) → result ≡ Some i → i < rows_at layout.now columns.method_name) ×
        ((t strings blob : List ℕ) → Laid t layout.now → (c m : ℕ) → MethodRowIs
        (view_in t layout.now strings blob) c m row → MethodRowIs (view_in t layout.now strings blob) c m result) }
{
    let i = row?;
    if rows::count_rows(layout, columns::METHOD_NAME) <= i {
        return None;
    }
    Some(i)
}

// The flags of a method (II.23.1.10).
pub fn method_flags_of(tables: &[u8], layout: &[u32], row: Option<usize>) -> Reply
    requires { Laid tables.now layout.now }
    ensures { (strings blob : List ℕ) (c m : ℕ) → MethodRowIs
        (view_in tables.now layout.now strings blob) c m row → Numbered
        (method_flags (view_in tables.now layout.now strings blob) c m) result }
{
    let i = row_inside(layout, row).ok_or(Refusal::NoSuchRow)?;
    let flags = rows::read_column(tables, layout, columns::METHOD_FLAGS, i);
    Ok(flags as usize)
}

// The name of a method.
pub fn tell_method_name(
    buf: &mut [u8],
    at: usize,
    tables: &[u8],
    strings: &[u8],
    layout: &[u32],
    row: Option<usize>,
) -> Told
    requires { Laid tables.now layout.now }
    ensures { (blob : List ℕ) (c m : ℕ) → MethodRowIs
        (view_in tables.now layout.now strings.now blob) c m row → ToldIs
        (method_name (view_in tables.now layout.now strings.now blob) c m)
        buf.old at buf.new result }
{
    let i = row_inside(layout, row).ok_or(Unnamed::NoRow)?;
    rows::tell_string(buf, at, tables, strings, layout, columns::METHOD_NAME, i)
}

// How many generic parameters a method has (II.22.20).
pub fn count_method_generics_of(tables: &[u8], layout: &[u32], row: Option<usize>) -> Reply
    requires { Laid tables.now layout.now }
    ensures { (strings blob : List ℕ) (c m : ℕ) → MethodRowIs
        (view_in tables.now layout.now strings blob) c m row → Numbered
        (method_generic_count (view_in tables.now layout.now strings blob) c m) result }
{
    let i = row_inside(layout, row).ok_or(Refusal::NoSuchRow)?;
    Ok(places::count_generics(tables, layout, 2 * (i + 1) + 1))
}

// The name of generic parameter g of a method.
pub fn tell_method_generic_name(
    buf: &mut [u8],
    at: usize,
    tables: &[u8],
    strings: &[u8],
    layout: &[u32],
    row: Option<usize>,
    g: u32,
) -> Told
    requires { Laid tables.now layout.now }
    ensures { (blob : List ℕ) (c m : ℕ) → MethodRowIs
        (view_in tables.now layout.now strings.now blob) c m row → ToldIs
        (method_generic_name (view_in tables.now layout.now strings.now blob) c m g)
        buf.old at buf.new result }
{
    let i = row_inside(layout, row).ok_or(Unnamed::NoRow)?;
    let owner = 2 * (i + 1) + 1;
    places::tell_generic(buf, at, tables, strings, layout, owner, g)
}

// The return type of a method (II.23.2.1), and what is known of its signature behind it.
pub fn tell_return_type_of(
    buf: &mut [u8],
    at: usize,
    tables: &[u8],
    strings: &[u8],
    blob: &[u8],
    layout: &[u32],
    taker: ClassNumber,
    row: Option<usize>,
) -> Typed
    requires { Laid tables.now layout.now }
    ensures { let v = view_in tables.now layout.now strings.now blob.now in
        ((m : ℕ) → MethodRowIs v taker.0 m row → ToldIs (return_type v taker.0 m) buf.old at buf.new result.told) ×
        KnowsSignature v blob.now result.signature }
{
    let Some(i) = row_inside(layout, row) else {
        return Typed {
            told: Err(Unnamed::NoRow),
            signature: method_signatures::no_signature(),
        };
    };
    method_signatures::tell_return_type(buf, at, tables, strings, blob, layout, taker, i)
}

// How many parameters a method has.
pub fn count_params_of(
    tables: &[u8],
    strings: &[u8],
    blob: &[u8],
    layout: &[u32],
    taker: ClassNumber,
    row: Option<usize>,
) -> Reply
    requires { Laid tables.now layout.now }
    ensures { let v = view_in tables.now layout.now strings.now blob.now in
        ((m : ℕ) → MethodRowIs v taker.0 m row → Numbered (parameter_count v taker.0 m) result) }
{
    let i = row_inside(layout, row).ok_or(Refusal::NoSuchRow)?;
    let count = method_signatures::count_params(tables, strings, blob, layout, taker, i);
    Ok(count)
}

// The type of parameter p of a method, by what is known of a signature, and what is known behind it.
pub fn tell_param_type_of(
    buf: &mut [u8],
    at: usize,
    tables: &[u8],
    strings: &[u8],
    blob: &[u8],
    layout: &[u32],
    taker: ClassNumber,
    row: Option<usize>,
    p: u32,
    known: Signature,
) -> Typed
    requires laid { Laid tables.now layout.now }
    requires knows_signature { KnowsSignature (view_in tables.now layout.now strings.now blob.now) blob.now known }
    ensures { let v = view_in tables.now layout.now strings.now blob.now in
        ((m : ℕ) → MethodRowIs v taker.0 m row → ToldIs (parameter_type v taker.0 m p) buf.old at buf.new result.told) ×
        KnowsSignature v blob.now result.signature }
{
    let Some(i) = row_inside(layout, row) else {
        return Typed {
            told: Err(Unnamed::NoRow),
            signature: known,
        };
    };
    method_signatures::tell_param_type(buf, at, tables, strings, blob, layout, taker, i, p, known)
}

// The name of parameter p of a method, likewise. One function of what is told would take a closure with a promise of its own: no plainer.
pub fn tell_param_name_of(
    buf: &mut [u8],
    at: usize,
    tables: &[u8],
    strings: &[u8],
    blob: &[u8],
    layout: &[u32],
    taker: ClassNumber,
    row: Option<usize>,
    p: u32,
    known: Signature,
) -> Typed
    requires laid { Laid tables.now layout.now }
    requires knows_signature { KnowsSignature (view_in tables.now layout.now strings.now blob.now) blob.now known }
    ensures { let v = view_in tables.now layout.now strings.now blob.now in
        ((m : ℕ) → MethodRowIs v taker.0 m row → ToldIs (parameter_name v taker.0 m p) buf.old at buf.new result.told) ×
        KnowsSignature v blob.now result.signature }
{
    let Some(i) = row_inside(layout, row) else {
        return Typed {
            told: Err(Unnamed::NoRow),
            signature: known,
        };
    };
    method_signatures::tell_param_name(buf, at, tables, strings, blob, layout, taker, i, p, known)
}

// What the readings of a method's signature take of the steps: nothing where there is no such method.
pub fn pass_readings_of(
    tables: &[u8],
    strings: &[u8],
    blob: &[u8],
    layout: &[u32],
    taker: ClassNumber,
    row: Option<usize>,
    steps: u64,
) -> Option<u64>
    requires { Laid tables.now layout.now }
    ensures { let v = view_in tables.now layout.now strings.now blob.now in
        ((m : ℕ) → MethodRowIs v taker.0 m row → Takes (count_of (method_work v taker.0 m)) steps result) }
{
    let Some(i) = row_inside(layout, row) else {
        return Some(steps);
    };
    method_signatures::pass_readings(tables, strings, blob, layout, taker, i, steps)
}

// Whether so many steps surely suffice for the readings of a method's signature.
pub fn surely_fits_of(
    tables: &[u8],
    blob: &[u8],
    layout: &[u32],
    row: Option<usize>,
    steps: u64,
) -> bool
    requires { Laid tables.now layout.now }
    ensures { let v = view_in tables.now layout.now in
        let b = blob.now in
        ((strings : List ℕ) (c m : ℕ) → MethodRowIs (v strings b) c m row → result ≡ true → count_of (method_work (v strings b) c m) ≤ steps) }
{
    let Some(i) = row_inside(layout, row) else {
        return true;
    };
    method_signatures::surely_fits(tables, blob, layout, i, steps)
}
