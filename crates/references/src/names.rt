// The module, the assembly, and what they refer to: the answers of the calls for them, of a stream that is opened, by its layout.
ghost use Rattle.std.specs.Prelude.{List, ◌≡◌, ℕ, length};
ghost use Rattle.buffers.specs.Telling.{ToldIs};
ghost use Rattle.record.specs.Answers.{Numbered, module_name, module_ref_count, module_ref_name, assembly_name, assembly_version, assembly_culture, assembly_ref_count, assembly_ref_name, assembly_ref_version, assembly_ref_key};
ghost use Rattle.references.specs.Columns as columns;
ghost use Rattle.references.specs.Layout.{Laid, view_in};

use super::{columns, count_entire, count_rows, read_column, texts};
use buffers::{Refusal, Reply, Told, Unnamed};

// The numbers of a version.
const VERSION_PARTS: u32 = 4;

// What the answer for the name of the module (II.22.30, `parse_modules`) comes to at a place.
pub fn tell_module_name(
    buf: &mut [u8],
    at: usize,
    tables: &[u8],
    strings: &[u8],
    layout: &[u32],
) -> Told
    requires { Laid tables.now layout.now }
    ensures { (blob : List ℕ) → ToldIs (module_name (view_in tables.now layout.now strings.now blob))
        buf.old at buf.new result }
{
    if count_rows(layout, columns::MODULE_NAME) == 0 {
        return Err(Unnamed::NoRow);
    }
    texts::tell_string(buf, at, tables, strings, layout, columns::MODULE_NAME, 0)
}

// How many module references there are (II.22.31, `parse_module_ref`).
pub fn count_module_refs(layout: &[u32]) -> Reply
    requires { length layout.now ≡ columns.size }
    ensures { (t strings blob : List ℕ) → Laid t layout.now → Numbered (module_ref_count (view_in t layout.now strings blob)) result }
{
    let n = count_entire(layout, columns::MODULE_REFS);
    if n == 0 {
        return Err(Refusal::NoSuchRow);
    }
    Ok(n)
}

// What the answer for the name of module reference i comes to at a place.
pub fn tell_module_ref_name(
    buf: &mut [u8],
    at: usize,
    tables: &[u8],
    strings: &[u8],
    layout: &[u32],
    i: u32,
) -> Told
    requires { Laid tables.now layout.now }
    ensures { (blob : List ℕ) → ToldIs (module_ref_name (view_in tables.now layout.now strings.now blob) i)
        buf.old at buf.new result }
{
    let row = i as usize;
    if count_entire(layout, columns::MODULE_REFS) <= row {
        return Err(Unnamed::NoRow);
    }
    texts::tell_string(
        buf,
        at,
        tables,
        strings,
        layout,
        columns::MODULE_REF_NAME,
        row,
    )
}

// What the answer for the name of the assembly (II.22.2, `parse_assembly_table`) comes to at a place.
pub fn tell_assembly_name(
    buf: &mut [u8],
    at: usize,
    tables: &[u8],
    strings: &[u8],
    layout: &[u32],
) -> Told
    requires { Laid tables.now layout.now }
    ensures { (blob : List ℕ) → ToldIs (assembly_name (view_in tables.now layout.now strings.now blob))
        buf.old at buf.new result }
{
    if count_rows(layout, columns::ASSEMBLY_NAME) == 0 {
        return Err(Unnamed::NoRow);
    }
    texts::tell_string(buf, at, tables, strings, layout, columns::ASSEMBLY_NAME, 0)
}

// A number of its version.
pub fn assembly_version_of(tables: &[u8], layout: &[u32], part: u32) -> Reply
    requires { Laid tables.now layout.now }
    ensures { (strings blob : List ℕ) → Numbered (assembly_version (view_in tables.now layout.now strings blob) part) result }
{
    if count_rows(layout, columns::ASSEMBLY_VERSION) == 0 {
        return Err(Refusal::NoSuchRow);
    }
    if VERSION_PARTS <= part {
        return Err(Refusal::NoSuchRow);
    }
    let number = read_column(tables, layout, columns::ASSEMBLY_VERSION + part as usize, 0);
    Ok(number as usize)
}

// What the answer for its culture comes to at a place.
pub fn tell_assembly_culture(
    buf: &mut [u8],
    at: usize,
    tables: &[u8],
    strings: &[u8],
    layout: &[u32],
) -> Told
    requires { Laid tables.now layout.now }
    ensures { (blob : List ℕ) → ToldIs (assembly_culture (view_in tables.now layout.now strings.now blob))
        buf.old at buf.new result }
{
    if count_rows(layout, columns::ASSEMBLY_CULTURE) == 0 {
        return Err(Unnamed::NoRow);
    }
    texts::tell_string(
        buf,
        at,
        tables,
        strings,
        layout,
        columns::ASSEMBLY_CULTURE,
        0,
    )
}

// How many assembly references there are (II.22.5, `parse_assembly_ref_table`).
pub fn count_assembly_refs(layout: &[u32]) -> Reply
    requires { length layout.now ≡ columns.size }
    ensures { (t strings blob : List ℕ) → Laid t layout.now → Numbered (assembly_ref_count (view_in t layout.now strings blob)) result }
{
    let n = count_entire(layout, columns::ASSEMBLY_REFS);
    if n == 0 {
        return Err(Refusal::NoSuchRow);
    }
    Ok(n)
}

// What the answer for the name of assembly reference i comes to at a place.
pub fn tell_assembly_ref_name(
    buf: &mut [u8],
    at: usize,
    tables: &[u8],
    strings: &[u8],
    layout: &[u32],
    i: u32,
) -> Told
    requires { Laid tables.now layout.now }
    ensures { (blob : List ℕ) → ToldIs (assembly_ref_name (view_in tables.now layout.now strings.now blob) i)
        buf.old at buf.new result }
{
    let row = i as usize;
    if count_entire(layout, columns::ASSEMBLY_REFS) <= row {
        return Err(Unnamed::NoRow);
    }
    texts::tell_string(
        buf,
        at,
        tables,
        strings,
        layout,
        columns::ASSEMBLY_REF_NAME,
        row,
    )
}

// A number of its version.
pub fn assembly_ref_version_of(tables: &[u8], layout: &[u32], i: u32, part: u32) -> Reply
    requires { Laid tables.now layout.now }
    ensures { (strings blob : List ℕ) → Numbered (assembly_ref_version (view_in tables.now layout.now strings blob) i part) result }
{
    let row = i as usize;
    if count_entire(layout, columns::ASSEMBLY_REFS) <= row {
        return Err(Refusal::NoSuchRow);
    }
    if VERSION_PARTS <= part {
        return Err(Refusal::NoSuchRow);
    }
    let number = read_column(
        tables,
        layout,
        columns::ASSEMBLY_REF_VERSION + part as usize,
        row,
    );
    Ok(number as usize)
}

// What the answer for its public key or token comes to at a place: one without bytes is missing.
pub fn tell_assembly_ref_key(
    buf: &mut [u8],
    at: usize,
    tables: &[u8],
    blob: &[u8],
    layout: &[u32],
    i: u32,
) -> Told
    requires { Laid tables.now layout.now }
    ensures { (strings : List ℕ) → ToldIs (assembly_ref_key (view_in tables.now layout.now strings blob.now) i)
        buf.old at buf.new result }
{
    let row = i as usize;
    if count_entire(layout, columns::ASSEMBLY_REFS) <= row {
        return Err(Unnamed::NoRow);
    }
    let index = read_column(tables, layout, columns::ASSEMBLY_REF_KEY, row);
    let key = heaps::get_blob(blob, index as usize);
    texts::tell_part(buf, at, blob, texts::not_empty(key))
}
