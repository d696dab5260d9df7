// Writes the type-name section of the input (2026-14): standard input holds the three streams, as for the listing program, and standard
// output gets the lines `section=N` and `offsets=M`, then the section's bytes, then the offsets, 4 bytes each; or the line `refused=N`
// alone. Where it cannot be written the program stops there, and says so on standard error.

#![tactic(auto)]

use buffers::Refusal;
use name_section::Section;
use std::io;
use std::process::ExitCode;

// Bytes for an input, one more than the program takes.
const INPUT: usize = 65_537;

// Bytes for the lines before a section.
const HEAD: usize = 64;

// Bytes for the section, and places for the offsets: 6 is refused above either.
const ROOM: usize = 262_144;

const PLACES: usize = 16_384;

const OFFSET_BYTES: usize = 4;

// The lines before the section, or the line of a refusal.
fn write_head(rt: &impl Print, reply: Result<Section, Refusal>) -> io::Result<()> {
    let mut space = [0u8; HEAD];
    let end = section_text::push_head(&mut space, 0, reply);
    rt.write_all(numbers::cut(&space, 0, end))
}

fn write_offsets(rt: &impl Print, offsets: &[u32], classes: usize) -> io::Result<()> {
    let mut space = [0u8; OFFSET_BYTES * PLACES];
    let end = section_text::push_offsets(&mut space, 0, offsets, classes);
    rt.write_all(numbers::cut(&space, 0, end))
}

// The section of an input.
fn write_section(rt: &impl Print, input: &[u8]) -> io::Result<()> {
    let mut section = [0u8; ROOM];
    let mut offsets = [0u32; PLACES];
    let reply = section_text::section_of_input(input, &mut section, &mut offsets);
    write_head(rt, reply)?;
    match reply {
        Ok(Section { bytes, classes }) => {
            rt.write_all(numbers::cut(&section, 0, bytes))?;
            write_offsets(rt, &offsets, classes)
        }
        Err(_) => Ok(()),
    }
}

fn main(rt: HostRuntime) -> io::Result<ExitCode> {
    let mut space = [0u8; INPUT];
    let n = intake::read_full(&mut rt.reader(), &mut space);
    if write_section(&rt, numbers::cut(&space, 0, n)).is_ok() {
        return Ok(ExitCode::SUCCESS);
    }
    eprintln!(rt; "section: cannot write to standard output")?;
    Ok(ExitCode::FAILURE)
}
