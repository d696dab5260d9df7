// Prints where the tables of the input lie: standard input holds the three streams, as document 01's listing program takes them. Where
// the text cannot be written the program says so on standard error.

#![tactic(auto)]

use extents_text::Sizes;
use std::io;
use std::process::ExitCode;

// Bytes for an input, one more than the program takes, and for the text.
const INPUT: usize = 65_537;

const TEXT: usize = 8192;

fn main(rt: HostRuntime) -> io::Result<ExitCode> {
    let mut space = [0u8; INPUT];
    let n = intake::read_full(&mut rt.reader(), &mut space);
    let mut text = [0u8; TEXT];
    let end = extents_text::write_extents(numbers::cut(&space, 0, n), Sizes::Summed, &mut text);
    if rt.write_all(numbers::cut(&text, 0, end)).is_ok() {
        return Ok(ExitCode::SUCCESS);
    }
    eprintln!(rt; "extents: cannot write to standard output")?;
    Ok(ExitCode::FAILURE)
}
