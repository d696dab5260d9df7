// Runs the cases of three files, a line each: data/cases, which holds document 01's "Bytes to try", the standard's own examples and the
// edges beside them; data/recorded, which holds answers of the Rust; and data/wrong, whose answers are wrong on purpose, so that a program
// that finds no difference is found out. A line is `KIND BYTES NUMBER = EXPECTED`: the bytes in hex, `-` for none. Lines that are empty or
// begin with `#` are passed over. A case that fails is written as `WRONG`, its line and what came; one that agrees as `ok` and its line.
// Of the recorded ones that agree only the number is written.

#![tactic(auto)]

mod answers;
mod walk_text;

use case_text::{cut_at, is_case};
use replaying::Tally;
use std::fs;
use std::rt::Files;

// Bytes for a file of cases, for the bytes of a case, and for its answer.
const ROOM: usize = 65_536;

const BYTES: usize = 256;

const ANSWER: usize = 256;

// Each part is tried, also where one before it cannot be written.
fn write_agreed(rt: &impl Print, line: &[u8]) {
    let _ = rt.write_all(b"ok    ");
    let _ = rt.write_all(line);
    let _ = rt.write_all(b"\n");
}

fn write_wrong(rt: &impl Print, line: &[u8], came: &[u8]) {
    let _ = rt.write_all(b"WRONG ");
    let _ = rt.write_all(line);
    let _ = rt.write_all(b", came ");
    let _ = rt.write_all(came);
    let _ = rt.write_all(b"\n");
}

// Whether the case agrees.
fn run_case(rt: &impl Print, line: &[u8], loud: bool) -> bool {
    let (kind, rest) = cut_at(line, b' ');
    let (hex, rest) = cut_at(rest, b' ');
    let (digits, rest) = cut_at(rest, b' ');
    let expected = rest.get(2..).unwrap_or_default();
    let mut bytes = [0u8; BYTES];
    let n = case_text::read_hex(hex, &mut bytes);
    let number = case_text::read_decimal(digits);
    let mut space = [0u8; ANSWER];
    let m = answers::push_answer(&mut space, kind, numbers::cut(&bytes, 0, n), number);
    let came = numbers::cut(&space, 0, m);
    let agrees = came == expected;
    if !agrees {
        write_wrong(rt, line, came);
    } else if loud {
        write_agreed(rt, line);
    }
    agrees
}

// The cases of a text.
fn run_cases(rt: &impl Print, text: &[u8], loud: bool) -> Tally {
    let mut tally = Tally::default();
    let lines = text.split(|b| *b == b'\n');
    for line in lines.filter(|line| is_case(line)) {
        tally.count(run_case(rt, line, loud));
    }
    tally
}

// The cases of a file, or none where it cannot be opened, which standard error says.
fn run_file(rt: &(impl Files + Print + Eprint), path: &str, loud: bool) -> Tally {
    match fs::open(rt, path) {
        Ok(mut file) => {
            let mut space = [0u8; ROOM];
            let n = intake::read_full(&mut file, &mut space);
            run_cases(rt, numbers::cut(&space, 0, n), loud)
        }
        Err(why) => {
            let _ = eprintln!(rt; "{path}: {why}");
            Tally::default()
        }
    }
}

fn main(rt: HostRuntime) {
    run_file(&rt, "cases", true);
    let agreed = run_file(&rt, "recorded", false).agreed;
    let _ = println!(rt; "{agreed} recorded answers of the Rust agree");
    let _ = println!(rt; "wrong on purpose:");
    run_file(&rt, "wrong", true);
}
