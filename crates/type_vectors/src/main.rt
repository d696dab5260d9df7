// Renders types of signatures from the file `cases` and compares: data/cases holds what tests/oracle/type_cases writes; then, in the same
// way, those of the file `wrong`, which are wrong on purpose, so that a program that finds no difference is found out. What stands before
// the first `@` is passed over; each `@` begins a block: a line with its name, the lines `tables HEX`, `strings HEX` and `blob HEX`,
// with `-` for an empty stream, then a line for each type (see types.rt). Lines that are empty or begin with `#` are passed over. Each
// type that differs is written as `FAIL` and its line; each block as `ok` or `FAIL`, its name and its types.

#![tactic(auto)]

mod pieces;
mod types;

use replaying::replay_blocks;
use std::fs;
use types::agrees;

fn main(rt: HostRuntime) {
    for path in ["cases", "wrong"] {
        match fs::open(&rt, path) {
            Ok(mut file) => replay_blocks(&rt, &mut file, |block, line| Some(agrees(block, line))),
            Err(why) => {
                let _ = eprintln!(rt; "{path}: {why}");
            }
        }
    }
}
