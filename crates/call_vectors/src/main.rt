// Replays recorded answers of the public calls from the files `cases`, `steps` and `modes`: data/cases holds what tests/oracle/record_calls
// writes, data/steps what it writes of allowances, data/modes of both modes of opening; then, in the same way, answers that are wrong on
// purpose from the file `wrong`, so that a program that finds no difference is found out. What stands before the first `@` is passed over;
// each `@` begins a block: a line with its name, the lines `tables HEX`, `strings HEX` and `blob HEX`, with `-` for an empty stream, if its
// options are not 0 a line `options N`, the bits that C takes, then a line for each answer (see recorded.rt). Lines that are empty or begin
// with `#` are passed over. Each answer that differs is written as `FAIL` and its line; each block as `ok` or `FAIL`, its name and its
// answers.

#![tactic(auto)]

mod recorded;

use recorded::{agrees, options_in};
use replaying::replay_blocks_sharing;
use std::fs;

fn main(rt: HostRuntime) {
    for path in ["cases", "steps", "modes", "wrong"] {
        match fs::open(&rt, path) {
            Ok(mut file) => replay_blocks_sharing(&rt, &mut file, options_in, agrees),
            Err(why) => {
                let _ = eprintln!(rt; "{path}: {why}");
            }
        }
    }
}
