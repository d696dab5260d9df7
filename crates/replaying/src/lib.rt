// What the programs that replay recorded cases share: the tally of those that agree, the two forms in which a file holds them, and what a
// lent buffer is to hold. In one form each case stands behind its lengths; in the other the cases are lines of text, in blocks.

#![tactic(auto)]

mod blocks;
mod cases;
mod expected;
mod tally;

pub use blocks::{Block, replay_blocks, replay_blocks_sharing};
pub use cases::{read_front, read_length, replay_file};
pub use expected::{Refused, holds, is_answer};
pub use tally::Tally;
