// An allowance of steps (request 2026-06), and what is left of it: after counting, and after a reply. A step is a type byte that is read.

#![tactic(auto)]

ghost use Rattle.std.specs.Prelude.{◌≡◌, ℕ, ◌+◌, ◌-◌};
ghost use Rattle.buffers.specs.Replies.{number, reply_says};
ghost use Rattle.record.specs.Allowance.{is_paid, cost};

use buffers::{Refusal, Reply};

// The reply of a call, and what is left of its allowance.
#[derive(Clone, Copy, Debug, PartialEq, Eq)]
pub struct Charged {
    pub reply: Reply,
    pub left: u64,
}

// Whether a refusal is paid for: a name that is missing, and one that is longer than the lent buffer.
fn is_paid(why: Refusal) -> bool
    ensures { result ≡ is_paid (number why) }
{
    matches!(why, Refusal::NoName(_) | Refusal::BufferTooSmall)
}

// What is left after a reply that is not 11, by what was left before it was counted and after. A refusal that is not paid for takes nothing.
#[tactic(auto, unfolding(record::specs::Allowance::cost))]
pub fn left_after(reply: Reply, before: u64, after: u64) -> u64
    ensures { (n : ℕ) → n + after ≡ before → result ≡ before - cost n (reply_says reply) }
{
    match reply {
        Err(why) if !is_paid(why) => before,
        _ => after,
    }
}
