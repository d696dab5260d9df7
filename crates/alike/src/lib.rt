// Demand 3 on the calls: the walk and every question, asked alike on a tables stream and on an allowed rearrangement of it, get the same
// reply, leave the same buffer and leave as much of the allowance. Each function makes its call on both, and is proved from the call's
// contract alone. A named call asks one question, and promises what the ask does of it.

#![tactic(auto)]

ghost use Rattle.std.specs.Prelude.{◌≡◌, length};
ghost use Rattle.header.specs.Stream.{base};
ghost use Rattle.record.specs.Rearrangement.{Rearranged};

use asks::{Allowance, Question};
use buffers::Reply;
use header::Options;
use questions::{NameQuestion, NumberQuestion};
use steps::Charged;
use tables::Extents;

// What a call hands back on the one stream and on the other.
#[derive(Drop)]
struct Both<T> {
    before: T,
    after: T,
}

fn walk_alike(t: &[u8], u: &[u8]) -> Both<Extents>
    requires { Rearranged base t.now u.now }
    ensures { result.after ≡ result.before }
{
    let before = dotnet::walk(t);
    let after = dotnet::walk(u);
    Both { before, after }
}

fn walk_with_alike(t: &[u8], u: &[u8], options: Options) -> Both<Extents>
    requires { Rearranged options t.now u.now }
    ensures { result.after ≡ result.before }
{
    let before = dotnet::walk_with(t, options);
    let after = dotnet::walk_with(u, options);
    Both { before, after }
}

// Any call for a number.
fn ask_number_alike(
    t: &[u8],
    u: &[u8],
    strings: &[u8],
    blob: &[u8],
    options: Options,
    steps: u64,
    question: NumberQuestion,
) -> Both<Charged>
    requires { Rearranged options t.now u.now }
    ensures { (result.after.reply ≡ result.before.reply) × (result.after.left ≡ result.before.left) }
{
    let before = dotnet::ask_number(t, strings, blob, options, steps, question);
    let after = dotnet::ask_number(u, strings, blob, options, steps, question);
    Both { before, after }
}

// Any call for a name.
fn ask_name_alike(
    t: &[u8],
    u: &[u8],
    strings: &[u8],
    blob: &[u8],
    options: Options,
    steps: u64,
    question: NameQuestion,
    buf: &mut [u8],
    other: &mut [u8],
) -> Both<Charged>
    requires rearranged { Rearranged options t.now u.now }
    requires other_len { length other.old ≡ length buf.old }
    ensures { (result.after.reply ≡ result.before.reply) × (other.new ≡ buf.new) × (result.after.left ≡ result.before.left) }
{
    let before = dotnet::ask_name(t, strings, blob, options, steps, question, buf);
    let after = dotnet::ask_name(u, strings, blob, options, steps, question, other);
    Both { before, after }
}

// Any call within an allowance that is lent.
fn ask_within_alike(
    t: &[u8],
    u: &[u8],
    strings: &[u8],
    blob: &[u8],
    options: Options,
    allowance: &mut Allowance,
    spare: &mut Allowance,
    question: Question,
    buf: &mut [u8],
    other: &mut [u8],
) -> Both<Reply>
    requires { Rearranged options t.now u.now × (length other.old ≡ length buf.old) × (spare.old.left ≡ allowance.old.left) }
    ensures { (result.after ≡ result.before) × (other.new ≡ buf.new) × (spare.new.left ≡ allowance.new.left) }
{
    let before = dotnet::ask_within(t, strings, blob, options, allowance, question, buf);
    let after = dotnet::ask_within(u, strings, blob, options, spare, question, other);
    Both { before, after }
}
