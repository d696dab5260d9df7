// Cases behind their lengths.
ghost use Rattle.std.specs.Prelude.{◌≡◌, ℕ, ◌+◌, ◌≤◌, List, length, IfSome};
ghost use Rattle.numbers.specs.Fixed.{le_at};
ghost use Rattle.std.specs.Io.KnownBytes.{Consumes};

use crate::tally::Tally;
use std::fs;
use std::io::Read;
use std::rt::Files;

// No file has as many cases.
const MOST_CASES: u64 = 1_000_000_000;

// So many of the cases that differ are told.
const MOST_TOLD: u64 = 10;

// The next n bytes of a file, at the front of a buffer, if they come and have room.
pub fn read_front<'a, R: Read>(file: &mut R, buffer: &'a mut [u8], n: usize) -> Option<&'a [u8]>
    ensures sized { IfSome result (λ part. length part.now ≡ n) }
    ensures bytes { IfSome result (λ part. Consumes (R.remaining file.old) (R.remaining file.new) part.now) }
{
    let front = buffer.get_mut(..n)?;
    file.read_exact(front).ok()?;
    Some(front)
}

// The next number of a file, of 4 bytes, little-endian.
pub fn read_length<R: Read>(file: &mut R) -> Option<usize>
    ensures { IfSome result (λ n. (b : List ℕ) × (length b ≡ 4) × Consumes (R.remaining file.old) (R.remaining file.new) b × (n ≡ le_at 4 b 0)) }
{
    let mut bytes = [0u8; 4];
    file.read_exact(&mut bytes).ok()?;
    Some(numbers::read_four(&bytes, 0) as usize)
}

// Replays the cases of a file, by what says of the next whether it agrees, or that there is none. The path is written, with what stands
// behind it; the first ten cases that differ, counted from 0; and the tally. If the file cannot be opened, standard error says why.
pub fn replay_file<R: Files + Print + Eprint, F: FnMut(&mut R::File) -> Option<bool>>(
    rt: &R,
    path: &str,
    heading: &str,
    next_agrees: F,
) -> Tally
    requires { F.IsAlwaysCallable next_agrees }
    ensures { result.agreed + result.differed ≤ MOST_CASES }
{
    match fs::open(rt, path) {
        Ok(mut file) => {
            let _ = println!(rt; "{path}{heading}");
            let tally = replay(rt, &mut file, next_agrees);
            let _ = println!(rt; "{tally}");
            tally
        }
        Err(why) => {
            let _ = eprintln!(rt; "{path}: {why}");
            Tally::default()
        }
    }
}

fn replay<R: Read, F: FnMut(&mut R) -> Option<bool>>(
    rt: &impl Print,
    file: &mut R,
    mut next_agrees: F,
) -> Tally
    requires { F.IsAlwaysCallable next_agrees }
    ensures { result.agreed + result.differed ≤ MOST_CASES }
{
    let mut tally = Tally::default();
    for case in 0..MOST_CASES {
        let Some(agrees) = next_agrees(file) else {
            return tally;
        };
        if !agrees && tally.differed < MOST_TOLD {
            let _ = println!(rt; "differs: case {case}");
        }
        tally.count(agrees);
    }
    tally
}
