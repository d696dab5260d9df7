// The bytes of standard input or of a file, read into a lent buffer.

#![tactic(auto)]

ghost use Rattle.std.specs.Prelude.{◌≤◌, take, length};
ghost use Rattle.std.specs.Io.KnownBytes.{Consumes};

use std::io::Read;

// Reads until the buffer is full, the input ends or a read fails, and answers how many bytes it has put at the front of the buffer. They are
// those that are gone from the input, where its bytes are known.
pub fn read_full<R: Read>(input: &mut R, buffer: &mut [u8]) -> usize
    ensures in_bounds { result ≤ length buffer.new }
    ensures bytes { Consumes (R.remaining input.old) (R.remaining input.new) (take result buffer.new) }
{
    let mut done = 0;
    while done < buffer.len() {
        match input.read(&mut buffer[done..]) {
            Ok(0) | Err(_) => break,
            Ok(n) => done += n,
        }
    }
    done
}
