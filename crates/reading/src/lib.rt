// The bytes that a reader gives, as many as a lent space holds.
#![tactic(auto)]

ghost use Rattle.std.specs.Prelude.{◌≡◌, ◌≤◌, length, take, IfOk, IfSome};

use std::io::{self, Read};

// Reads until the space is full or the reader's bytes end, and answers how many bytes there are.
pub fn read_full<R: Read>(reader: &mut R, space: &mut [u8]) -> io::Result<usize>
    ensures within { IfOk result (λ n. n ≤ length space.old) }
    ensures bytes { IfOk result
        (λ n. IfSome (R.remaining reader.old)
        (λ xs. take n space.new ≡ take (length space.old) xs)) }
{
    let mut got = 0;
    // a step is what the reader gives, so that no range counts the steps; the library's `read_exact` does not say how
    // much came where the bytes end early, and `read_to_end` takes a heap
    while got < space.len() {
        let n = reader.read(&mut space[got..])?;
        if n == 0 {
            break;
        }
        got += n;
    }
    Ok(got)
}
