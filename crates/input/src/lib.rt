// A whole input read into a lent buffer, as far as it goes in.
#![tactic(auto)]

ghost use Rattle.std.specs.Prelude.{◌≤◌, length, IfOk};

use std::io::{Read, Result};

// Reads until the buffer is full or the input ends: how many bytes were read. A read that fails ends it, with its error.
// Not by `read_exact`, to which an input that ends early is an error, nor by `read_to_end`, which asks for a heap.
pub fn read_full(from: &mut impl Read, into: &mut [u8]) -> Result<usize>
    ensures { IfOk result (λ n. n ≤ length into.old) }
{
    let mut done = 0;
    while done < into.len() {
        let n = from.read(&mut into[done..])?;
        if n == 0 {
            break;
        }
        done += n;
    }
    Ok(done)
}
