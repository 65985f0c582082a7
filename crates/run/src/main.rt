// The run program: tagged fields on standard input, the listing of their run on standard output.
#![tactic(auto)]

ghost use Rattle.std.specs.Prelude.{◌≡◌, ◌≤◌, length, IfOk, replicate};
ghost use Rattle.listing.specs.Run.{begun, part};

use input::read_full;
use listing::{Running, begin, run_part};
use std::io;

// The bytes that stand in the buffer are written, and the run goes on.
fn hand_over(rt: &impl Print, r: Running, out: &[u8]) -> io::Result<Running>
    requires { r.written ≤ length out.now }
    ensures { IfOk result (λ s. s ≡ r) }
{
    rt.write_all(&out[..r.written])?;
    Ok(r)
}

// The beginning of the listing.
fn start(rt: &impl Print, bytes: &[u8]) -> io::Result<Running>
    ensures { IfOk result (λ r. r ≡ (begun bytes.now (replicate 65536 0)).running) }
{
    let mut out = [0u8; 65536];
    let r = begin(bytes, &mut out);
    hand_over(rt, r, &out)
}

// As many lines as the buffer holds.
fn part(rt: &impl Print, bytes: &[u8], r: Running) -> io::Result<Running>
    ensures { IfOk result (λ s. s ≡ (part bytes.now r (replicate 65536 0)).running) }
{
    let mut out = [0u8; 65536];
    let s = run_part(bytes, r, &mut out);
    hand_over(rt, s, &out)
}

// The beginning and then parts until the run is over: joined, they are the paper's listing (listing/specs/Whole.antt).
fn list(rt: &impl Print, bytes: &[u8]) -> io::Result<()> {
    let mut r = start(rt, bytes)?;
    while r.now < r.end {
        r = part(rt, bytes, r)?;
    }
    Ok(())
}

// More is read than a file may have, and a longer one has the listing of what was read (listing/specs/Cut.antt).
fn main(rt: HostRuntime) -> io::Result<()> {
    let mut space = [0u8; 65536];
    let mut from = rt.reader();
    let n = read_full(&mut from, &mut space)?;
    list(&rt, &space[..n])
}
