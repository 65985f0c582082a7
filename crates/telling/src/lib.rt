// What the test programs share: how a number, a line, a vector and a job are told on standard output, and the tables and states that they ask about.
// No contract can speak of what is written. So each function that tells gives back what it told, of a vector how many places, and its contract says that.
#![tactic(auto)]

ghost use Rattle.std.specs.Prelude.{◌≡◌, min, take, length, IfOk};
ghost use Rattle.telling.specs.Marks.{marks};

use std::io;

mod rows;
pub mod states;
pub mod tables;

pub use rows::Row;

// What each place of a lent vector holds before a call: no offset and no count of idle slots is as large.
pub const MARK: u16 = 65535;

// A number that begins a line.
pub fn number(rt: &impl Print, n: u64) -> io::Result<u64>
    ensures { IfOk result (λ x. x ≡ n) }
{
    print!(rt; "{n}")?;
    Ok(n)
}

// A blank and a number.
pub fn say(rt: &impl Print, n: u64) -> io::Result<u64>
    ensures { IfOk result (λ x. x ≡ n) }
{
    print!(rt; " ")?;
    number(rt, n)
}

// The line's end; the byte that ends it.
pub fn end_line(rt: &impl Print) -> io::Result<u8>
    ensures { IfOk result (λ x. x ≡ 10) }
{
    let end = b'\n';
    print!(rt; "{}", char::from(end))?;
    Ok(end)
}

// The first n places of a vector, or all if it has fewer.
pub fn first(v: &[u16], n: usize) -> Row<'_>
    ensures { result.places.now ≡ take n v.now }
{
    Row {
        places: &v[..n.min(v.len())],
    }
}

// The first n places of a vector, to the line's end. How many there are.
pub fn row(rt: &impl Print, v: &[u16], n: usize) -> io::Result<usize>
    ensures { IfOk result (λ x. x ≡ min n (length v.now)) }
{
    let told = first(v, n);
    println!(rt; "{told}")?;
    Ok(told.places.len())
}

// How many places of a vector hold the mark.
pub fn marks(v: &[u16]) -> usize
    ensures { result ≡ marks v.now }
{
    v.iter().filter(|n| **n == MARK).count()
}
