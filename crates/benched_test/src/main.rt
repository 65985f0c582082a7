// The calls as bench/ measures them, on document 01's M: what each tells, and the first four places of the vectors that it was lent.
#![tactic(auto)]

use std::{fmt, io};
use telling::{MARK, Row};

// The vectors that a call is lent: K, D and Y.
#[derive(Drop)]
struct Lent {
    k: [u16; 4],
    d: [u16; 4],
    y: [u16; 4],
}

// Before a call.
fn marked() -> Lent {
    Lent {
        k: [MARK; 4],
        d: [MARK; 4],
        y: [MARK; 4],
    }
}

impl fmt::Display for Lent {
    fn fmt<W: fmt::Write>(&self, f: &mut fmt::Formatter<W>) -> fmt::Result {
        for places in [&self.k, &self.d, &self.y] {
            write!(f, " :{}", Row { places })?;
        }
        Ok(())
    }
}

// The slots to run.
fn slots(rt: &impl Print, bytes: &[u8]) -> io::Result<()> {
    println!(rt; "fields {}", benched::bench_fields(bytes))
}

// F, K and D.
fn table(rt: &impl Print, bytes: &[u8]) -> io::Result<()> {
    let mut k = [MARK; 4];
    let mut d = [MARK; 4];
    let told = benched::bench_table(bytes, &mut k, &mut d);
    println!(rt;
        "table {told} :{} :{}",
        Row { places: &k },
        Row { places: &d }
    )
}

// I after some jobs and slots.
fn stand(rt: &impl Print, bytes: &[u8], jobs: u32, work: u16, slots: u32) -> io::Result<()> {
    let mut v = marked();
    let told = benched::bench_stand(bytes, jobs, work, slots, &mut v.k, &mut v.d, &mut v.y);
    println!(rt; "stand {told}{v}")
}

// The places, and Y, after some slots.
fn moving(rt: &impl Print, bytes: &[u8], slots: u32) -> io::Result<()> {
    let mut v = marked();
    let told = benched::bench_moving(bytes, 0, 1, slots, &mut v.k, &mut v.d, &mut v.y);
    println!(rt; "moving {told}{v}")
}

// The promise of a last job, behind another.
fn admission(rt: &impl Print, bytes: &[u8], work: u16, more: u16) -> io::Result<()> {
    let mut v = marked();
    let told = benched::bench_admission(bytes, 1, work, 0, more, &mut v.k, &mut v.d, &mut v.y);
    println!(rt; "admission {told}{v}")
}

fn show(rt: &impl Print, m: &[u8]) -> io::Result<()> {
    slots(rt, m)?;
    table(rt, m)?;
    // no job: slot 4 is the first that is idle
    stand(rt, m, 0, 1, 4)?;
    stand(rt, m, 0, 1, 5)?;
    // a job of one unit takes slot 0, and slot 4 is not idle
    stand(rt, m, 1, 1, 5)?;
    moving(rt, m, 9)?;
    // need 3
    admission(rt, m, 1, 2)
}

fn main(rt: HostRuntime) -> io::Result<()> {
    show(
        &rt,
        b"\x01\x06\x00\x02\x00\x03\x00\x05\x00\x01\x06\x00\x02\x00\x08\x00\x0a\x00\x03\x04\x00\x0a\x00\x00\x00",
    )
}
