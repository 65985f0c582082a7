// Document 01's worked tables, and tables at each limit: what the table check answers, and what it leaves in the lent vectors.
// A line has number, place, window, places and F, and how many places of K and of D still hold the mark; then come K and D,
// of more than nineteen places only the last.
#![tactic(auto)]

ghost use Rattle.std.specs.Prelude.{◌≤◌};

use paper::{Table, Task};
use std::io;
use telling::tables::{m, table_of, task};
use telling::{MARK, marks, row};

// The check of a table in vectors of so many places.
fn check_in<const K: usize, const D: usize>(rt: &impl Print, t: Table) -> io::Result<()>
    requires of_k { K ≤ 1030 }
    requires of_d { D ≤ 1030 }
{
    let mut k = [MARK; K];
    let mut d = [MARK; D];
    let a = table::check_table(t, &mut k, &mut d);
    println!(rt;
        "table {} {} {} {} {} {} {}",
        a.number,
        a.place,
        a.window,
        a.places,
        a.idle,
        marks(&k),
        marks(&d)
    )?;
    if a.number == 0 {
        print!(rt; "K")?;
        row(rt, &k, a.places as usize)?;
        print!(rt; "D")?;
        row(rt, &d, a.places as usize)?;
    }
    Ok(())
}

fn check(rt: &impl Print, t: Table) -> io::Result<()> {
    check_in::<1030, 1030>(rt, t)
}

// Sixteen tasks, each of the same deadline as period, and a window of 30,000.
fn sixteen() -> [Task; 16] {
    [
        task(90, 10000, 10000),
        task(80, 7500, 7500),
        task(70, 6000, 6000),
        task(60, 5000, 5000),
        task(50, 3750, 3750),
        task(40, 3000, 3000),
        task(30, 2500, 2500),
        task(20, 2000, 2000),
        task(19, 1875, 1875),
        task(18, 1500, 1500),
        task(17, 1250, 1250),
        task(16, 1200, 1200),
        task(15, 1000, 1000),
        task(14, 750, 750),
        task(13, 625, 625),
        task(12, 600, 600),
    ]
}

// One task more.
fn seventeen() -> [Task; 17] {
    let mut ts = [task(1, 600, 600); 17];
    ts[..16].copy_from_slice(&sixteen());
    ts
}

fn worked(rt: &impl Print) -> io::Result<()> {
    check(rt, m())?;
    check(rt, table_of(&[task(2, 3, 5)]))?;
    check(rt, table_of(&[task(2, 2, 4), task(2, 3, 4)]))?;
    check(rt, table_of(&[task(1, 1, 2), task(1, 2, 2)]))?;
    check(
        rt,
        table_of(&[task(5, 25, 30), task(10, 40, 50), task(20, 55, 75)]),
    )?;
    check(rt, table_of(&[task(1, 2, 2), task(1, 2046, 2046)]))?;
    check(rt, table_of(&[task(1, 2, 2), task(1, 2045, 2046)]))?;
    check(rt, table_of(&[task(1, 3000, 3000), task(1, 10000, 10000)]))?;
    check(rt, table_of(&[task(1, 9999, 9999), task(1, 10000, 10000)]))
}

fn limits(rt: &impl Print) -> io::Result<()> {
    check(rt, table_of(&[task(1, 19, 19), task(1, 1579, 1579)]))?;
    check(rt, table_of(&sixteen()))?;
    check(rt, table_of(&seventeen()))?;
    check(rt, table_of(&[]))?;
    check(rt, table_of(&[task(2, 3, 5), task(9, 8, 10)]))?;
    check(rt, table_of(&[task(0, 3, 5), task(9, 8, 10)]))?;
    check(rt, table_of(&[task(1, 1, 1), task(1, 10001, 10001)]))?;
    check(rt, table_of(&[task(1, 5, 5), task(1, 6, 6), task(3, 8, 7)]))?;
    check_in::<2, 3>(rt, m())?;
    check_in::<3, 2>(rt, m())?;
    check_in::<3, 2>(rt, table_of(&[task(2, 2, 4), task(2, 3, 4)]))?;
    check_in::<3, 2>(rt, table_of(&[task(2, 3, 5)]))
}

fn main(rt: HostRuntime) -> io::Result<()> {
    worked(&rt)?;
    limits(&rt)
}
