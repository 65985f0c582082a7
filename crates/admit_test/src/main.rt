// Moving vectors and admissions on document 01's tables and on states at each limit.
// An admission's line has number, place and promise, then how many jobs wait after it and the last one's work and promise, then how
// many places of K, D and Y still hold the mark. The moving vectors' line has number, place and places, the same marks, and the vectors.
#![tactic(auto)]

use paper::{Latest, Request, Slot, State, Table, Work};
use std::io;
use telling::states::{at, say_job, waits};
use telling::tables::{m, table_of, task};
use telling::{MARK, marks, row, say};

fn moving(rt: &impl Print, t: Table, s: State) -> io::Result<()> {
    let mut k = [MARK; 16];
    let mut d = [MARK; 16];
    let mut y = [MARK; 16];
    let a = vectors::moving_vectors(t, s, &mut k, &mut d, &mut y);
    println!(rt;
        "moving {} {} {} {} {} {}",
        a.number,
        a.place,
        a.places,
        marks(&k),
        marks(&d),
        marks(&y)
    )?;
    if a.number == 0 {
        print!(rt; "K")?;
        row(rt, &k, a.places as usize)?;
        print!(rt; "D")?;
        row(rt, &d, a.places as usize)?;
        print!(rt; "Y")?;
        row(rt, &y, a.places as usize)?;
    }
    Ok(())
}

// How many jobs wait, and the last of them; the first place where none waits.
fn tell_last(rt: &impl Print, s: State) -> io::Result<()> {
    say(rt, u64::from(s.waiting))?;
    if let Some(j) = s.jobs.get((s.waiting as usize).saturating_sub(1)) {
        say_job(rt, *j)?;
    }
    Ok(())
}

// One admission, shown; the state after it.
fn ask(rt: &impl Print, t: Table, s: State, work: u16, latest: Latest) -> io::Result<State> {
    let mut k = [MARK; 16];
    let mut d = [MARK; 16];
    let mut y = [MARK; 16];
    let a = admit::admit(t, s, work, latest, &mut k, &mut d, &mut y);
    print!(rt; "admission {} {} {}", a.number, a.place, a.promise.0)?;
    tell_last(rt, a.state)?;
    println!(rt; " {} {} {}", marks(&k), marks(&d), marks(&y))?;
    Ok(a.state)
}

fn any(rt: &impl Print, t: Table, s: State, work: u16) -> io::Result<State> {
    ask(rt, t, s, work, Latest::None)
}

fn by(rt: &impl Print, t: Table, s: State, work: u16, latest: u64) -> io::Result<State> {
    ask(rt, t, s, work, Latest::By(Slot(latest)))
}

fn on(t: Table) -> State {
    state::power_on(t).state
}

// The state after n slots.
fn run(t: Table, s: State, n: usize) -> State {
    (0..n).fold(s, |u, _| slot::slot(t, u).state)
}

// The same state with its first request done.
fn first_done(s: State) -> State {
    let mut requests = s.requests;
    requests[0] = Request { work: Work::Done };
    State { requests, ..s }
}

// M at 0: work 1, 3, 4, 5, 30,000 and 30,001, and none.
fn m_at_0(rt: &impl Print) -> io::Result<()> {
    let s = on(m());
    moving(rt, m(), s)?;
    for work in [1, 3, 4, 5, 30000, 30001, 0] {
        any(rt, m(), s, work)?;
    }
    Ok(())
}

// M in document 01's run, at 3, and at 9 with no job so far.
fn m_later(rt: &impl Print) -> io::Result<()> {
    let one = run(m(), on(m()), 1);
    let asked = any(rt, m(), one, 2)?;
    let three = run(m(), asked, 2);
    moving(rt, m(), three)?;
    any(rt, m(), three, 4)?;
    by(rt, m(), three, 4, 14)?;
    by(rt, m(), three, 4, 13)?;
    let nine = run(m(), on(m()), 9);
    moving(rt, m(), nine)?;
    any(rt, m(), nine, 2)?;
    Ok(())
}

// 000's table with 25 idle slots left of its first window, and need 68.
fn of_000(rt: &impl Print) -> io::Result<()> {
    let t = table_of(&[task(5, 25, 30), task(10, 40, 50), task(20, 55, 75)]);
    let s = run(t, on(t), 120);
    moving(rt, t, s)?;
    any(rt, t, s, 68)?;
    Ok(())
}

// One idle slot in 30,000: eight jobs of 30,000, and a ninth.
fn far(rt: &impl Print) -> io::Result<()> {
    let t = table_of(&[task(2, 3000, 3000), task(9993, 10000, 10000)]);
    let mut s = on(t);
    for _ in 0..8 {
        s = any(rt, t, s, 30000)?;
    }
    any(rt, t, s, 1)?;
    Ok(())
}

// At the clock's end: a promise at it, one slot after it, and no idle slot at all.
fn near_the_end(rt: &impl Print) -> io::Result<()> {
    let even = table_of(&[task(1, 1, 2)]);
    let odd = table_of(&[task(1, 2, 2)]);
    any(rt, even, at(on(even), 1099511627774), 1)?;
    any(rt, odd, at(on(odd), 1099511627774), 1)?;
    any(rt, odd, at(on(odd), 1099511627774), 2)?;
    any(rt, odd, at(on(odd), 1099511627776), 1)?;
    let full = table_of(&[task(1, 1, 2), task(1, 2, 2)]);
    any(rt, full, on(full), 1)?;
    any(rt, full, on(full), 30000)?;
    Ok(())
}

// Refusals before 9 leave the vectors, and 9 fills them: now past the clock, a promise at now, work that can't be met, a tally that is
// wrong, and promises that are late, early and right.
fn states(rt: &impl Print) -> io::Result<()> {
    let s = on(m());
    any(rt, m(), at(s, 1099511627777), 1)?;
    any(rt, m(), waits(s, 1, 0), 1)?;
    moving(rt, m(), waits(s, 1, 0))?;
    any(rt, m(), at(s, 2), 1)?;
    any(rt, m(), first_done(s), 1)?;
    any(rt, m(), waits(s, 2, 9), 1)?;
    any(rt, m(), waits(s, 2, 3), 1)?;
    any(rt, m(), waits(s, 2, 4), 1)?;
    any(rt, table_of(&[]), s, 1)?;
    Ok(())
}

fn main(rt: HostRuntime) -> io::Result<()> {
    m_at_0(&rt)?;
    m_later(&rt)?;
    of_000(&rt)?;
    far(&rt)?;
    near_the_end(&rt)?;
    states(&rt)
}
