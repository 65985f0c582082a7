// Slots on document 01's tables and on states at each limit. A line has number, place, who (0 idle, the task, or 17 and the promise) and
// ready word, then now, A, I and the count of jobs, what is left of the first three requests, and the first, second and last job.
#![tactic(auto)]

use paper::{Job, Request, Slot, State, Table, Who, Work};
use std::{fmt, io};
use telling::say;
use telling::states::{ToldJob, at, waits};
use telling::tables::{m, table_of, task};

// Who ran, as it is told.
#[derive(Clone, Copy)]
struct ToldWho(Who);

impl fmt::Display for ToldWho {
    fn fmt<W: fmt::Write>(&self, f: &mut fmt::Formatter<W>) -> fmt::Result {
        match self.0 {
            Who::Idle => f.write_str(" 0"),
            Who::Task(j) => write!(f, " {j}"),
            Who::Job(p) => write!(f, " 17 {}", p.0),
        }
    }
}

// A state, as it is told.
#[derive(Clone, Copy)]
struct ToldState(State);

impl fmt::Display for ToldState {
    fn fmt<W: fmt::Write>(&self, f: &mut fmt::Formatter<W>) -> fmt::Result {
        let s = self.0;
        write!(f, " | {} {} {} {} |", s.now.0, s.given, s.idle, s.waiting)?;
        for r in &s.requests[..3] {
            write!(f, " {}", r.left())?;
        }
        write!(
            f,
            " :{} :{} :{}",
            ToldJob(s.jobs[0]),
            ToldJob(s.jobs[1]),
            ToldJob(s.jobs[7])
        )
    }
}

// One slot, shown; the state after it.
fn step(rt: &impl Print, t: Table, s: State) -> io::Result<State> {
    let a = slot::slot(t, s);
    say(rt, u64::from(a.number))?;
    say(rt, u64::from(a.place))?;
    println!(rt; "{} {}{}", ToldWho(a.who), a.ready, ToldState(a.state))?;
    Ok(a.state)
}

// Some slots, shown; the state after them.
fn steps(rt: &impl Print, t: Table, start: State, slots: u32) -> io::Result<State> {
    let mut s = start;
    for _ in 0..slots {
        s = step(rt, t, s)?;
    }
    Ok(s)
}

// One slot on M.
fn on_m(rt: &impl Print, s: State) -> io::Result<()> {
    step(rt, m(), s)?;
    Ok(())
}

fn on(t: Table) -> State {
    state::power_on(t).state
}

// ---- states

// The state with nothing left and no job, at a slot.
fn idle_at(now: u64) -> State {
    at(state::all_zero(), now)
}

fn with_job(s: State, place: usize, left: u16, promise: u64) -> State {
    let mut jobs = s.jobs;
    if let Some(j) = jobs.get_mut(place) {
        *j = Job {
            left,
            promise: Slot(promise),
        };
    }
    State { jobs, ..s }
}

fn with_left(s: State, place: usize, left: u16) -> State {
    let mut requests = s.requests;
    if let Some(r) = requests.get_mut(place) {
        *r = Request {
            work: Work::Left(left),
        };
    }
    State { requests, ..s }
}

fn with_count(s: State, waiting: u8) -> State {
    State { waiting, ..s }
}

fn with_tallies(s: State, given: u16, idle: u16) -> State {
    State { given, idle, ..s }
}

// Eight jobs at slot 5 of M, the oldest with one unit left.
fn full() -> State {
    let promises = [6, 20, 30, 40, 50, 60, 70, 80];
    let mut s = with_count(idle_at(5), 8);
    for (place, (left, promise)) in (1..9).zip(promises).enumerate() {
        s = with_job(s, place, left, promise);
    }
    s
}

// ---- cases

// Document 01's run and one slot more: work 2 is admitted at slot 1 with the promise 4.
fn example(rt: &impl Print) -> io::Result<()> {
    let s = step(rt, m(), on(m()))?;
    steps(rt, m(), waits(s, 2, 4), 10)?;
    Ok(())
}

// A job of the same promise as the first deadline runs before it.
fn tie(rt: &impl Print) -> io::Result<()> {
    on_m(rt, waits(on(m()), 1, 3))
}

// A table that fails 6 runs until its third slot.
fn overfull(rt: &impl Print) -> io::Result<()> {
    let t = table_of(&[task(2, 2, 4), task(2, 3, 4)]);
    steps(rt, t, on(t), 3)?;
    Ok(())
}

// The clock's end: slot H - 1 runs, slot H is refused, also with overdue work; above H is misshapen.
fn clock(rt: &impl Print) -> io::Result<()> {
    let end = paper::CLOCK_END;
    steps(rt, m(), idle_at(1099511627775), 2)?;
    on_m(rt, waits(idle_at(end), 1, 5))?;
    on_m(rt, idle_at(1099511627777))
}

// Misshapen in one place each: a request, an unused place, a job's left, a promise, the tallies.
fn bad_requests(rt: &impl Print) -> io::Result<()> {
    on_m(rt, with_left(idle_at(0), 0, 0))?;
    on_m(rt, with_left(idle_at(0), 0, 3))?;
    on_m(rt, with_left(idle_at(0), 2, 1))
}

fn bad_places(rt: &impl Print) -> io::Result<()> {
    on_m(rt, with_job(idle_at(0), 0, 1, 9))?;
    on_m(rt, with_job(idle_at(0), 7, 0, 1))?;
    on_m(rt, with_count(idle_at(0), 9))
}

// One job of this left and promise waits at slot 0 of M.
fn one_job(rt: &impl Print, left: u16, promise: u64) -> io::Result<()> {
    on_m(rt, waits(idle_at(0), left, promise))
}

fn bad_jobs(rt: &impl Print) -> io::Result<()> {
    one_job(rt, 0, 9)?;
    one_job(rt, 30001, 9)?;
    one_job(rt, 1, 1099511627777)?;
    let two = with_job(with_job(idle_at(0), 0, 1, 9), 1, 1, 9);
    on_m(rt, with_count(two, 2))
}

fn bad_tallies(rt: &impl Print) -> io::Result<()> {
    on_m(rt, with_tallies(idle_at(9), 5, 5))?;
    on_m(rt, with_tallies(idle_at(9), 65535, 65535))
}

// Overdue: a promise of 0, a deadline at now, and a promise that the next now would pass.
fn overdue(rt: &impl Print) -> io::Result<()> {
    one_job(rt, 1, 0)?;
    on_m(rt, with_left(idle_at(8), 1, 1))?;
    on_m(rt, with_left(idle_at(7), 1, 2))?;
    on_m(rt, with_left(idle_at(7), 1, 1))?;
    one_job(rt, 2, 1)
}

// The rest move up; the tallies are as many as the offset, and are 0 at a window's start; a Done request at its own release.
fn runs(rt: &impl Print) -> io::Result<()> {
    on_m(rt, full())?;
    on_m(rt, with_tallies(idle_at(8), 4, 4))?;
    on_m(rt, with_tallies(idle_at(9), 5, 4))?;
    on_m(rt, idle_at(0))
}

// Tables that are refused; power-on of the second of them, and of the third, which it takes.
fn bad_tables(rt: &impl Print) -> io::Result<()> {
    let late = table_of(&[task(2, 3, 5), task(9, 8, 10)]);
    let long = table_of(&[task(1, 9999, 9999), task(1, 10000, 10000)]);
    for t in [table_of(&[]), late, long] {
        step(rt, t, idle_at(0))?;
    }
    let a = state::power_on(late);
    say(rt, u64::from(a.number))?;
    say(rt, u64::from(a.place))?;
    println!(rt; "{}", ToldState(a.state))?;
    println!(rt; "{}", ToldState(on(long)))
}

fn main(rt: HostRuntime) -> io::Result<()> {
    example(&rt)?;
    tie(&rt)?;
    overfull(&rt)?;
    clock(&rt)?;
    bad_requests(&rt)?;
    bad_places(&rt)?;
    bad_jobs(&rt)?;
    bad_tallies(&rt)?;
    overdue(&rt)?;
    runs(&rt)?;
    bad_tables(&rt)
}
