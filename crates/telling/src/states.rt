// States changed in one part each, and a job told.
ghost use Rattle.std.specs.Prelude.{◌≡◌, IfOk};
ghost use Rattle.telling.specs.Made.{at, waits};

use paper::{Job, Slot, State};
use std::{fmt, io};

// The same state at another slot.
pub fn at(s: State, now: u64) -> State
    ensures { result ≡ at s now }
{
    State {
        now: Slot(now),
        ..s
    }
}

// The same state with this job alone.
pub fn waits(s: State, left: u16, promise: u64) -> State
    ensures { result ≡ waits s left promise }
{
    let mut jobs = s.jobs;
    jobs[0] = Job {
        left,
        promise: Slot(promise),
    };
    State {
        jobs,
        waiting: 1,
        ..s
    }
}

// A job as it is told: its work left and its promise, each behind a blank.
#[derive(Clone, Copy)]
pub struct ToldJob(pub Job);

impl fmt::Display for ToldJob {
    fn fmt<W: fmt::Write>(&self, f: &mut fmt::Formatter<W>) -> fmt::Result {
        write!(f, " {} {}", self.0.left, self.0.promise.0)
    }
}

// A job's work left and its promise.
pub fn say_job(rt: &impl Print, j: Job) -> io::Result<Job>
    ensures { IfOk result (λ x. x ≡ j) }
{
    let told = ToldJob(j);
    print!(rt; "{told}")?;
    Ok(told.0)
}
