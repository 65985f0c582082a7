// The waiting jobs of a state: what of them is misshapen or late, and the work left of all.
ghost use Rattle.std.specs.Prelude.{◌≡◌, suc, ◌≤◌, length};
ghost use Rattle.paper.specs.Vectors.{sum};
ghost use Rattle.paper.specs.Idle.{job_lefts};
ghost use Rattle.paper.specs.View.{jobs_of};
ghost use Rattle.paper.specs.Refusals.{H as ClockEnd, bad_waiting, one_used, late_job};
ghost use Rattle.state.specs.Shaped.{bad_job};

use paper::{Job, Slot};

// Whether a waiting job has 0 or more than 30,000 left, or a promise below `low` or past the clock's end.
pub fn is_bad(j: Job, low: Slot) -> bool
    ensures { result ≡ bad_job low.0 j }
{
    j.left == 0 || 30000 < j.left || j.promise < low || paper::CLOCK_END < j.promise.0
}

// The least promise that the next job may have.
pub fn least_after(j: Job) -> Slot
    requires { j.promise.0 ≤ ClockEnd }
    ensures { result.0 ≡ suc j.promise.0 }
{
    Slot(j.promise.0 + 1)
}

// Whether one of the waiting jobs is misshapen.
pub fn one_bad(jobs: &[Job]) -> bool
    ensures { result ≡ bad_waiting 0 jobs.now }
{
    let mut low = Slot(0);
    for j in jobs {
        if is_bad(*j, low) {
            return true;
        }
        low = least_after(*j);
    }
    false
}

// Whether one of the unused places is not clear.
pub fn one_used(jobs: &[Job]) -> bool
    ensures { result ≡ one_used jobs.now }
{
    jobs.iter().any(|j| j.left != 0 || j.promise.0 != 0)
}

// Whether a promise of the waiting jobs is at or before `at`.
pub fn one_late(jobs: &[Job], at: Slot) -> bool
    ensures { result ≡ late_job (jobs_of jobs.now) at.0 }
{
    jobs.iter().any(|j| j.promise <= at)
}

// The work left of the waiting jobs.
pub fn work_left(jobs: &[Job]) -> u32
    requires { length jobs.now ≤ 8 }
    ensures { result ≡ sum (job_lefts (jobs_of jobs.now)) }
{
    jobs.iter().map(|j| u32::from(j.left)).sum()
}
