// The earliest-deadline rule: who a slot goes to, and the one unit that it does.
#![tactic(auto)]

ghost use Rattle.std.specs.Prelude.{◌≡◌, Some, true, suc, ◌+◌, ◌-◌, ◌≤◌, ◌<◌, leb, take, get_or};
ghost use Rattle.paper.specs.declared.Who.TheVariants.{Task as TaskOf};
ghost use Rattle.paper.specs.Demand.{pick, Good, deadline_at, present_due};
ghost use Rattle.paper.specs.View.{left_of, request_lefts, jobs_of, no_job, tasks_of};
ghost use Rattle.paper.specs.Rule.{first};
ghost use Rattle.paper.specs.Refusals.{H as ClockEnd};
ghost use Rattle.theory.specs.DueBy.{due_by, late_first};
ghost use Rattle.theory.specs.Offsets.{later_by};
ghost use Rattle.rule.specs.Owner.{first_of, sooner, found_by, found_of, oldest_of, owner_of, TaskFits};
ghost use Rattle.rule.specs.Unit.{moved_up, dropped_oldest, served_oldest, unit_of, CanRun};

use paper::{Job, Offset, Request, Slot, State, Task, Who};
use state::requests;
use window::InLimits;

// An unfinished request: its task, from 0, and its deadline.
#[derive(Clone, Copy)]
pub struct Due {
    pub task: usize,
    pub due: Offset,
}

// The unfinished request of the earliest deadline, if one is left, and `soon`, the work of all requests that is due by the slot's end.
#[derive(Clone, Copy)]
pub struct First {
    pub first: Option<Due>,
    pub soon: u32,
}

impl First {
    // Whether the first request is due at or before the offset v.
    pub fn is_due(self, v: Offset) -> bool
        ensures { result ≡ late_first (first_of self.first) v.0 }
    {
        self.first.is_some_and(|first| first.due <= v)
    }
}

// The work left of a request of the deadline d, if that is at or before `at`.
fn due_by(left: u16, d: Offset, at: Offset) -> u32
    ensures value { result ≡ pick (leb d.0 at.0) left 0 }
    ensures small { result ≤ 65535 }
{
    if d <= at { u32::from(left) } else { 0 }
}

// The earlier of a request and the first of those whose tasks have higher numbers; on a tie the request.
fn sooner(request: Due, later: Option<Due>) -> Due
    ensures { Some result ≡ sooner true request.task request.due.0 later }
{
    match later {
        Some(first) if first.due < request.due => first,
        _ => request,
    }
}

// What is first of the requests from `at` on, if `best` is that of the later ones.
fn better(best: First, t: Task, r: Request, at: usize, v: Offset) -> First
    requires good { Good t }
    requires v_bound { v.0 ≤ 30000 }
    requires soon_bound { best.soon ≤ 983025 }
    ensures found { result ≡ found_by best (leb 1 (left_of r.work)) at (deadline_at t v.0) (present_due t (left_of r.work) v.0 (suc v.0)) }
    ensures soon { result.soon ≤ best.soon + 65535 }
{
    let left = r.left();
    if left < 1 {
        return best;
    }
    let due = requests::due_at(t, v);
    First {
        first: Some(sooner(Due { task: at, due }, best.first)),
        soon: due_by(left, due, Offset(v.0 + 1)) + best.soon,
    }
}

// The unfinished request of the earliest deadline, the lowest task number on a tie, and the work due by the slot's end.
pub fn earliest(t: InLimits, requests: &[Request; 16], v: Offset) -> First
    requires { v.0 ≤ 30000 }
    ensures { result ≡ found_of
        (first (tasks_of t.table) (request_lefts (take t.table.count requests.now)) v.0)
        (due_by (tasks_of t.table) (request_lefts (take t.table.count requests.now)) v.0 (suc v.0)) }
{
    let mut best = First {
        first: None,
        soon: 0,
    };
    for i in (0..t.table.count).rev() {
        best = better(best, t.table.tasks[i], requests[i], i, v);
    }
    best
}

// Task j, from 0, as the answer numbers it.
fn task(j: usize) -> Who
    requires { j < 16 }
    ensures { result ≡ TaskOf (suc j) }
{
    Who::Task(j as u8 + 1)
}

// The oldest of the waiting jobs.
pub fn oldest_of(jobs: &[Job]) -> Option<Job>
    ensures { result ≡ oldest_of (jobs_of jobs.now) }
{
    jobs.first().copied()
}

// Who the slot goes to: the first request, in the window that starts at `start`, or the oldest job, which goes before it on a tie.
pub fn owner(first: Option<Due>, start: Slot, oldest: Option<Job>) -> Who
    requires task_bound { TaskFits first }
    requires start_bound { start.0 ≤ ClockEnd }
    ensures { result ≡ owner_of (later_by start.0 (first_of first)) oldest }
{
    match (first, oldest) {
        (None, None) => Who::Idle,
        (None, Some(j)) => Who::Job(j.promise),
        (Some(first), None) => task(first.task),
        (Some(first), Some(j)) => {
            if j.promise <= paper::slot_at(start, first.due) {
                Who::Job(j.promise)
            } else {
                task(first.task)
            }
        }
    }
}

// The jobs with the n after the first moved one place up, and the place of the last of these clear.
fn moved_up(jobs: [Job; 8], n: usize) -> [Job; 8]
    requires { n < 8 }
    ensures { result ≡ moved_up jobs n }
{
    let mut moved = jobs;
    moved[..n].copy_from_slice(&jobs[1..n + 1]);
    moved[n] = Job::default();
    moved
}

// The state without its oldest job.
fn drop_oldest(s: State) -> State
    requires le_waiting { 1 ≤ s.waiting }
    requires waiting_bound { s.waiting ≤ 8 }
    ensures { result ≡ dropped_oldest s }
{
    let waiting = s.waiting - 1;
    let jobs = moved_up(s.jobs, waiting as usize);
    State { jobs, waiting, ..s }
}

// The oldest job with one unit less, in its place.
fn less(j: Job) -> Job
    requires { 1 ≤ j.left }
    ensures { result ≡ record { left = j.left - 1; promise = j.promise } }
{
    Job {
        left: j.left - 1,
        ..j
    }
}

// One unit of the oldest job, which leaves if it is finished.
fn serve_oldest(mut s: State) -> State
    requires le_waiting { 1 ≤ s.waiting }
    requires waiting_bound { s.waiting ≤ 8 }
    requires bound { 1 ≤ (get_or s.jobs 0 no_job).left }
    ensures { result ≡ served_oldest s }
{
    let j = less(s.jobs[0]);
    if j.left == 0 {
        return drop_oldest(s);
    }
    s.jobs[0] = j;
    s
}

// The state after the one unit of this slot, before now rises.
pub fn one_unit(who: Who, mut s: State) -> State
    requires { CanRun who s }
    ensures { result ≡ unit_of who s }
{
    match who {
        Who::Idle => s,
        Who::Task(j) => {
            let at = j as usize - 1;
            let left = s.requests[at].left();
            s.requests[at] = Request::from(left - 1);
            s
        }
        Who::Job(_) => serve_oldest(s),
    }
}
