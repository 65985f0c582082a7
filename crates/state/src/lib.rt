// The running state: power-on, refusals 7 and 8, releases and the ready word.
#![tactic(auto)]

ghost use Rattle.std.specs.Prelude.{◌≡◌, ◌||◌, ◌<◌, ◌+◌, ◌%◌, ltb};
ghost use Rattle.paper.specs.View.{view_of, state_of, power_on, tasks_of};
ghost use Rattle.paper.specs.Refusals.{when, late_request, late_job, refusal_7, refusal_8};
ghost use Rattle.paper.specs.Refused.{Judges};
ghost use Rattle.paper.specs.Calls.{all_zero, power_on_call};
ghost use Rattle.theory.specs.Said.{answered};
ghost use Rattle.state.specs.Shaped.{InBounds};

use paper::{Offset, PowerOnAnswer, Refusal, Slot, State, Table, Verdict};
use window::{InLimits, Windowed};

pub mod jobs;
pub mod requests;

// The state all zero.
pub fn all_zero() -> State
    ensures { result ≡ all_zero }
{
    State::default()
}

// The state at power-on: the releases at slot 0 are in.
pub fn fresh(t: InLimits) -> State
    ensures { result ≡ state_of (power_on (tasks_of t.table)) }
{
    let zero = all_zero();
    let requests = requests::entered(t, Offset(0), zero.requests);
    State { requests, ..zero }
}

// The power-on state: refusals 1 and 2.
pub fn power_on(t: Table) -> PowerOnAnswer
    ensures { result ≡ power_on_call t }
{
    match window::limits(t) {
        Ok(within) => PowerOnAnswer {
            number: 0,
            place: 0,
            state: fresh(within),
        },
        Err(refusal) => {
            let v = Verdict::from(refusal);
            PowerOnAnswer {
                number: v.number,
                place: v.place,
                state: all_zero(),
            }
        }
    }
}

// Whether A + I is above the offset.
pub fn over_tallied(s: State, w: u32) -> bool
    requires { 0 < w }
    ensures { result ≡ ltb (s.now.0 % w) (s.given + s.idle) }
{
    paper::offset_of(s.now, w).0 < u32::from(s.given) + u32::from(s.idle)
}

// Whether the state is misshapen. The clock's end is a number, as the paper's H, and times are compared with it as numbers.
pub fn misshapen(w: Windowed, s: State) -> bool
    ensures { when result 7 ≡ refusal_7 (tasks_of w.within.table) s }
{
    paper::CLOCK_END < s.now.0
        || requests::bad_requests(w.within, &s.requests)
        || 8 < s.waiting
        || jobs::one_bad(s.waiting_jobs())
        || jobs::one_used(&s.jobs[s.waiting as usize..])
        || over_tallied(s, w.window)
}

// Refusal 7.
pub fn shape(w: Windowed, s: State) -> Result<(), Refusal>
    ensures says { Judges (refusal_7 (tasks_of w.within.table) s) result }
    ensures verdict { answered result ≡ refusal_7 (tasks_of w.within.table) s }
{
    if misshapen(w, s) {
        return Err(Refusal::Misshapen);
    }
    Ok(())
}

// Whether unfinished work of the state has its deadline or promise at or before `at`.
pub fn overdue(t: InLimits, s: State, at: Slot) -> bool
    requires { InBounds s }
    ensures { result ≡ (late_request (tasks_of t.table) (view_of t.table.count s).lefts s.now.0 at.0 || late_job (view_of t.table.count s).jobs at.0) }
{
    requests::one_late(t, &s.requests, s.now, at) || jobs::one_late(s.waiting_jobs(), at)
}

// Refusal 8.
pub fn late(t: InLimits, s: State) -> Result<(), Refusal>
    requires { InBounds s }
    ensures says { Judges (refusal_8 (tasks_of t.table) (view_of t.table.count s)) result }
    ensures verdict { answered result ≡ refusal_8 (tasks_of t.table) (view_of t.table.count s) }
{
    if overdue(t, s, s.now) {
        return Err(Refusal::Overdue);
    }
    Ok(())
}
