// The requests of a state: the deadline of each, the releases that enter, the ready word, and what of them is misshapen or late.
// A task's limits and the clock's bound are asked by each function: records and times come from the board, and their types keep neither.
ghost use Rattle.std.specs.Prelude.{◌≡◌, ◌&&◌, ◌++◌, ℕ, ◌≤◌, ◌%◌, leb, eqb, take, drop, length};
ghost use Rattle.paper.specs.Demand.{pick, Good, deadline_at};
ghost use Rattle.paper.specs.View.{left_of, request_of, request_lefts, requests_of, tasks_of};
ghost use Rattle.paper.specs.Rule.{enter, ready_word, bit, ready_bit};
ghost use Rattle.paper.specs.Refusals.{H as ClockEnd, unclear, bad_left, one_unclear, bad_requests, late_request};
ghost use Rattle.theory.specs.States.{AllStated};

use paper::{Offset, Request, Slot, Task, Work};
use window::InLimits;

// The deadline of the task's present request.
pub fn deadline_at(t: Task, now: Slot) -> Slot
    requires good { Good t }
    requires bound { now.0 ≤ ClockEnd }
    ensures { result.0 ≡ deadline_at t now.0 }
{
    let p = t.period as u64;
    let r = t.deadline as u64;
    Slot(now.0 / p * p + r)
}

// The same at the offset v, from the window's start on: a trait over both counts, with its laws and two impls, would be longer than this.
pub fn due_at(t: Task, v: Offset) -> Offset
    requires good { Good t }
    requires v_bound { v.0 ≤ 30000 }
    ensures { result.0 ≡ deadline_at t v.0 }
{
    let p = t.period as u32;
    let r = t.deadline as u32;
    Offset(v.0 / p * p + r)
}

// Whether the task is released at the offset `at`.
pub fn is_released(t: Task, at: Offset) -> bool
    requires { Good t }
    ensures { result ≡ eqb (at.0 % t.period) 0 }
{
    at.0 % u32::from(t.period) == 0
}

// The request that is released: all of its work is left.
pub fn whole(t: Task) -> Request
    requires { Good t }
    ensures { result ≡ request_of t.work }
{
    Request {
        work: Work::Left(t.work),
    }
}

// The requests after the releases at the offset `at`: the others stay as they are.
pub fn entered(t: InLimits, at: Offset, requests: [Request; 16]) -> [Request; 16]
    requires { AllStated (take t.table.count requests) }
    ensures { result ≡ requests_of (enter (tasks_of t.table) at.0 (request_lefts (take t.table.count requests))) ++ drop t.table.count requests }
{
    let mut out = requests;
    for i in (0..t.table.count).rev() {
        if is_released(t.table.tasks[i], at) {
            out[i] = whole(t.table.tasks[i]);
        }
    }
    out
}

// 1 where the request has work left, else 0.
pub fn flag(r: Request) -> u16
    ensures { result ≡ pick (leb 1 (left_of r.work)) 1 0 }
{
    u16::from(r.left() != 0)
}

// The ready word of these requests: bit j is set exactly when request j has work left.
pub fn ready(requests: &[Request]) -> u16
    requires { length requests.now ≤ 16 }
    ensures word { result ≡ ready_word (request_lefts requests.now) }
    ensures bits { (j : ℕ) → bit result j ≡ ready_bit (request_lefts requests.now) j }
{
    let mut word: u16 = 0;
    for (i, r) in requests.iter().enumerate() {
        word |= flag(*r) << i;
    }
    word
}

// Whether work is left, or stated to be left, in an unused place.
pub fn is_unclear(r: Request) -> bool
    ensures { result ≡ unclear r.work }
{
    r.work != Work::Done
}

// Whether one of the unused places is not clear.
pub fn one_unclear(requests: &[Request]) -> bool
    ensures { result ≡ one_unclear requests.now }
{
    requests.iter().any(|r| is_unclear(*r))
}

// Whether a request has 0 or more than C left.
pub fn bad_left(t: Task, r: Request) -> bool
    ensures { result ≡ bad_left r.work t.work }
{
    match r.work {
        Work::Done => false,
        Work::Left(n) => n == 0 || t.work < n,
    }
}

// Whether a request is misshapen or an unused place is not clear.
pub fn bad_requests(t: InLimits, requests: &[Request; 16]) -> bool
    ensures { result ≡ bad_requests (tasks_of t.table) requests.now }
{
    let mut bad = one_unclear(&requests[t.table.count..]);
    for i in (0..t.table.count).rev() {
        bad = bad_left(t.table.tasks[i], requests[i]) || bad;
    }
    bad
}

// Whether a request is unfinished and due at or before `at`.
pub fn is_late(t: Task, r: Request, now: Slot, at: Slot) -> bool
    requires good { Good t }
    requires bound { now.0 ≤ ClockEnd }
    ensures { result ≡ (leb 1 (left_of r.work) && leb (deadline_at t now.0) at.0) }
{
    1 <= r.left() && deadline_at(t, now) <= at
}

// Whether an unfinished request is due at or before `at`.
pub fn one_late(t: InLimits, requests: &[Request; 16], now: Slot, at: Slot) -> bool
    requires { now.0 ≤ ClockEnd }
    ensures { result ≡ late_request (tasks_of t.table) (request_lefts (take t.table.count requests.now)) now.0 at.0 }
{
    let mut late = false;
    for i in (0..t.table.count).rev() {
        late = is_late(t.table.tasks[i], requests[i], now, at) || late;
    }
    late
}
