// One slot: who runs, the unit that is done, the releases and the tallies, and what the answer says.
#![tactic(auto)]

ghost use Rattle.std.specs.Prelude.{◌≡◌, suc, ◌+◌, ◌≤◌, ◌<◌, eqb};
ghost use Rattle.paper.specs.declared.Who.TheVariants.{Idle};
ghost use Rattle.paper.specs.Demand.{pick};
ghost use Rattle.paper.specs.View.{view_of, tasks_of};
ghost use Rattle.paper.specs.Rule.{job_unit, idle_unit, numbers_of};
ghost use Rattle.paper.specs.Refusals.{H as ClockEnd, passed, refusal_8_slot};
ghost use Rattle.paper.specs.Refused.{Says, verdict_of};
ghost use Rattle.paper.specs.Calls.{slot_by, slot_verdict, slot_call, slot_numbers, ReadyBits};
ghost use Rattle.theory.specs.States.{Shape};
ghost use Rattle.rule.specs.Owner.{does_of};
ghost use Rattle.rule.specs.Unit.{unit_of, CanRun};
ghost use Rattle.slot.specs.Next.{next_of, answer_of, MayRise};
ghost use Rattle.slot.specs.Late.{work_by, too_late};

use paper::{Job, Offset, Refusal, Slot, SlotAnswer, State, Table, Verdict, Who};
use rule::First;
use window::{InLimits, Windowed};

// What a slot adds to the tallies of slots given to jobs and of idle slots.
fn units(who: Who) -> (u16, u16)
    ensures given { result.0 ≡ job_unit (does_of who) }
    ensures idle { result.1 ≡ idle_unit (does_of who) }
    ensures few { (result.0 ≤ 1) × (result.1 ≤ 1) }
{
    match who {
        Who::Idle => (0, 1),
        Who::Task(_) => (0, 0),
        Who::Job(_) => (1, 0),
    }
}

// A tally with this slot in it, at the next slot's offset: it is 0 at a window's start.
fn tallied(n: u16, unit: u16, at: Offset) -> u16
    requires { n + unit ≤ 65535 }
    ensures { result ≡ pick (eqb at.0 0) 0 (n + unit) }
{
    if at == Offset(0) { 0 } else { n + unit }
}

// The offset after v, in a window of w.
fn next_offset(v: Offset, w: u32) -> Offset
    requires { v.0 < w }
    ensures { result.0 ≡ pick (eqb (suc v.0) w) 0 (suc v.0) }
{
    let next = v.0 + 1;
    if next == w { Offset(0) } else { Offset(next) }
}

// The state at the next slot, whose offset is `at`, from the state u in which the unit is done: now rises, releases enter, the slot is
// tallied.
fn onward(t: InLimits, at: Offset, who: Who, u: State) -> State
    requires { MayRise t.table at.0 u }
    ensures { result ≡ next_of t.table who u }
{
    let (given, idle) = units(who);
    State {
        now: Slot(u.now.0 + 1),
        requests: state::requests::entered(t, at, u.requests),
        given: tallied(u.given, given, at),
        idle: tallied(u.idle, idle, at),
        ..u
    }
}

// The answer of a refusal: the old state, idle, and no bit of the ready word.
fn refused(r: Refusal, s: State) -> SlotAnswer
    ensures { result ≡ record { number = (verdict_of r).number; place = (verdict_of r).place; who = Idle; ready = 0; state = s } }
{
    let v = Verdict::from(r);
    SlotAnswer {
        number: v.number,
        place: v.place,
        who: Who::Idle,
        ready: 0,
        state: s,
    }
}

// The work left of the oldest job, if its promise is at or before `at`.
fn promised_by(oldest: Option<Job>, at: Slot) -> u64
    ensures value { result ≡ work_by oldest at.0 }
    ensures small { result ≤ 65535 }
{
    match oldest {
        Some(j) if j.promise <= at => u64::from(j.left),
        _ => 0,
    }
}

// Refusal 8, of what a slot finds at the offset v: work is due by now, or more than one unit by the next now.
fn too_late(first: First, v: Offset, oldest: Option<Job>, now: Slot) -> bool
    requires { now.0 < ClockEnd }
    ensures { result ≡ too_late first v.0 oldest now.0 }
{
    let next = Slot(now.0 + 1);
    first.is_due(v)
        || 0 < promised_by(oldest, now)
        || 1 < u64::from(first.soon) + promised_by(oldest, next)
}

// The answer of a slot that goes to `who`: the unit is done, and the state at the next slot, of the offset `at`, says what is ready.
fn done(t: InLimits, at: Offset, who: Who, s: State) -> SlotAnswer
    requires can_run { CanRun who s }
    requires may_rise { MayRise t.table at.0 (unit_of who s) }
    ensures { result ≡ answer_of t.table who (next_of t.table who (unit_of who s)) }
{
    let u = rule::one_unit(who, s);
    let next = onward(t, at, who, u);
    let ready = state::requests::ready(&next.requests[..t.table.count]);
    SlotAnswer {
        number: 0,
        place: 0,
        who,
        ready,
        state: next,
    }
}

// The slot of a state that passes 7 and 15: 8, or what was done.
fn run(w: Windowed, s: State) -> Result<SlotAnswer, Refusal>
    requires shape { Shape w.within.table s }
    requires s_bound { s.now.0 < ClockEnd }
    ensures { Says (refusal_8_slot (tasks_of w.within.table) (view_of w.within.table.count s)) (λ a. a ≡ slot_by passed (tasks_of w.within.table) (view_of w.within.table.count s) s) result }
{
    let v = paper::offset_of(s.now, w.window);
    let first = rule::earliest(w.within, &s.requests, v);
    let oldest = rule::oldest_of(s.waiting_jobs());
    if too_late(first, v, oldest, s.now) {
        return Err(Refusal::Overdue);
    }
    let start = paper::start_of(s.now, v);
    let who = rule::owner(first.first, start, oldest);
    let at = next_offset(v, w.window);
    Ok(done(w.within, at, who, s))
}

// The slot, if no refusal is given.
fn ran(t: Table, s: State) -> Result<SlotAnswer, Refusal>
    ensures { Says (slot_verdict t s) (λ a. a ≡ slot_by passed (tasks_of t) (view_of t.count s) s) result }
{
    let w = window::judge(t)?;
    state::shape(w, s)?;
    if paper::CLOCK_END <= s.now.0 {
        return Err(Refusal::ClockAtItsEnd);
    }
    run(w, s)
}

// One slot: refusals 1, 2, 3, 7, 15 and 8, or the slot run.
pub fn slot(t: Table, s: State) -> SlotAnswer
    ensures answer { result ≡ slot_call t s }
    ensures numbers { numbers_of result.who ≡ slot_numbers t s }
    ensures bits { ReadyBits result.number result.ready result.state }
{
    match ran(t, s) {
        Ok(answer) => answer,
        Err(r) => refused(r, s),
    }
}
