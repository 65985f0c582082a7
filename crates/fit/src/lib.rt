// Refusal 9 in its three rules: periodic work that cannot be met, tallies against the vector, a wrong promise.
#![tactic(auto)]

ghost use Rattle.std.specs.Prelude.{◌≡◌, ℕ, ◌+◌, ◌*◌, ◌/◌, ◌≤◌, ◌<◌, not, ◌||◌, List, ltb, eqb, get_or, length, take};
ghost use Rattle.paper.specs.declared.Task.{Task};
ghost use Rattle.paper.specs.Vectors.{D, F};
ghost use Rattle.paper.specs.Idle.{promise};
ghost use Rattle.paper.specs.View.{jobs_of, view_of, tasks_of};
ghost use Rattle.paper.specs.Refusals.{H as ClockEnd, overfull_at, wrong_promise};
ghost use Rattle.paper.specs.Refused.{Judges};
ghost use Rattle.paper.specs.Calls.{first_given};
ghost use Rattle.theory.specs.Overfull.{first_among};
ghost use Rattle.moving.specs.Above.{From};
ghost use Rattle.moving.specs.Passed.{work_above};
ghost use Rattle.promise.specs.Sizes.{Need};
ghost use Rattle.promise.specs.Holds.{HoldsInFront};
ghost use Rattle.fit.specs.Lefts.{Lefts};
ghost use Rattle.fit.specs.Ground.{Ground, start_of, found_from, three_rules};

use moving::{Made, Moment};
use paper::{Job, Offset, Refusal, Slot, State};
use promise::Vectors;
use window::Windowed;

// The first of these places with less above it, beside its time, than `all`.
fn first_over(m: &Moment, all: u32, places: &[u16]) -> Option<Offset>
    requires { (i : ℕ) → i < length places.now → From m.now.checked.window m.now.v.0 (get_or places.now i 0) }
    ensures { result ≡ found_from 0 (first_among (λ u. ltb (u + work_above m.now u) all) places.now) }
{
    for place in places {
        let at = Offset(*place as u32);
        if at.0 + m.above(at) < all {
            return Some(at);
        }
    }
    None
}

// 9's first rule: the least time, as an offset, by which more periodic work is due than there is time for.
pub fn overfull(w: Windowed, s: State, made: Made, k: &[u16], y: &[u16]) -> Option<Offset>
    requires { Ground w s made k.now y.now }
    ensures { result ≡ found_from (start_of w s) (overfull_at (tasks_of w.within.table) (view_of w.within.table.count s)) }
{
    let requests = s.requests;
    let offset = paper::offset_of(s.now, w.window);
    let m = Moment {
        checked: w,
        requests,
        v: offset,
    };
    let here = made.here;
    let places = &k[..made.places];
    let entries = &y[..made.places];
    let all = offset.0 + m.above(offset);
    let later = made.left - entries[here] as u32;
    if all + later <= w.window {
        return None;
    }
    first_over(&m, all, &places[here + 1..])
}

// 9's second rule: whether the tallies and what is left of the window differ from its idle slots.
pub fn wrong_tallies(s: State, made: Made) -> bool
    requires { made.left ≤ 30000 }
    ensures { result ≡ not (eqb (s.given + s.idle + made.left) made.idle) }
{
    let a = s.given as u32;
    let i = s.idle as u32;
    a + i + made.left != made.idle
}

// Whether a job's promise is not the one for the work left of it and those before it.
fn is_wrong(at: Slot, job: Job, need: u32, v: &Vectors) -> bool
    requires clock { at.0 ≤ ClockEnd }
    requires need { Need need }
    ensures { (ts : List Task) (ls : List ℕ) → HoldsInFront ts ls at.0 v.now → result ≡ (eqb (F ts) 0 || not (eqb job.promise.0 (promise ts ls at.0 need))) }
{
    v.made.idle == 0 || job.promise != v.promise_for(at, need)
}

// 9's third rule: the place, from 1, of the first waiting job whose promise is wrong.
pub fn first_wrong(at: Slot, jobs: &[Job], v: &Vectors) -> Option<u32>
    requires clock { at.0 ≤ ClockEnd }
    requires n_bound { (length jobs.now ≤ 8) × Lefts (length jobs.now) jobs.now }
    ensures { (ts : List Task) (ls : List ℕ) → HoldsInFront ts ls at.0 v.now → result ≡ wrong_promise ts ls at.0 0 0 (jobs_of jobs.now) }
{
    let mut work: u32 = 0;
    for (i, job) in jobs.iter().enumerate() {
        work += job.left as u32;
        if is_wrong(at, *job, work, v) {
            return Some(i as u32 + 1);
        }
    }
    None
}

// Refusal 9: one of its three rules is broken.
pub fn nine(w: Windowed, s: State, v: &Vectors) -> Result<(), Refusal>
    requires on_ground { Ground w s v.now.made v.now.k.now v.now.y.now }
    requires d_value { take v.now.made.places v.now.d.now ≡ D (tasks_of w.within.table) }
    ensures { Judges (first_given (three_rules (tasks_of w.within.table) (view_of w.within.table.count s))) result }
{
    if overfull(w, s, v.made, v.k, v.y).is_some()
        || wrong_tallies(s, v.made)
        || first_wrong(s.now, s.waiting_jobs(), v).is_some()
    {
        return Err(Refusal::Unfit);
    }
    Ok(())
}
