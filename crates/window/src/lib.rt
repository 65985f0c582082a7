// Refusals 1 to 3: how many tasks there are, the limits of each, and the window.
#![tactic(auto)]

ghost use Rattle.std.specs.Prelude.{◌≡◌, ◌≤◌};
ghost use Rattle.std.specs.List.{position_from};
ghost use Rattle.paper.specs.Demand.{Good};
ghost use Rattle.paper.specs.Window.{gcd, lcm, window as windowOf};
ghost use Rattle.paper.specs.View.{tasks_of};
ghost use Rattle.paper.specs.Refusals.{breaks, refusal_3};
ghost use Rattle.paper.specs.Calls.{first_given, one_to_three, power_on_verdict};
ghost use Rattle.paper.specs.Refused.{Says};
ghost use Rattle.theory.specs.Said.{answered};
ghost use Rattle.theory.specs.Limits.{Limits};
ghost use Rattle.theory.specs.Ready.{Ready};
ghost use Rattle.window.specs.Kept.{limits_prop, ready_prop};

use paper::{Refusal, Table, Task};

// A table that passes refusals 1 and 2.
#[derive(Clone, Copy)]
pub struct InLimits {
    pub table: Table,
    ghost limits: { Limits table } by { limits_prop table },
}

// A table that passes refusals 1 to 3, with its window.
#[derive(Clone, Copy)]
pub struct Windowed {
    pub within: InLimits,
    pub window: u32,
    ghost ready: { Ready within.table window } by { ready_prop within.table window },
}

// Whether a task breaks its limits.
#[tactic(auto, unfolding(paper::specs::Refusals::breaks))]
fn is_bad(t: Task) -> bool
    ensures { result ≡ breaks t }
{
    t.work < 1 || (t.deadline < t.work || (t.period < t.deadline || 10000 < t.period))
}

// The place, from 0, of the first task that breaks its limits.
fn first_bad(tasks: &[Task]) -> Option<usize>
    ensures { result ≡ position_from breaks 0 tasks.now }
{
    tasks.iter().position(|task| is_bad(*task))
}

// Refusals 1 and 2.
pub fn limits(t: Table) -> Result<InLimits, Refusal>
    ensures says { Says (power_on_verdict t) (λ l. l.table ≡ t) result }
    ensures verdict { answered result ≡ power_on_verdict t }
{
    if t.count < 1 || 16 < t.count {
        return Err(Refusal::NoOrManyTasks(0));
    }
    match first_bad(t.listed()) {
        Some(i) => Err(Refusal::TaskOutOfLimits(i as u32 + 1)),
        None => Ok(InLimits { table: t }),
    }
}

// The greatest common divisor, by Euclid's steps.
fn common(a: u32, b: u32) -> u32
    ensures { result ≡ gcd a b }
{
    let mut x = a;
    let mut y = b;
    while 0 < y {
        let rest = x % y;
        x = y;
        y = rest;
    }
    x
}

// The window with one task more.
fn with_task(t: Task, w: u32) -> u32
    requires good { Good t }
    requires w_bound { w ≤ 30000 }
    ensures { result ≡ lcm w t.period }
{
    let p = t.period as u32;
    w / common(w, p) * p
}

// Refusal 3, or the window, task by task in table order: it is refused as soon as it passes 30,000.
fn window_of(t: InLimits) -> Result<u32, Refusal>
    ensures { Says (refusal_3 (tasks_of t.table)) (λ w. w ≡ windowOf (tasks_of t.table)) result }
{
    let mut w: u32 = 1;
    for task in t.table.listed() {
        w = with_task(*task, w);
        if 30000 < w {
            return Err(Refusal::WindowTooLong);
        }
    }
    Ok(w)
}

// Refusals 1 to 3.
pub fn judge(t: Table) -> Result<Windowed, Refusal>
    ensures says { Says (first_given (one_to_three t)) (λ w. w.within.table ≡ t) result }
    ensures verdict { answered result ≡ first_given (one_to_three t) }
{
    let within = limits(t)?;
    let window = window_of(within)?;
    Ok(Windowed { within, window })
}
