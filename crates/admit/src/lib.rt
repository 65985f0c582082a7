// Admission: refusals 1 to 14, the promise, and the state with the job last.
#![tactic(auto)]

ghost use Rattle.std.specs.Prelude.{◌≡◌, [], ◌∷◌, ◌+◌, ◌<◌, set, take};
ghost use Rattle.paper.specs.Vectors.{D};
ghost use Rattle.paper.specs.View.{view_of, tasks_of};
ghost use Rattle.paper.specs.Refusals.{too_late, refusal_13, refusal_14};
ghost use Rattle.paper.specs.Refused.{Judges, Says, verdict_of};
ghost use Rattle.paper.specs.Calls.{first_given, nine_to_fourteen, admission_verdict, admission_call};
ghost use Rattle.theory.specs.States.{put_jobs};
ghost use Rattle.fit.specs.Ground.{Ground};
ghost use Rattle.admit.specs.Parts.{ten_to_twelve, Offered, Accepted, Lent, refused_answer};

use paper::{AdmissionAnswer, Job, Latest, Refusal, Slot, State, Table, Verdict};
use promise::Vectors;
use window::Windowed;

// Refusals 10 to 12: of the new work, the number of jobs that wait, and the idle slots of a window.
#[tactic(auto, using(crate::proofs::Chain::before_the_promise))]
fn before_promise(work: u16, waiting: u8, idle: u32) -> Result<(), Refusal>
    ensures { Judges (first_given (ten_to_twelve work waiting idle)) result }
{
    if work == 0 || 30000 < work {
        return Err(Refusal::BadWork);
    }
    if 8 <= waiting {
        return Err(Refusal::EightWait);
    }
    if idle == 0 {
        return Err(Refusal::NeverIdle);
    }
    Ok(())
}

// Whether the promise is above the latest finish.
#[tactic(auto, unfolding(paper::specs::Refusals::too_late))]
fn is_late(promise: Slot, latest: Latest) -> bool
    ensures { result ≡ too_late promise.0 latest }
{
    match latest {
        Latest::None => false,
        Latest::By(s) => s < promise,
    }
}

// Refusals 13 and 14: of the promise.
#[tactic(auto, using(crate::proofs::Chain::after_the_promise))]
fn after_promise(promise: Slot, latest: Latest) -> Result<(), Refusal>
    ensures { Judges (first_given (refusal_13 promise.0 ∷ refusal_14 promise.0 latest ∷ [])) result }
{
    if paper::CLOCK_END < promise.0 {
        return Err(Refusal::PastTheClock);
    }
    if is_late(promise, latest) {
        return Err(Refusal::TooLate);
    }
    Ok(())
}

// Refusals 9 to 14, in this order, or the promise: need is the work left of the waiting jobs and the new work.
fn offer(w: Windowed, s: State, work: u16, latest: Latest, v: &Vectors) -> Result<Slot, Refusal>
    requires on_ground { Ground w s v.now.made v.now.k.now v.now.y.now }
    requires d_value { take v.now.made.places v.now.d.now ≡ D (tasks_of w.within.table) }
    ensures { Says (first_given (nine_to_fourteen (tasks_of w.within.table) (view_of w.within.table.count s) work latest)) (Offered w.within.table s work) result }
{
    fit::nine(w, s, v).and(before_promise(work, s.waiting, v.made.idle))?;
    let waiting = state::jobs::work_left(s.waiting_jobs());
    let new = work as u32;
    let need = waiting + new;
    let promise = v.promise_for(s.now, need);
    after_promise(promise, latest)?;
    Ok(promise)
}

// Refusals 1 to 14, or the promise. The vectors are filled from 9 on.
fn promised(
    t: Table,
    s: State,
    work: u16,
    latest: Latest,
    k: &mut [u16],
    d: &mut [u16],
    y: &mut [u16],
) -> Result<Slot, Refusal>
    ensures judged { Says (admission_verdict t s work latest k.old d.old y.old) (Accepted t s work) result }
    ensures vectors { Lent t s k.old d.old y.old k.new d.new y.new }
{
    let p = vectors::prepare(t, s, k, d, y)?;
    let v = Vectors {
        made: p.made,
        k: &*k,
        d: &*d,
        y: &*y,
    };
    offer(p.checked, s, work, latest, &v)
}

// The state with the job last.
fn with_job(s: State, job: Job) -> State
    requires { s.waiting < 8 }
    ensures { result ≡ put_jobs s (set s.jobs s.waiting job) (s.waiting + 1) }
{
    let mut after = s;
    after.jobs[s.waiting as usize] = job;
    after.waiting += 1;
    after
}

fn refused(r: Refusal, s: State) -> AdmissionAnswer
    ensures { result ≡ refused_answer (verdict_of r) s }
{
    let v = Verdict::from(r);
    AdmissionAnswer {
        number: v.number,
        place: v.place,
        promise: Slot(0),
        state: s,
    }
}

// Admission of a job: its work, and its latest finish if it has one.
pub fn admit(
    t: Table,
    s: State,
    work: u16,
    latest: Latest,
    k: &mut [u16],
    d: &mut [u16],
    y: &mut [u16],
) -> AdmissionAnswer
    ensures { record { answer = result; k = k.new; d = d.new; y = y.new } ≡ admission_call t s work latest k.old d.old y.old }
{
    match promised(t, s, work, latest, k, d, y) {
        Ok(promise) => AdmissionAnswer {
            number: 0,
            place: 0,
            promise,
            state: with_job(
                s,
                Job {
                    left: work,
                    promise,
                },
            ),
        },
        Err(r) => refused(r, s),
    }
}
