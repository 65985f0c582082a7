// The table check: refusals 1 to 6, the window, the static vectors K and D, and F.
#![tactic(auto)]

ghost use Rattle.std.specs.Prelude.{◌≡◌, ◌≤◌, length};
ghost use Rattle.paper.specs.Places.{K};
ghost use Rattle.paper.specs.Vectors.{D, F};
ghost use Rattle.paper.specs.View.{tasks_of};
ghost use Rattle.paper.specs.Refusals.{refusal_4};
ghost use Rattle.paper.specs.Refused.{Says, verdict_of};
ghost use Rattle.paper.specs.Calls.{filled, first_given, table_call};
ghost use Rattle.theory.specs.Said.{answered};
ghost use Rattle.places.specs.Counted.{AllCounted};
ghost use Rattle.table.specs.Six.{up_to_six, Passed, refused_answer};

use paper::{Refusal, Table, TableAnswer, Verdict};
use places::{Count, Rows};
use window::Windowed;

// A table that passes refusals 1 to 6, with the number of its places.
#[derive(Clone, Copy)]
pub struct JudgedTable {
    pub checked: Windowed,
    pub places: u32,
}

// Refusal 4, or the count of all places.
pub fn few_places(w: Windowed) -> Result<Count, Refusal>
    ensures { Says (refusal_4 (tasks_of w.within.table)) (AllCounted (tasks_of w.within.table)) result }
{
    let count = places::count_places(w);
    if 1024 < count.places {
        return Err(Refusal::TooManyPlaces);
    }
    Ok(count)
}

// Refusals 1 to 6, the shortest of the lent vectors having this length. No vector is looked at.
pub fn judge_table(t: Table, shortest: usize) -> Result<JudgedTable, Refusal>
    ensures says { Says (first_given (up_to_six t shortest)) (Passed t shortest) result }
    ensures verdict { answered result ≡ first_given (up_to_six t shortest) }
{
    let checked = window::judge(t)?;
    let count = few_places(checked)?;
    if shortest < count.places as usize {
        return Err(Refusal::VectorTooShort);
    }
    match count.over {
        Some(time) => Err(Refusal::Overloaded(time)),
        None => Ok(JudgedTable {
            checked,
            places: count.places,
        }),
    }
}

// K and D in the first places of two lent vectors, from the last place down; the answer is the sum of D, F.
pub fn fill_table(j: JudgedTable, k: &mut [u16], d: &mut [u16]) -> u32
    requires { (j.places ≡ length (K (tasks_of j.checked.within.table))) × (j.places ≤ length k.old) × (j.places ≤ length d.old) }
    ensures { (result ≡ F (tasks_of j.checked.within.table))
        × (k.new ≡ filled (K (tasks_of j.checked.within.table)) k.old)
        × (d.new ≡ filled (D (tasks_of j.checked.within.table)) d.old) }
{
    let window = j.checked.window;
    let rows = Rows::of(j.checked.within);
    let mut s = places::start(j.checked);
    let mut sum: u32 = 0;
    for i in (0..j.places as usize).rev() {
        let idle = places::idle_at(window, s.place as u32, s.above, sum);
        k[i] = s.place;
        d[i] = idle as u16;
        sum += idle;
        s = rows.down(s);
    }
    sum
}

fn refused(r: Refusal) -> TableAnswer
    ensures { result ≡ refused_answer (verdict_of r) }
{
    let v = Verdict::from(r);
    TableAnswer {
        number: v.number,
        place: v.place,
        window: 0,
        places: 0,
        idle: 0,
    }
}

// The table check.
pub fn check_table(t: Table, k: &mut [u16], d: &mut [u16]) -> TableAnswer
    ensures { record { answer = result; k = k.new; d = d.new } ≡ table_call t k.old d.old }
{
    match judge_table(t, k.len().min(d.len())) {
        Err(r) => refused(r),
        Ok(j) => {
            let idle = fill_table(j, k, d);
            TableAnswer {
                number: 0,
                place: 0,
                window: j.checked.window,
                places: j.places,
                idle,
            }
        }
    }
}
