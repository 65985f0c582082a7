// Refusals 1 to 8, and then the vectors K, D and Y: the moving vectors, and what admission shares with them.
#![tactic(auto)]

ghost use Rattle.std.specs.Prelude.{◌≡◌, length, OnErr};
ghost use Rattle.paper.specs.Refused.{Says, verdict_of};
ghost use Rattle.paper.specs.Calls.{first_given, moving_verdict, moving_call};
ghost use Rattle.vectors.specs.Eight.{up_to_eight, Good};
ghost use Rattle.vectors.specs.Prepared.{Room, Filled, Prepares, Kept, refused_answer};

use moving::{Made, Moment};
use paper::{MovingAnswer, Refusal, State, Table, Verdict};
use table::JudgedTable;
use window::Windowed;

// A table that passes 1 to 8 with a state, and the numbers of the vectors of both.
#[derive(Clone, Copy)]
pub struct Prepared {
    pub checked: Windowed,
    pub made: Made,
}

// Refusals 1 to 8, the shortest of the lent vectors having this length. No vector is looked at.
fn judge_state(t: Table, s: State, shortest: usize) -> Result<JudgedTable, Refusal>
    ensures { Says (first_given (up_to_eight t s shortest)) (Good t s shortest) result }
{
    let judged = table::judge_table(t, shortest)?;
    state::shape(judged.checked, s)?;
    state::late(judged.checked.within, s)?;
    Ok(judged)
}

// K, D and Y in front of the lent vectors, and their numbers.
fn make(j: JudgedTable, s: State, k: &mut [u16], d: &mut [u16], y: &mut [u16]) -> Made
    requires { Room j (length k.old) (length d.old) (length y.old) }
    ensures { Filled j.checked.within.table s k.old d.old y.old result k.new d.new y.new }
{
    let idle = table::fill_table(j, k, d);
    let v = paper::offset_of(s.now, j.checked.window);
    let requests = s.requests;
    let moment = Moment {
        checked: j.checked,
        requests,
        v,
    };
    let places = j.places as usize;
    let moved = moment.fill_moving(places, k, y);
    Made {
        window: j.checked.window,
        places,
        here: moved.here,
        idle,
        left: moved.left,
    }
}

// Refusals 1 to 8, and the vectors. A refusal leaves these as they were.
pub fn prepare(
    t: Table,
    s: State,
    k: &mut [u16],
    d: &mut [u16],
    y: &mut [u16],
) -> Result<Prepared, Refusal>
    ensures judged { Says (moving_verdict t s k.old d.old y.old) (Prepares t s k.old d.old y.old k.new d.new y.new) result }
    ensures kept { OnErr result (Kept k.old d.old y.old k.new d.new y.new) }
{
    let judged = judge_state(t, s, k.len().min(d.len().min(y.len())))?;
    let made = make(judged, s, k, d, y);
    Ok(Prepared {
        checked: judged.checked,
        made,
    })
}

fn refused(r: Refusal) -> MovingAnswer
    ensures { result ≡ refused_answer (verdict_of r) }
{
    let v = Verdict::from(r);
    MovingAnswer {
        number: v.number,
        place: v.place,
        places: 0,
    }
}

// The moving vectors.
pub fn moving_vectors(
    t: Table,
    s: State,
    k: &mut [u16],
    d: &mut [u16],
    y: &mut [u16],
) -> MovingAnswer
    ensures { record { answer = result; k = k.new; d = d.new; y = y.new } ≡ moving_call t s k.old d.old y.old }
{
    match prepare(t, s, k, d, y) {
        Ok(p) => MovingAnswer {
            number: 0,
            place: 0,
            places: p.made.places as u32,
        },
        Err(r) => refused(r),
    }
}
