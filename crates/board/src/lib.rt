// The public calls as the board makes them: the table is lent as a run of task records, and the tick changes the running state
// where the board keeps it. Each copies the run and calls the function that does the work by value.
#![tactic(auto)]

pub mod lent;

ghost use Rattle.std.specs.Prelude.{◌≡◌};
ghost use Rattle.paper.specs.View.{table_of};
ghost use Rattle.paper.specs.Rule.{numbers_of};
ghost use Rattle.paper.specs.Calls.{power_on_call, table_call, moving_call, admission_call, slot_call, slot_numbers, ReadyBits};

use paper::{AdmissionAnswer, Latest, MovingAnswer, PowerOnAnswer, State, TableAnswer, Task, Who};

// A tick's answer: a slot's, with its number and place, and without the state, which stays where the board keeps it.
#[derive(Clone, Copy)]
pub struct Ticked {
    pub number: u32,
    pub place: u32,
    pub who: Who,
    pub ready: u16,
}

// The power-on state.
pub fn power_on(ts: &[Task]) -> PowerOnAnswer
    ensures { result ≡ power_on_call (table_of ts.now) }
{
    state::power_on(lent::table_of(ts))
}

// The table check.
pub fn check_table(ts: &[Task], k: &mut [u16], d: &mut [u16]) -> TableAnswer
    ensures { record { answer = result; k = k.new; d = d.new } ≡ table_call (table_of ts.now) k.old d.old }
{
    table::check_table(lent::table_of(ts), k, d)
}

// The moving vectors.
pub fn moving_vectors(
    ts: &[Task],
    s: State,
    k: &mut [u16],
    d: &mut [u16],
    y: &mut [u16],
) -> MovingAnswer
    ensures { record { answer = result; k = k.new; d = d.new; y = y.new } ≡ moving_call (table_of ts.now) s k.old d.old y.old }
{
    vectors::moving_vectors(lent::table_of(ts), s, k, d, y)
}

// Admission of a job: its work, and its latest finish if it has one.
pub fn admit(
    ts: &[Task],
    s: State,
    work: u16,
    latest: Latest,
    k: &mut [u16],
    d: &mut [u16],
    y: &mut [u16],
) -> AdmissionAnswer
    ensures { record { answer = result; k = k.new; d = d.new; y = y.new } ≡ admission_call (table_of ts.now) s work latest k.old d.old y.old }
{
    admit::admit(lent::table_of(ts), s, work, latest, k, d, y)
}

// One slot, where the board keeps the state.
pub fn tick(ts: &[Task], s: &mut State) -> Ticked
    ensures answer { record { number = result.number; place = result.place; who = result.who; ready = result.ready; state = s.new } ≡ slot_call (table_of ts.now) s.old }
    ensures numbers { numbers_of result.who ≡ slot_numbers (table_of ts.now) s.old }
    ensures bits { ReadyBits result.number result.ready s.new }
{
    let t = lent::table_of(ts);
    let a = slot::slot(t, *s);
    *s = a.state;
    Ticked {
        number: a.number,
        place: a.place,
        who: a.who,
        ready: a.ready,
    }
}
