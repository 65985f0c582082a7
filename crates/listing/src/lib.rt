// A run, line by line, into a lent buffer. It can be stopped after any line and taken up there, so that a listing of any length
// goes through a small buffer; specs/Whole.antt shows that its parts joined are the paper's listing.
#![tactic(auto)]

ghost use Rattle.std.specs.Prelude.{◌≡◌, ◌+◌, ◌≤◌, ◌<◌, length};
ghost use Rattle.paper.specs.Listing.{asked};
ghost use Rattle.listing.specs.Run.{from_power_on, begun, arrival_turn, slot_turn, turned, part};

use admit::admit;
use boot::judge;
use decimal::Text;
use fields::{arrival_at, read_fields};
use lines::{arrival_line, bad_line, first_line, slot_line};
use paper::{AdmissionAnswer, Arrival, FieldsAnswer, Next, Slot, State, Table, Verdict};
use slot::slot;
use state::power_on;

// A run after some of its lines: the slots from `now` to `end` are left, and the arrivals from byte `at` on. `written` bytes stand
// in the buffer. Its slots are plain numbers, as `begun`, `turned` and `part` of specs/Run.antt have them.
#[derive(Clone, Copy)]
pub struct Running {
    pub table: Table,
    pub state: State,
    pub now: u64,
    pub end: u64,
    pub at: usize,
    pub written: usize,
}

// The run of a file that was read, from power-on.
pub fn from_power_on(file: FieldsAnswer) -> Running
    ensures { result ≡ from_power_on file }
{
    Running {
        table: file.table,
        state: power_on(file.table).state,
        now: 0,
        end: u64::from(file.slots),
        at: file.arrivals,
        written: 0,
    }
}

// The first line, and for a bad file or table the line that says so: a run of no slots is left then.
pub fn begin(bytes: &[u8], out: &mut [u8]) -> Running
    requires { 160 ≤ length out.old }
    ensures { record { running = result; out = out.new } ≡ begun bytes.now out.old }
{
    let file = read_fields(bytes);
    let read = Verdict {
        number: file.number,
        place: file.place,
    };
    let boot = judge(read, file.table);
    let run = from_power_on(file);
    let mut text = Text { out, at: 0 };
    first_line(&mut text);
    if boot.number == 0 {
        return Running {
            written: text.at,
            ..run
        };
    }
    let refused = Verdict {
        number: boot.number,
        place: boot.place,
    };
    bad_line(&mut text, refused);
    Running {
        end: 0,
        written: text.at,
        ..run
    }
}

// An arrival asks to be admitted, with vectors of its own.
fn answer_to(t: Table, s: State, a: Arrival) -> AdmissionAnswer
    ensures { result ≡ asked t s a }
{
    let mut k = [0u16; 1024];
    let mut d = [0u16; 1024];
    let mut y = [0u16; 1024];
    admit(t, s, a.work, a.latest, &mut k, &mut d, &mut y)
}

// The next arrival is for this slot: its line.
fn arrival_turn(r: Running, next: Next, out: &mut [u8]) -> Running
    requires { r.written + 80 ≤ length out.old }
    ensures { record { running = result; out = out.new } ≡ arrival_turn r next.arrival next.after out.old }
{
    let asked = answer_to(r.table, r.state, next.arrival);
    let mut text = Text { out, at: r.written };
    arrival_line(&mut text, next.arrival, asked);
    Running {
        state: asked.state,
        at: next.after,
        written: text.at,
        ..r
    }
}

// No arrival is next, or it is for a later slot: the slot's line. Room for a line and a slot that is left are asked of a turn: not every run has them.
// It stays a function of its own: in the loop over the turns the compiler takes the state apart, and a slot takes a third more instructions.
#[inline(never)]
fn slot_turn(r: Running, out: &mut [u8]) -> Running
    requires written_in_bounds { r.written + 80 ≤ length out.old }
    requires r_lt_end { r.now < r.end }
    ensures { record { running = result; out = out.new } ≡ slot_turn r out.old }
{
    let done = slot(r.table, r.state);
    let mut text = Text { out, at: r.written };
    slot_line(&mut text, r.now, done);
    Running {
        state: done.state,
        now: r.now + 1,
        written: text.at,
        ..r
    }
}

// One line more.
pub fn turn(bytes: &[u8], r: Running, out: &mut [u8]) -> Running
    requires written_in_bounds { r.written + 80 ≤ length out.old }
    requires r_lt_end { r.now < r.end }
    ensures { record { running = result; out = out.new } ≡ turned bytes.now r out.old }
{
    match arrival_at(bytes, r.at) {
        Some(next) if next.arrival.slot == Slot(r.now) => arrival_turn(r, next, out),
        _ => slot_turn(r, out),
    }
}

// Lines from the buffer's start on, until the run is over or the buffer nearly full.
pub fn run_part(bytes: &[u8], r: Running, out: &mut [u8]) -> Running
    ensures { record { running = result; out = out.new } ≡ part bytes.now r out.old }
{
    let mut s = Running { written: 0, ..r };
    while s.now < s.end && out.len() - s.written >= 80 {
        s = turn(bytes, s, out);
    }
    s
}
