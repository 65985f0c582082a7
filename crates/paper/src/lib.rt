// The vocabulary of the paper: times, tasks, the running state, what the calls are asked and what they answer.
#![tactic(auto)]

ghost use Rattle.std.specs.Prelude.{◌≡◌, ◌≤◌, ◌<◌, ◌+◌, ◌-◌, ◌%◌, take};
ghost use Rattle.paper.specs.View.{left_of, request_of, tasks_of};
ghost use Rattle.paper.specs.Refused.{verdict_of};

// The clock's end, H.
pub const CLOCK_END: u64 = 1099511627776;

// A slot, counted from power-on. Slot s lasts from s to s + 1.
#[derive(Clone, Copy, PartialEq, Eq, PartialOrd, Ord, Default)]
pub struct Slot(pub u64);

// An offset, counted from the start of its window.
#[derive(Clone, Copy, PartialEq, Eq, PartialOrd, Ord, Default)]
pub struct Offset(pub u32);

// A slot's offset in its window: the one way from slots to offsets.
pub fn offset_of(s: Slot, window: u32) -> Offset
    requires { 0 < window }
    ensures { result.0 ≡ s.0 % window }
{
    let at = s.0;
    let w = window as u64;
    Offset((at % w) as u32)
}

// The start of the window in which a slot has the offset v.
pub fn start_of(s: Slot, v: Offset) -> Slot
    requires { v.0 ≤ s.0 }
    ensures { result.0 ≡ s.0 - v.0 }
{
    let at = v.0 as u64;
    Slot(s.0 - at)
}

// The slot of an offset from a window's start: the one way back.
pub fn slot_at(start: Slot, v: Offset) -> Slot
    requires { start.0 + v.0 < 18446744073709551616 }
    ensures { result.0 ≡ start.0 + v.0 }
{
    let at = v.0 as u64;
    Slot(start.0 + at)
}

// A periodic task: work C, relative deadline R, period P.
#[derive(Clone, Copy, Default)]
pub struct Task {
    pub work: u16,
    pub deadline: u16,
    pub period: u16,
}

// The table: how many tasks there are, and the first sixteen of them. An array and a count: the chip has no heap, and 1 asks of more.
#[derive(Clone, Copy, Default)]
pub struct Table {
    pub tasks: [Task; 16],
    pub count: usize,
}

impl Table {
    // Its tasks: of more than sixteen, those that it has.
    pub fn listed(&self) -> &[Task]
        ensures { result.now ≡ tasks_of self.now }
    {
        &self.tasks[..self.count.min(self.tasks.len())]
    }
}

// Each request is done or has a stated amount left: document 01 names the two cases, so this is no `Option`.
#[derive(Clone, Copy, PartialEq, Eq, Default)]
pub enum Work {
    #[default]
    Done,
    Left(u16),
}

#[derive(Clone, Copy, Default)]
pub struct Request {
    pub work: Work,
}

impl Request {
    // The work left, 0 if it is done.
    pub fn left(self) -> u16
        ensures { result ≡ left_of self.work }
    {
        match self.work {
            Work::Done => 0,
            Work::Left(n) => n,
        }
    }
}

// The request of which so much is left.
impl From<u16> for Request {
    ghost from_gives = { λ n r. r ≡ request_of n };

    fn from(left: u16) -> Request {
        let work = if left == 0 {
            Work::Done
        } else {
            Work::Left(left)
        };
        Request { work }
    }
}

// A job has work left and its promise.
#[derive(Clone, Copy, Default)]
pub struct Job {
    pub left: u16,
    pub promise: Slot,
}

// The running state: slot now has not run, and the releases at now are in. Of the jobs the first `waiting` places are used,
// oldest first; `given` and `idle` are the tallies A and I of the present window. Document 01 has the arrays by value, and 7 judges the count.
#[derive(Clone, Copy, Default)]
pub struct State {
    pub now: Slot,
    pub requests: [Request; 16],
    pub jobs: [Job; 8],
    pub waiting: u8,
    pub given: u16,
    pub idle: u16,
}

impl State {
    // Its waiting jobs, oldest first: of more than eight, those that it has.
    pub fn waiting_jobs(&self) -> &[Job]
        ensures { result.now ≡ take self.entry.now.waiting self.entry.now.jobs }
    {
        &self.jobs[..(self.waiting as usize).min(self.jobs.len())]
    }
}

// An admission's latest finish is either a slot or none: document 01 names the two cases, so this is no `Option`.
#[derive(Clone, Copy)]
pub enum Latest {
    None,
    By(Slot),
}

// What a slot did: nothing, a unit of a task, numbered from 1, or a unit of the job of a promise.
#[derive(Clone, Copy)]
pub enum Who {
    Idle,
    Task(u8),
    Job(Slot),
}

// Why a call is refused: the paper's table, and of the fields the refusals after it. A place stands beside what has one: beside refusal 1
// the byte of a file's seventeenth task, else 0.
#[derive(Clone, Copy, PartialEq, Eq)]
pub enum Refusal {
    NoOrManyTasks(u32),
    TaskOutOfLimits(u32),
    WindowTooLong,
    TooManyPlaces,
    VectorTooShort,
    Overloaded(u32),
    Misshapen,
    Overdue,
    Unfit,
    BadWork,
    EightWait,
    NeverIdle,
    PastTheClock,
    TooLate,
    ClockAtItsEnd,
    Cut(u32),
    UnknownTag(u32),
    WrongLength(u32),
    WrongOrder(u32),
    InputTooLong,
    RunTooLong(u32),
}

// A refusal's number and place; both 0 where nothing is refused: what the definitions of `specs/` speak of.
#[derive(Clone, Copy)]
pub struct Verdict {
    pub number: u32,
    pub place: u32,
}

// The paper's number and place of each refusal.
impl From<Refusal> for Verdict {
    ghost from_gives = { λ r v. v ≡ verdict_of r };

    fn from(r: Refusal) -> Verdict {
        let (number, place) = match r {
            Refusal::NoOrManyTasks(byte) => (1, byte),
            Refusal::TaskOutOfLimits(task) => (2, task),
            Refusal::WindowTooLong => (3, 0),
            Refusal::TooManyPlaces => (4, 0),
            Refusal::VectorTooShort => (5, 0),
            Refusal::Overloaded(time) => (6, time),
            Refusal::Misshapen => (7, 0),
            Refusal::Overdue => (8, 0),
            Refusal::Unfit => (9, 0),
            Refusal::BadWork => (10, 0),
            Refusal::EightWait => (11, 0),
            Refusal::NeverIdle => (12, 0),
            Refusal::PastTheClock => (13, 0),
            Refusal::TooLate => (14, 0),
            Refusal::ClockAtItsEnd => (15, 0),
            Refusal::Cut(byte) => (16, byte),
            Refusal::UnknownTag(byte) => (17, byte),
            Refusal::WrongLength(byte) => (18, byte),
            Refusal::WrongOrder(byte) => (19, byte),
            Refusal::InputTooLong => (20, 0),
            Refusal::RunTooLong(byte) => (21, byte),
        };
        Verdict { number, place }
    }
}

// The answers of the calls have number and place, and every other number 0 on a refusal, as document 01 asks and `specs/Calls.antt` reads
// them; they are made of a `Result` at each call's end.

// The power-on state's answer.
#[derive(Clone, Copy)]
pub struct PowerOnAnswer {
    pub number: u32,
    pub place: u32,
    pub state: State,
}

// The table check's answer: the window, the places of K, and F.
#[derive(Clone, Copy)]
pub struct TableAnswer {
    pub number: u32,
    pub place: u32,
    pub window: u32,
    pub places: u32,
    pub idle: u32,
}

// The moving vectors' answer.
#[derive(Clone, Copy)]
pub struct MovingAnswer {
    pub number: u32,
    pub place: u32,
    pub places: u32,
}

// An admission's answer: the promise, and the state with the job last.
#[derive(Clone, Copy)]
pub struct AdmissionAnswer {
    pub number: u32,
    pub place: u32,
    pub promise: Slot,
    pub state: State,
}

// A slot's answer: what it did, the ready word, and the state after it.
#[derive(Clone, Copy)]
pub struct SlotAnswer {
    pub number: u32,
    pub place: u32,
    pub who: Who,
    pub ready: u16,
    pub state: State,
}

// A job that asks to be admitted before a slot.
#[derive(Clone, Copy)]
pub struct Arrival {
    pub slot: Slot,
    pub work: u16,
    pub latest: Latest,
}

// What a file of tagged fields says: the table, the byte at which its arrivals begin, and the slots to run; a refusal has its number
// and place, and all else 0.
#[derive(Clone, Copy)]
pub struct FieldsAnswer {
    pub number: u32,
    pub place: u32,
    pub table: Table,
    pub arrivals: usize,
    pub slots: u32,
}

// An arrival that stands in a file, and the byte after it.
#[derive(Clone, Copy)]
pub struct Next {
    pub arrival: Arrival,
    pub after: usize,
}

// The boot call's answer, as C reads it.
#[repr(C)]
#[derive(Clone, Copy)]
pub struct BootAnswer {
    pub number: u32,
    pub place: u32,
    pub window: u32,
}
