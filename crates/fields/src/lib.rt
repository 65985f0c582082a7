// Tagged fields: what a string of bytes says, field by field, or the first thing that is wrong with it.
// `tagged` reads the numbers of any field; here is known which fields a file holds and in what order.
#![tactic(auto)]

ghost use Rattle.std.specs.Prelude.{ℕ, ◌≡◌, not, List};
ghost use Rattle.paper.specs.Refused.{Says};
ghost use Rattle.paper.specs.Calls.{first_given};
ghost use Rattle.paper.specs.Fields.{File, tag, task_in, arrival_in, with_field, wrong_length, field_verdict, read, fields_answer, arrival_at};
ghost use Rattle.fields.specs.Kinds.{KindOf, number_of};
ghost use Rattle.fields.specs.Shape.{IsBody, shape_refusals, order_refusals};
ghost use Rattle.fields.specs.Seen.{seen_of, Outcome};

use paper::{Arrival, FieldsAnswer, Latest, Next, Refusal, Slot, Table, Task, Verdict};
use tagged::{body_length, field_length, is_whole, number_of_2, number_of_4, tag_of};

const LONGEST_INPUT: usize = 4096;

const MOST_TASKS: usize = 16;

const LONGEST_RUN: u32 = 100000;

// What a field holds, by its tag.
#[derive(Clone, Copy)]
enum Kind {
    Task,
    Arrival,
    Slots,
}

// No kind has the tag.
#[derive(Clone, Copy)]
struct UnknownTag;

impl TryFrom<u8> for Kind {
    type Error = UnknownTag;

    ghost try_from_gives = { KindOf };

    fn try_from(tag: u8) -> Result<Kind, UnknownTag> {
        match tag {
            1 => Ok(Kind::Task),
            2 => Ok(Kind::Arrival),
            3 => Ok(Kind::Slots),
            _ => Err(UnknownTag),
        }
    }
}

impl Kind {
    // Whether a body of so many bytes is one of this kind.
    #[tactic(auto, unfolding(paper::specs::Fields::wrong_length))]
    fn has_length(self, n: u16) -> bool
        ensures { result ≡ not (wrong_length (number_of self) n) }
    {
        match self {
            Kind::Task => n == 6,
            Kind::Arrival => n == 6 || n == 10,
            Kind::Slots => n == 4,
        }
    }
}

// What a field says.
#[derive(Clone, Copy)]
enum Body {
    Task(Task),
    Arrival(Arrival),
    Slots(u32),
}

// The place of a field's first byte, and the bytes from there to the end of the input.
#[derive(Clone, Copy)]
struct Field<'a> {
    at: u32,
    bytes: &'a [u8],
}

impl Field<'_> {
    // 16 one or two bytes left; 17 unknown tag; 18 wrong length; 16 body cut.
    #[tactic(auto, unfolding(paper::specs::Calls::first_given))]
    fn kind(self) -> Result<Kind, Refusal>
        ensures { Says (first_given (shape_refusals self.entry.at self.entry.bytes.now)) (λ k. tag self.entry.bytes.now ≡ number_of k) result }
    {
        if self.bytes.len() < 3 {
            return Err(Refusal::Cut(self.at));
        }
        let Ok(kind) = Kind::try_from(tag_of(self.bytes)) else {
            return Err(Refusal::UnknownTag(self.at));
        };
        if !kind.has_length(body_length(self.bytes)) {
            return Err(Refusal::WrongLength(self.at));
        }
        if !is_whole(self.bytes) {
            return Err(Refusal::Cut(self.at));
        }
        Ok(kind)
    }

    fn task(self) -> Task
        ensures { result ≡ task_in self.entry.bytes.now }
    {
        Task {
            work: number_of_2(self.bytes, 3),
            deadline: number_of_2(self.bytes, 5),
            period: number_of_2(self.bytes, 7),
        }
    }

    fn arrival(self) -> Arrival
        ensures { result ≡ arrival_in self.entry.bytes.now }
    {
        let latest = if body_length(self.bytes) == 10 {
            Latest::By(Slot(u64::from(number_of_4(self.bytes, 9))))
        } else {
            Latest::None
        };
        Arrival {
            slot: Slot(u64::from(number_of_4(self.bytes, 3))),
            work: number_of_2(self.bytes, 7),
            latest,
        }
    }

    // What it says, if its bytes alone do not refuse it.
    fn body(self) -> Result<Body, Refusal>
        ensures { Says (first_given (shape_refusals self.entry.at self.entry.bytes.now)) (IsBody self.entry.bytes.now) result }
    {
        Ok(match self.kind()? {
            Kind::Task => Body::Task(self.task()),
            Kind::Arrival => Body::Arrival(self.arrival()),
            Kind::Slots => Body::Slots(number_of_4(self.bytes, 3)),
        })
    }
}

// What the fields so far say: the tasks, the slot of the last arrival, and the slots to run once tag 3 was read.
#[derive(Clone, Copy, Default)]
struct Seen {
    table: Table,
    last: Option<Slot>,
    slots: Option<u32>,
}

impl Seen {
    // 19 wrong order: tasks, then arrivals with slots not falling, then one tag 3, and none of the later kinds before any task;
    // 1 seventeenth task; 21 run too long.
    fn add(&mut self, at: u32, body: Body) -> Result<(), Refusal>
        ensures { (f : File) → self.old ≡ seen_of f → (bs : List ℕ) → IsBody bs body
            → Says (first_given (order_refusals f at bs)) (λ u. self.new ≡ seen_of (with_field f bs)) result }
    {
        match body {
            Body::Task(task) => {
                if self.last.is_some() {
                    return Err(Refusal::WrongOrder(at));
                }
                if MOST_TASKS <= self.table.count {
                    return Err(Refusal::NoOrManyTasks(at));
                }
                self.table.tasks[self.table.count] = task;
                self.table.count += 1;
            }
            Body::Arrival(arrival) => {
                if self.table.count == 0 || arrival.slot < self.last.unwrap_or_default() {
                    return Err(Refusal::WrongOrder(at));
                }
                self.last = Some(arrival.slot);
            }
            Body::Slots(slots) => {
                if self.table.count == 0 {
                    return Err(Refusal::WrongOrder(at));
                }
                if LONGEST_RUN < slots {
                    return Err(Refusal::RunTooLong(at));
                }
                self.slots = Some(slots);
            }
        }
        Ok(())
    }

    // A byte after tag 3 is 19 before anything else is asked of it.
    fn read(&mut self, field: Field) -> Result<(), Refusal>
        ensures { (f : File) → self.old ≡ seen_of f
            → Says (field_verdict f field.entry.at field.entry.bytes.now) (λ u. self.new ≡ seen_of (with_field f field.entry.bytes.now)) result }
    {
        if self.slots.is_some() {
            return Err(Refusal::WrongOrder(field.at));
        }
        self.add(field.at, field.body()?)
    }
}

// What a whole file says but for its arrivals: its table and the slots to run.
struct Contents {
    table: Table,
    slots: u32,
}

// Field by field, or the first refusal.
fn read_file(bytes: &[u8]) -> Result<Contents, Refusal>
    ensures { Outcome (read bytes.now) result }
{
    if LONGEST_INPUT < bytes.len() {
        return Err(Refusal::InputTooLong);
    }
    let mut seen = Seen::default();
    let mut at = 0;
    // A turn passes a field, which tells its own length.
    while at < bytes.len() {
        let rest = &bytes[at..];
        let next = at + field_length(rest);
        seen.read(Field {
            at: at as u32,
            bytes: rest,
        })?;
        at = next;
    }
    // No byte is left: the file ends with tag 3.
    let Some(slots) = seen.slots else {
        return Err(Refusal::WrongOrder(at as u32));
    };
    Ok(Contents {
        table: seen.table,
        slots,
    })
}

// Reads a whole file of tagged fields. Its arrivals are read by `arrival_at` from the byte told, as far as they are wanted, so
// no room is kept for them; proofs/OnDemand.antt shows that they are the file's.
pub fn read_fields(bytes: &[u8]) -> FieldsAnswer
    ensures { result ≡ fields_answer bytes.now }
{
    match read_file(bytes) {
        Ok(Contents { table, slots }) => FieldsAnswer {
            number: 0,
            place: 0,
            table,
            arrivals: 9 * table.count,
            slots,
        },
        Err(refusal) => {
            let Verdict { number, place } = Verdict::from(refusal);
            FieldsAnswer {
                number,
                place,
                table: Table::default(),
                arrivals: 0,
                slots: 0,
            }
        }
    }
}

// The arrival that stands whole at a byte of the file, and the byte after it.
pub fn arrival_at(bytes: &[u8], at: usize) -> Option<Next>
    ensures { result ≡ arrival_at bytes.now at }
{
    let rest = bytes.get(at..)?;
    // Nothing is told of a refusal, nor of its place.
    let field = Field { at: 0, bytes: rest };
    let Kind::Arrival = field.kind().ok()? else {
        return None;
    };
    Some(Next {
        arrival: field.arrival(),
        after: at + field_length(rest),
    })
}
