// The proved calls as bench/ measures them: tagged fields in, a state made of their table, and then one call. Numbers and vectors come
// back, because a state does not cross to C. `benched_c` hands them out to C. Counts and lent vectors stay parameters one by one, as C passes them.
#![tactic(auto)]

ghost use Rattle.std.specs.Prelude.{◌≡◌};
ghost use Rattle.paper.specs.Fields.{fields_answer};
ghost use Rattle.benched.specs.Stand.{admitted, ran, table_read, stands, bench_table, bench_stand, bench_moving, bench_admission};

use paper::{Latest, State, Table};

// The slots to run.
pub fn bench_fields(bytes: &[u8]) -> u32
    ensures { result ≡ (fields_answer bytes.now).slots }
{
    fields::read_fields(bytes).slots
}

// F.
pub fn bench_table(bytes: &[u8], k: &mut [u16], d: &mut [u16]) -> u32
    ensures { record { told = result; k = k.new; d = d.new } ≡ bench_table bytes.now k.old d.old }
{
    table::check_table(fields::read_fields(bytes).table, k, d).idle
}

// Some jobs of one work each, one after another.
fn admissions(
    t: Table,
    start: State,
    jobs: u32,
    work: u16,
    k: &mut [u16],
    d: &mut [u16],
    y: &mut [u16],
) -> State
    ensures { record { state = result; k = k.new; d = d.new; y = y.new } ≡ admitted jobs t work (record { state = start; k = k.old; d = d.old; y = y.old }) }
{
    let mut s = start;
    for _ in 0..jobs {
        s = admit::admit(t, s, work, Latest::None, k, d, y).state;
    }
    s
}

// Some slots, one after another.
fn run_slots(t: Table, start: State, slots: u32) -> State
    ensures { result ≡ ran slots t start }
{
    let mut s = start;
    for _ in 0..slots {
        s = slot::slot(t, s).state;
    }
    s
}

// What is measured at: the table that the bytes say, and a state of it.
#[derive(Clone, Copy)]
struct Begun {
    table: Table,
    state: State,
}

// Power-on, the jobs, the slots.
fn stand(
    bytes: &[u8],
    jobs: u32,
    work: u16,
    slots: u32,
    k: &mut [u16],
    d: &mut [u16],
    y: &mut [u16],
) -> Begun
    ensures table { result.table ≡ table_read bytes.now }
    ensures state { record { state = result.state; k = k.new; d = d.new; y = y.new } ≡ stands (table_read bytes.now) jobs work slots k.old d.old y.old }
{
    let t = fields::read_fields(bytes).table;
    let start = state::power_on(t).state;
    let s = admissions(t, start, jobs, work, k, d, y);
    Begun {
        table: t,
        state: run_slots(t, s, slots),
    }
}

// The tally I of the state.
pub fn bench_stand(
    bytes: &[u8],
    jobs: u32,
    work: u16,
    slots: u32,
    k: &mut [u16],
    d: &mut [u16],
    y: &mut [u16],
) -> u16
    ensures { record { told = result; k = k.new; d = d.new; y = y.new } ≡ bench_stand bytes.now jobs work slots k.old d.old y.old }
{
    stand(bytes, jobs, work, slots, k, d, y).state.idle
}

// The places of the state's moving vectors.
pub fn bench_moving(
    bytes: &[u8],
    jobs: u32,
    work: u16,
    slots: u32,
    k: &mut [u16],
    d: &mut [u16],
    y: &mut [u16],
) -> u32
    ensures { record { told = result; k = k.new; d = d.new; y = y.new } ≡ bench_moving bytes.now jobs work slots k.old d.old y.old }
{
    let at = stand(bytes, jobs, work, slots, k, d, y);
    vectors::moving_vectors(at.table, at.state, k, d, y).places
}

// The promise of one job more.
pub fn bench_admission(
    bytes: &[u8],
    jobs: u32,
    work: u16,
    slots: u32,
    more: u16,
    k: &mut [u16],
    d: &mut [u16],
    y: &mut [u16],
) -> u64
    ensures { record { told = result; k = k.new; d = d.new; y = y.new } ≡ bench_admission bytes.now jobs work slots more k.old d.old y.old }
{
    let at = stand(bytes, jobs, work, slots, k, d, y);
    admit::admit(at.table, at.state, more, Latest::None, k, d, y)
        .promise
        .0
}
