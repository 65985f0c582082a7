// K, walked from its last place down: how many places it has, and with them refusals 4 and 6.
// Each task's last deadline that is not passed is kept, so that a place costs no divide.
#![tactic(auto)]

ghost use Rattle.std.specs.Prelude.{◌≡◌, ℕ, ◌+◌, ◌*◌, ◌-◌, ◌≤◌, ◌<◌, eqb};
ghost use Rattle.std.specs.Int.{◌∣◌};
ghost use Rattle.paper.specs.declared.Table.{Table};
ghost use Rattle.paper.specs.Demand.{pick, Good, dues, table_due};
ghost use Rattle.paper.specs.View.{tasks_of};
ghost use Rattle.theory.specs.Lasts.{last_of, lower};
ghost use Rattle.places.specs.Stands.{Stands, RowsOf};
ghost use Rattle.places.specs.Counted.{Counted};

use paper::Task;
use window::{InLimits, Windowed};

// Where the walk stands: the next place down, 0 where only that one is left; the work due after it; and the last deadline
// of each task that is not passed, 0 where there is none, as `Lasts.last_of` says: no deadline is 0.
#[derive(Clone, Copy)]
pub struct Walk {
    pub place: u16,
    pub above: u32,
    pub lasts: [u16; 16],
}

// The works and the periods of a table, each in a row, 0 past its tasks; and how many places of the rows a step looks at: eight or
// sixteen. There is no heap, and rows of one number each let a step look at several places at once.
#[derive(Clone, Copy)]
pub struct Rows {
    pub works: [u16; 16],
    pub periods: [u16; 16],
    pub width: usize,
    ghost within: { width ≤ 16 },
}

impl Rows {
    pub fn of(t: InLimits) -> Rows
        ensures { RowsOf t.table result.works result.periods result.width }
    {
        let mut works = [0u16; 16];
        let mut periods = [0u16; 16];
        for (i, task) in t.table.listed().iter().enumerate() {
            works[i] = task.work;
            periods[i] = task.period;
        }
        let width = if t.table.count <= 8 { 8 } else { 16 };
        Rows {
            works,
            periods,
            width,
        }
    }

    // One place down: the deadlines at the place that the walk has come to are passed.
    pub fn down(&self, s: Walk) -> Walk
        requires { s.above ≤ 1000000 }
        ensures { (t : Table) (w u : ℕ) → RowsOf t self.now.works self.now.periods self.now.width
            → Stands t w u s → 0 < s.place → Stands t w (s.place - 1) result }
    {
        let k = s.place;
        let mut lasts = [0u16; 16];
        let mut above = s.above;
        let mut place: u16 = 0;
        for i in 0..self.width {
            above += passed_work(self.works[i], s.lasts[i], k);
            let last = lowered(self.periods[i], s.lasts[i], k);
            lasts[i] = last;
            place = last.max(place);
        }
        Walk {
            place,
            above,
            lasts,
        }
    }
}

// The task's last deadline in the window.
fn last_in(t: Task, w: u32) -> u16
    requires good { Good t }
    requires period { (t.period ∣ w) × (0 < w) × (w ≤ 30000) }
    ensures { result ≡ last_of t w }
{
    let spare = t.period - t.deadline;
    w as u16 - spare
}

// At the window's end: no deadline is passed.
pub fn start(w: Windowed) -> Walk
    ensures { Stands w.within.table w.window w.window result }
{
    let mut lasts = [0u16; 16];
    let mut place: u16 = 0;
    for (i, task) in w.within.table.listed().iter().enumerate() {
        let last = last_in(*task, w.window);
        lasts[i] = last;
        place = last.max(place);
    }
    Walk {
        place,
        above: 0,
        lasts,
    }
}

// The work of a deadline that is passed at k; none if the task's is not there.
fn passed_work(work: u16, last: u16, k: u16) -> u32
    ensures { (result ≡ pick (eqb last k) work 0) × (result ≤ 65535) }
{
    if last == k { work as u32 } else { 0 }
}

// The last deadline once that at k is passed.
pub fn lowered(period: u16, last: u16, k: u16) -> u16
    ensures { result ≡ lower k period last }
{
    if last == k {
        last.saturating_sub(period)
    } else {
        last
    }
}

// The idle slots of the place that stands for the time `at`: `above` is the work above it, and `later` the idle slots of the
// later places.
pub fn idle_at(window: u32, at: u32, above: u32, later: u32) -> u32
    requires { (at ≤ window) × (window ≤ 30000) × (above ≤ 1024 * (16 * 65535)) × (later ≤ window) }
    ensures { (result ≡ window - (at + above + later)) × (result ≤ window) }
{
    window.saturating_sub(at + above + later)
}

// One task's work in a window, and that of others.
fn with_work(t: Task, w: u32, others: u32) -> u32
    requires good { Good t }
    requires period { (t.period ∣ w) × (w ≤ 30000) × (others ≤ 640000) }
    ensures { result ≡ t.work * dues t w + others }
{
    let requests = w / t.period as u32;
    t.work as u32 * requests + others
}

// The work of all requests of a window.
fn work_of(w: Windowed) -> u32
    ensures { result ≡ table_due (tasks_of w.within.table) w.window }
{
    let mut work: u32 = 0;
    for task in w.within.table.listed() {
        work = with_work(*task, w.window, work);
    }
    work
}

// How many places there are, 1,025 standing for any number above 1,024; and where there are no more, the least time at which
// more work is due than there is time.
#[derive(Clone, Copy)]
pub struct Count {
    pub places: u32,
    pub over: Option<u32>,
}

// No work is due by 0, so place 0 is counted and not asked.
pub fn count_places(w: Windowed) -> Count
    ensures { Counted (tasks_of w.within.table) result }
{
    let all = work_of(w);
    let mut over = None;
    let mut places: u32 = 1;
    let rows = Rows::of(w.within);
    let mut s = start(w);
    while 0 < s.place {
        if places == 1024 {
            return Count { places: 1025, over };
        }
        places += 1;
        let k = s.place as u32;
        if k < all - s.above {
            over = Some(k);
        }
        s = rows.down(s);
    }
    Count { places, over }
}
