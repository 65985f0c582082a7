// A walk over the window's deadlines from the last down, with no divide: each task's last deadline that is not passed yet, and
// the work above.
ghost use Rattle.std.specs.Prelude.{◌≡◌, ◌*◌, ◌≤◌};
ghost use Rattle.moving.specs.Passed.{passed_of, Down};

use paper::{Table, Task};

// Where the walk stands. Its work above is not that of places::Walk: of the present request only what is left counts.
#[derive(Clone, Copy)]
pub struct Walk {
    pub lasts: [u16; 16],
    pub above: u32,
}

// The work of a task's deadline at k, if that is its last one.
fn work_at(t: Task, left: u16, ahead: u16, k: u16, last: u16) -> u32
    ensures { (result ≡ passed_of k ahead t left last) × (result ≤ 65535) }
{
    let work = if ahead <= t.deadline { left } else { t.work };
    if last == k { work as u32 } else { 0 }
}

// One step down, past the deadlines at k, which lies `ahead` slots after the present one.
pub fn down(t: Table, lefts: [u16; 16], ahead: u16, k: u16, s: Walk) -> Walk
    requires { (t.count ≤ 16) × (s.above ≤ 1023 * (16 * 65535)) }
    ensures { Down t lefts ahead k s result }
{
    let mut lasts = s.lasts;
    let mut above = s.above;
    for i in (0..t.count).rev() {
        let task = t.tasks[i];
        let last = s.lasts[i];
        above += work_at(task, lefts[i], ahead, k, last);
        lasts[i] = places::lowered(task.period, last, k);
    }
    Walk { lasts, above }
}
