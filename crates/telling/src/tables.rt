// Tables made of the tasks that they list, and document 01's M.
ghost use Rattle.std.specs.Prelude.{◌≡◌, [], ◌∷◌};
ghost use Rattle.paper.specs.View.{table_of};
ghost use Rattle.paper.specs.Asked.{M};

use paper::{Table, Task};

pub fn task(work: u16, deadline: u16, period: u16) -> Task
    ensures { result ≡ record { work = work; deadline = deadline; period = period } }
{
    Task {
        work,
        deadline,
        period,
    }
}

// The table of these tasks: it keeps the first sixteen, and counts all. `board::lent` has the same for the board; this one stays beside it, because a
// test program reaches no crate but those that it tests.
pub fn table_of(ts: &[Task]) -> Table
    ensures { result ≡ table_of ts.now }
{
    let mut tasks = [Task::default(); 16];
    let kept = ts.len().min(tasks.len());
    tasks[..kept].copy_from_slice(&ts[..kept]);
    Table {
        tasks,
        count: ts.len(),
    }
}

// M of document 01.
pub fn m() -> Table
    ensures { result ≡ table_of M }
{
    table_of(&[task(2, 3, 5), task(2, 8, 10)])
}
