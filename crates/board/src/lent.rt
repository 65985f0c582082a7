// The table as the board lends it: a run of task records, of which the first sixteen are copied for the calls to work on.
// How many there were is kept, so that a run of more than sixteen is told from one of sixteen.
ghost use Rattle.std.specs.Prelude.{◌≡◌};
ghost use Rattle.paper.specs.View.{table_of};

use paper::{Table, Task};

// The table of a lent run: a place past the run's end is clear.
pub fn table_of(ts: &[Task]) -> Table
    ensures { result ≡ table_of ts.now }
{
    let mut tasks = [Task::default(); 16];
    let copied = ts.len().min(tasks.len());
    tasks[..copied].copy_from_slice(&ts[..copied]);
    Table {
        tasks,
        count: ts.len(),
    }
}
