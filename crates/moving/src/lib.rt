// The moving vector: the idle slots that are left of the present window, place by place, from the last place down.
#![tactic(auto)]

ghost use Rattle.std.specs.Prelude.{◌≡◌, ◌+◌, ◌*◌, ◌≤◌, ◌<◌, ◌++◌, length, take, drop};

use deadlines::Walk;
use paper::{Offset, Request, Task};
use window::Windowed;

mod deadlines;

// The state at an offset v of the window, as far as the vectors look at it: the table and its requests.
#[derive(Clone, Copy)]
pub struct Moment {
    pub checked: Windowed,
    pub requests: [Request; 16],
    pub v: Offset,
    ghost inside: { v.0 < checked.window },
}

// What a walk down to the present place found: the work above v, and the idle slots of the places after it.
#[derive(Clone, Copy)]
struct Filled {
    above: u32,
    left: u32,
}

// What is known once the moving vector is made: the present place, and the idle slots left in the window.
#[derive(Clone, Copy)]
pub struct Moved {
    pub here: usize,
    pub left: u32,
}

impl Moment {
    ghost use Rattle.paper.specs.View.{left_of, request_lefts};
    ghost use Rattle.paper.specs.Places.{K};
    ghost use Rattle.paper.specs.Vectors.{sum, above_moving, places_up_to, here, Y_from, Y};
    ghost use Rattle.paper.specs.Calls.{filled};
    ghost use Rattle.moving.specs.Above.{tasks_at, lefts_at, From, Fits, Added, Places, moved_of};
    ghost use Rattle.moving.specs.Passed.{After};

    // One task's work above the time k of the window. As many of its deadlines lie above k as the rest of the window, rounded
    // up, has periods; the present request's is among them exactly if v lies in the last of those periods.
    fn task_above(&self, t: Task, r: Request, k: Offset) -> u32
        requires fits { Fits t self.now.checked.window }
        requires from { From self.now.checked.window self.now.v.0 k.0 }
        ensures { Added t (left_of r.work) self.now.v.0 self.now.checked.window k.0 result }
    {
        let window = self.checked.window;
        let c = t.work as u32;
        let p = t.period as u32;
        let above = (window - k.0 + (t.deadline as u32 - 1)) / p;
        if self.v.0 + above * p < window {
            return c * above;
        }
        r.left() as u32 + c * (above - 1)
    }

    // The work above the time k of the window.
    pub fn above(&self, k: Offset) -> u32
        requires { From self.now.checked.window self.now.v.0 k.0 }
        ensures { (result ≡ above_moving (tasks_at self.now) (lefts_at self.now) self.now.v.0 self.now.checked.window k.0) × (result ≤ 16 * 110000) }
    {
        let table = self.checked.within.table;
        let mut sum: u32 = 0;
        for i in (0..table.count).rev() {
            sum += self.task_above(table.tasks[i], self.requests[i], k);
        }
        sum
    }

    // What is left of each request.
    fn lefts(&self) -> [u16; 16]
        ensures { result ≡ request_lefts self.now.requests }
    {
        self.requests.map(|r| r.left())
    }

    // How many of the places have a time that is not after v: of all but the first, h.
    fn up_to_v(&self, k: &[u16]) -> usize
        ensures { result ≡ places_up_to self.now.v.0 k.now }
    {
        k.iter().filter(|at| u32::from(**at) <= self.v.0).count()
    }

    // The entries of the places after place h, from the last down. That k is K is asked by each: the vector is lent and no part of the state.
    fn fill_after(&self, h: usize, k: &[u16], y: &mut [u16]) -> Filled
        requires k_is { Places self.now k.now }
        requires h_value { (h ≡ here (tasks_at self.now) self.now.v.0) × (length k.now ≤ length y.old) }
        ensures { After self.now (length k.now) h y.old y.new result }
    {
        let window = self.checked.window;
        let table = self.checked.within.table;
        let lefts = self.lefts();
        let lasts = places::start(self.checked).lasts;
        let mut s = Walk { lasts, above: 0 };
        let mut left: u32 = 0;
        for i in (h + 1..k.len()).rev() {
            let place = k[i];
            let at = place as u32;
            let ahead = (at - self.v.0) as u16;
            let below = deadlines::down(table, lefts, ahead, place, s);
            let idle = places::idle_at(window, at, s.above, left);
            y[i] = idle as u16;
            left += idle;
            s = below;
        }
        Filled {
            above: s.above,
            left,
        }
    }

    // The entries from the last place down to place h, which stands for v; the answer is their sum.
    fn fill_from(&self, h: usize, k: &[u16], y: &mut [u16]) -> u32
        requires k_is { Places self.now k.now }
        requires h_value { (h ≡ here (tasks_at self.now) self.now.v.0) × (length k.now ≤ length y.old) }
        ensures { (result ≡ sum (Y_from (tasks_at self.now) (lefts_at self.now) self.now.v.0))
            × (y.new ≡ take h y.old ++ (Y_from (tasks_at self.now) (lefts_at self.now) self.now.v.0 ++ drop (length k.now) y.old)) }
    {
        let f = self.fill_after(h, k, y);
        let idle = places::idle_at(self.checked.window, self.v.0, f.above, f.left);
        y[h] = idle as u16;
        f.left + idle
    }

    // The moving vector: the first n places of k are K, and Y is put in front of y. Both may be longer.
    pub fn fill_moving(&self, n: usize, k: &[u16], y: &mut [u16]) -> Moved
        requires k_is { Places self.now (take n k.now) }
        requires n_is { n ≡ length (K (tasks_at self.now)) }
        requires in_y { n ≤ length y.old }
        ensures { (result ≡ moved_of (tasks_at self.now) (lefts_at self.now) self.now.v.0)
            × (y.new ≡ filled (Y (tasks_at self.now) (lefts_at self.now) self.now.v.0) y.old) }
    {
        let places = &k[..n];
        let here = self.up_to_v(&places[1..]);
        let left = self.fill_from(here, places, y);
        y[..here].fill(0);
        Moved { here, left }
    }
}

// The numbers of vectors that are made: the window, the places of K, the present place, F, and the sum of Y.
#[derive(Clone, Copy)]
pub struct Made {
    pub window: u32,
    pub places: usize,
    pub here: usize,
    pub idle: u32,
    pub left: u32,
}
