// The promise for a need: the least time until which as many slots are idle, read off the vectors.
#![tactic(auto)]

ghost use Rattle.std.specs.Prelude.{◌≡◌, List, ◌∷◌, ℕ, suc, ◌+◌, ◌*◌, ◌-◌, ◌/◌, ◌≤◌, ◌<◌, length, take, drop};
ghost use Rattle.paper.specs.declared.Task.{Task};
ghost use Rattle.paper.specs.Idle.{reach, promise};
ghost use Rattle.paper.specs.Refusals.{H as ClockEnd};
ghost use Rattle.promise.specs.Sizes.{Lent, LentInFront, Need};

use moving::Made;
use paper::{Offset, Slot};

// K, D and Y of a table and its requests at a time, in front of lent vectors that may be longer, and the numbers of these vectors. That the
// time is no later than the clock's end is asked where it is given: vectors have no time, and a slot's type does not keep it.
#[derive(Clone, Copy)]
pub struct Vectors<'a> {
    pub made: Made,
    pub k: &'a [u16],
    pub d: &'a [u16],
    pub y: &'a [u16],
    ghost lent: { LentInFront made (length k.now) (length d.now) (length y.now) },
}

// Where the running sum of y, `before` at first, reaches the need: the time of that place and what the sum lacked before it.
// Where it does not, 0, as the paper's `reach`: callers ask only for a need that is reached.
fn reached(k: &[u16], y: &[u16], before: u32, need: u32) -> Offset
    requires { (before < need) × (need ≤ 1000000) }
    ensures { (result.0 ≡ reach k.now y.now before need) × (result.0 ≤ 65535 + need) }
{
    let mut sum = before;
    for (time, entry) in k.iter().zip(y) {
        let idle = u32::from(*entry);
        if need <= sum + idle {
            let end = u32::from(*time) + (need - sum);
            return Offset(end);
        }
        sum += idle;
    }
    Offset(0)
}

impl Vectors<'_> {
    ghost use Rattle.promise.specs.Holds.{Holds, HoldsInFront};

    // The places alone, without what the lent vectors have after them: vectors as long as there are places.
    pub fn in_front(&self) -> Vectors<'_>
        ensures numbers { result.made ≡ self.now.made }
        ensures places { (result.k.now ≡ take self.now.made.places self.now.k.now)
            × (result.d.now ≡ take self.now.made.places self.now.d.now)
            × (result.y.now ≡ take self.now.made.places self.now.y.now) }
        ensures lent { Lent result.made (length result.k.now) (length result.d.now) (length result.y.now) }
        ensures holds { (ts : List Task) (ls : List ℕ) (now : ℕ) → HoldsInFront ts ls now self.now → Holds ts ls now result }
    {
        let places = self.made.places;
        Vectors {
            made: self.made,
            k: &self.k[..places],
            d: &self.d[..places],
            y: &self.y[..places],
        }
    }

    // In the present window: place h stands for v, and the later places for their own times.
    fn in_window(&self, v: Offset, need: u32) -> Offset
        requires { (v.0 ≤ 30000) × Need need }
        ensures { (result.0 ≡ reach (v.0 ∷ drop (suc self.now.made.here) self.now.k.now) (drop self.now.made.here self.now.y.now) 0 need)
            × (result.0 ≤ 65535 + need) }
    {
        let h = self.made.here;
        let idle = self.y[h] as u32;
        if need <= idle {
            let end = v.0 + need;
            return Offset(end);
        }
        reached(&self.k[h + 1..], &self.y[h + 1..], idle, need)
    }

    // In a window after the one that starts at `start`: the next one, or whole windows of idle slots later, and then the places.
    fn in_later(&self, start: Slot, need: u32) -> Slot
        requires { (start.0 ≤ ClockEnd) × (1 ≤ self.now.made.idle) × Need need }
        ensures { result.0 ≡ start.0 + self.now.made.window + (need - 1) / self.now.made.idle * self.now.made.window
            + reach self.now.k.now self.now.d.now 0 (need - (need - 1) / self.now.made.idle * self.now.made.idle) }
    {
        let idle = self.made.idle;
        let windows = (need - 1) / idle;
        let rest = need - windows * idle;
        let end = reached(self.k, self.d, 0, rest);
        let w = self.made.window as u64;
        let later = start.0 + w + windows as u64 * w;
        paper::slot_at(Slot(later), end)
    }

    // The promise for a need at the time `at`, of whatever tasks and lefts the vectors are those of.
    pub fn promise_for(&self, at: Slot, need: u32) -> Slot
        requires clock { at.0 ≤ ClockEnd }
        requires le_idle { (1 ≤ self.now.made.idle) × Need need }
        ensures { (ts : List Task) (ls : List ℕ) → HoldsInFront ts ls at.0 self.now → result.0 ≡ promise ts ls at.0 need }
    {
        let front = self.in_front();
        let v = paper::offset_of(at, self.made.window);
        let start = paper::start_of(at, v);
        if need <= self.made.left {
            let end = front.in_window(v, need);
            return paper::slot_at(start, end);
        }
        front.in_later(start, need - self.made.left)
    }
}
