// The lines of a listing, each written into a text; what a run is, is not known here.
// Each asks for room for a line of any length: a lent text may have less, so its type does not keep that.
#![tactic(auto)]

ghost use Rattle.std.specs.Prelude.{[], ◌∷◌, ◌++◌, ◌+◌, ◌≤◌};
ghost use Rattle.paper.specs.Listing.{decimal, first_line, bad_line, arrival_line, who_word, slot_line};
ghost use Rattle.decimal.specs.Told.{Room, Told};

use decimal::Text;
use paper::{AdmissionAnswer, Arrival, SlotAnswer, Verdict, Who};

// `slot who`
pub fn first_line(text: &mut Text<'_>)
    requires { Room 80 text.old }
    ensures told { Told text.old first_line text.new }
    ensures most { text.new.at ≤ text.old.at + 80 }
{
    text.put_all(b"slot who\n");
}

// `x number place`
pub fn bad_line(text: &mut Text<'_>, v: Verdict)
    requires { Room 80 text.old }
    ensures told { Told text.old (bad_line v) text.new }
    ensures most { text.new.at ≤ text.old.at + 80 }
{
    text.put_all(b"x ");
    text.word(u64::from(v.number), b' ');
    text.word(u64::from(v.place), b'\n');
}

// `a slot work promise`, or `r slot work number`
pub fn arrival_line(text: &mut Text<'_>, a: Arrival, r: AdmissionAnswer)
    requires { Room 80 text.old }
    ensures told { Told text.old (arrival_line a r) text.new }
    ensures most { text.new.at ≤ text.old.at + 80 }
{
    let (letter, last) = if r.number == 0 {
        (b'a', r.promise.0)
    } else {
        (b'r', u64::from(r.number))
    };
    text.put(letter);
    text.put(b' ');
    text.word(a.slot.0, b' ');
    text.word(u64::from(a.work), b' ');
    text.word(last, b'\n');
}

// `Pj` task j, `Sp` the job of promise p, `-` idle; and the line's end
fn who_word(text: &mut Text<'_>, who: Who)
    requires { Room 22 text.old }
    ensures told { Told text.old (who_word who ++ (10 ∷ [])) text.new }
    ensures most { text.new.at ≤ text.old.at + 22 }
{
    match who {
        Who::Idle => text.put_all(b"-\n"),
        Who::Task(j) => named(text, b'P', u64::from(j)),
        Who::Job(p) => named(text, b'S', p.0),
    }
}

// A letter and a number, and the line's end.
fn named(text: &mut Text<'_>, letter: u8, n: u64)
    requires { Room 22 text.old }
    ensures told { Told text.old (letter ∷ (decimal n ++ (10 ∷ []))) text.new }
    ensures most { text.new.at ≤ text.old.at + 22 }
{
    text.put(letter);
    text.word(n, b'\n');
}

// `slot who`
pub fn slot_line(text: &mut Text<'_>, slot: u64, r: SlotAnswer)
    requires { Room 80 text.old }
    ensures told { Told text.old (slot_line slot r) text.new }
    ensures most { text.new.at ≤ text.old.at + 80 }
{
    text.word(slot, b' ');
    who_word(text, r.who);
}
