// What a run's vectors and tallies are: of the table, and of the state before each arrival. Tagged fields on standard input.
#![tactic(auto)]

ghost use Rattle.std.specs.Prelude.{◌≡◌, [], ◌∷◌, ◌++◌, ◌+◌, ◌*◌, ◌≤◌, ◌<◌, length, replicate, IfOk};
ghost use Rattle.paper.specs.Listing.{decimal, line};
ghost use Rattle.paper.specs.Fields.{arrival_at};
ghost use Rattle.decimal.specs.Told.{Room, Told};
ghost use Rattle.listing.specs.Run.{turned, afresh};
ghost use Rattle.show.specs.Numbers.{after_blanks};
ghost use Rattle.show.specs.Told.{is_for};

use boot::judge;
use decimal::Text;
use fields::{arrival_at, read_fields};
use input::read_full;
use lines::bad_line;
use listing::{Running, from_power_on, turn};
use paper::{Slot, State, Table, Verdict};
use std::io;
use table::check_table;
use vectors::moving_vectors;

// ---- lines

// A blank and a number.
fn after_blank(text: &mut Text<'_>, n: u64)
    requires { Room 21 text.old }
    ensures told { Told text.old (32 ∷ decimal n) text.new }
    ensures most { text.new.at ≤ text.old.at + 21 }
{
    text.put(b' ');
    text.number(n);
}

// The line of a label and a number.
fn number_line(text: &mut Text<'_>, label: &[u8], n: u64)
    requires { Room (length label.now + 22) text.old }
    ensures told { Told text.old (line (label.now ∷ decimal n ∷ [])) text.new }
    ensures most { text.new.at ≤ text.old.at + (length label.now + 22) }
{
    text.put_all(label);
    after_blank(text, n);
    text.put(b'\n');
}

// The line of a letter and the numbers of a vector.
fn vector_line(text: &mut Text<'_>, letter: u8, v: &[u16])
    requires { Room (21 * length v.now + 2) text.old }
    ensures told { Told text.old (letter ∷ (after_blanks v.now ++ (10 ∷ []))) text.new }
    ensures most { text.new.at ≤ text.old.at + (21 * length v.now + 2) }
{
    text.put(letter);
    for n in v {
        after_blank(text, u64::from(*n));
    }
    text.put(b'\n');
}

// ---- what is written

// Not by `println!`, which no contract binds to the bytes that it writes: each line here has one, up to the write.
fn say(rt: &impl Print, label: &[u8], n: u64) -> io::Result<()>
    requires { length label.now ≤ 10 }
{
    let mut out = [0u8; 40];
    let mut text = Text {
        out: &mut out,
        at: 0,
    };
    number_line(&mut text, label, n);
    rt.write_all(text.told())
}

fn say_vector(rt: &impl Print, letter: u8, v: &[u16]) -> io::Result<()>
    requires { length v.now ≤ 1024 }
{
    let mut out = [0u8; 65536];
    let mut text = Text {
        out: &mut out,
        at: 0,
    };
    vector_line(&mut text, letter, v);
    rt.write_all(text.told())
}

fn say_refusal(rt: &impl Print, v: Verdict) -> io::Result<()> {
    let mut out = [0u8; 80];
    let mut text = Text {
        out: &mut out,
        at: 0,
    };
    bad_line(&mut text, v);
    rt.write_all(text.told())
}

// The places of a vector of 1,024.
fn places(n: u32) -> usize
    ensures { result ≤ 1024 }
{
    n.min(1024) as usize
}

// W, the places, K, D and F.
fn say_table(rt: &impl Print, t: Table) -> io::Result<()> {
    let mut k = [0u16; 1024];
    let mut d = [0u16; 1024];
    let a = check_table(t, &mut k, &mut d);
    let n = places(a.places);
    say(rt, b"W", u64::from(a.window))?;
    say(rt, b"places", u64::from(a.places))?;
    say_vector(rt, b'K', &k[..n])?;
    say_vector(rt, b'D', &d[..n])?;
    say(rt, b"F", u64::from(a.idle))
}

// The tallies and Y.
fn say_state(rt: &impl Print, t: Table, s: State) -> io::Result<()> {
    let mut k = [0u16; 1024];
    let mut d = [0u16; 1024];
    let mut y = [0u16; 1024];
    say(rt, b"at", s.now.0)?;
    say(rt, b"A", u64::from(s.given))?;
    say(rt, b"I", u64::from(s.idle))?;
    let a = moving_vectors(t, s, &mut k, &mut d, &mut y);
    let n = places(a.places);
    say_vector(rt, b'Y', &y[..n])
}

// ---- the run

// Whether the next arrival is for this slot.
fn arrives(bytes: &[u8], at: usize, slot: u64) -> bool
    ensures { result ≡ is_for slot (arrival_at bytes.now at) }
{
    arrival_at(bytes, at).is_some_and(|next| next.arrival.slot == Slot(slot))
}

// One turn of the run. An arrival is told, and the state before it; a slot is only run.
fn step(rt: &impl Print, bytes: &[u8], r: Running) -> io::Result<Running>
    requires { r.now < r.end }
    ensures { IfOk result (λ s. s ≡ (turned bytes.now (afresh r) (replicate 80 0)).running) }
{
    let mut out = [0u8; 80];
    let told = arrives(bytes, r.at, r.now);
    if told {
        say_state(rt, r.table, r.state)?;
    }
    let s = turn(bytes, Running { written: 0, ..r }, &mut out);
    if told {
        rt.write_all(&out[..s.written])?;
    }
    Ok(s)
}

fn walk(rt: &impl Print, bytes: &[u8], start: Running) -> io::Result<()> {
    let mut r = start;
    while r.now < r.end {
        r = step(rt, bytes, r)?;
    }
    Ok(())
}

fn show(rt: &impl Print, bytes: &[u8]) -> io::Result<()> {
    let file = read_fields(bytes);
    let read = Verdict {
        number: file.number,
        place: file.place,
    };
    let boot = judge(read, file.table);
    if boot.number != 0 {
        let refused = Verdict {
            number: boot.number,
            place: boot.place,
        };
        return say_refusal(rt, refused);
    }
    say_table(rt, file.table)?;
    walk(rt, bytes, from_power_on(file))
}

fn main(rt: HostRuntime) -> io::Result<()> {
    let mut space = [0u8; 65536];
    let mut from = rt.reader();
    let n = read_full(&mut from, &mut space)?;
    show(&rt, &space[..n])
}
