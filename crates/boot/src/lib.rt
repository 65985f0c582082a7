// What the board's boot code calls: the fields as a byte string, and a refusal's number, its place and the window back. `boot_c` hands it out
// to C. `judge` is the same for callers in Rattle that have read the fields.
#![tactic(auto)]

ghost use Rattle.std.specs.Prelude.{◌≡◌, [], ◌∷◌, ◌++◌};
ghost use Rattle.paper.specs.View.{tasks_of};
ghost use Rattle.paper.specs.Refusals.{refusal_4, refusal_6};
ghost use Rattle.paper.specs.Calls.{first_given, one_to_three};
ghost use Rattle.paper.specs.Fields.{boot_by, boot_call};

use paper::{BootAnswer, Table, Verdict};

// The places that a table may need, so that 5 is never given.
const PLACES: usize = 1024;

fn refused(v: Verdict) -> BootAnswer
    ensures { result ≡ record { number = v.number; place = v.place; window = 0 } }
{
    BootAnswer {
        number: v.number,
        place: v.place,
        window: 0,
    }
}

// The refusal of the fields, as they were read, and else what 1 to 4 and 6 say of their table, with the window.
pub fn judge(v: Verdict, t: Table) -> BootAnswer
    ensures { result ≡ boot_by (first_given (v ∷ (one_to_three t ++ (refusal_4 (tasks_of t) ∷ refusal_6 (tasks_of t) ∷ [])))) (tasks_of t) }
{
    if v.number != 0 {
        return refused(v);
    }
    match table::judge_table(t, PLACES) {
        Ok(judged) => BootAnswer {
            number: 0,
            place: 0,
            window: judged.checked.window,
        },
        Err(refusal) => refused(Verdict::from(refusal)),
    }
}

// Reads the fields and judges their table.
pub fn pyeodasik_boot(fields: &[u8]) -> BootAnswer
    ensures { result ≡ boot_call fields.now }
{
    let read = fields::read_fields(fields);
    let verdict = Verdict {
        number: read.number,
        place: read.place,
    };
    judge(verdict, read.table)
}
