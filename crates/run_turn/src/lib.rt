// Layer 4, the program: a step of the printout, and its line or its refusal.
//
// specs/Turn      what is printed for a step
// specs/Turned    what the code's answer to a step stands for
// proofs/Turning  the ways of the code to its answer
// proofs/Fits     what a step or a refusal adds to the length of a printout
#![tactic(auto)]

ghost use Rattle.std.specs.Prelude.{true, ◌≡◌, ◌<◌};
ghost use Rattle.text_letters.specs.Page.{Adds};
ghost use Rattle.table.specs.Words.{locs_in, loc_name};
ghost use Rattle.table.specs.Meaning.{context_of, counted_of};
ghost use Rattle.table.specs.Valid.{valid};
ghost use Rattle.run_turn.specs.Turn.{refused_text, turn_of};
ghost use Rattle.run_turn.specs.Turned.{TurnIs};

use calls_step::step::step_valid;
use run_line::put_line;
use table::{Script, State};
use text_letters::Page;

// `refused N`
pub fn put_refused(n: u32, page: &mut Page)
    ensures { Adds page.old (refused_text n) page.new }
{
    page.put_all(b"refused ");
    page.put_number(n);
    page.put(b'\n');
}

// The step at the location l, and its line or its refusal: the components after it, or none if it is refused.
pub fn turn(w: &Script, st: State, l: u32, page: &mut Page) -> Option<State>
    requires { (valid w.now st ≡ true) × (l < locs_in w.now) }
    ensures { TurnIs w.now (turn_of (context_of w.now) (loc_name w.now l) (counted_of w.now st)) page.old page.new result }
{
    let mut records = [[0; 3]; 256];
    let mut next = State { c: st.c, n: st.n };
    let s = step_valid(w, &mut next.c, st.n, l, &mut records);
    if s.code != 0 {
        put_refused(s.code, page);
        return None;
    }
    put_line(w, &st.c, st.n, l, &records[..s.count], page);
    next.n = s.n;
    Some(next)
}
