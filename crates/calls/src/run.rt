// A list of calls one after another in the lent components, each on what the call before it left.
ghost use Rattle.std.specs.Prelude.{◌≡◌, [], ◌∷◌, length, min};
ghost use Rattle.table.specs.Valid.{valid};
ghost use Rattle.text.specs.Questions.{read_under};
ghost use Rattle.calls_tick.specs.Ticked.{left};
ghost use Rattle.calls.specs.Run.{given_by, answer_to, DoesAs, RunsAs};
ghost use Rattle.calls.specs.Demand3.{TextRuns};

use super::{Ran, RanText};
use calls_act::act;
use calls_tick::{Ticked, tick};
use table::{Script, Words, words};
use table_valid::is_valid;
use terms::refusal::Refusal;
use text_answer::Settings;

// One call of a list: 4 and a location for a tick, else the kind and the positions of an action, numbers of any content that the caller lends. Question 17 was answered before.
fn call(w: &Script, good: bool, c: &mut Words, n: usize, kind: u32, p: u32, q: u32) -> Ticked
    requires { good ≡ valid w.now (record { c = c.now; n = n }) }
    ensures { DoesAs w.now (record { c = c.entry.now; n = n }) (answer_to w.now (record { c = c.entry.now; n = n }) (given_by (kind ∷ p ∷ q ∷ []))) result.code (left result c.exit.now) }
{
    if !good {
        return tick::refuse(Refusal::NotValid.number(), n);
    }
    if kind == 4 {
        return tick::tick_valid(w, c, n, p);
    }
    let r = act::act_valid(w, c, n, kind, words::wide(p), words::wide(q));
    Ticked { code: r.code, n }
}

// The calls of a list one after another, as many as there are codes for; a code is 0, or the number of the question answered by no. Question 17 is asked
// once: no call of the list changes its answer.
pub fn run(w: &Script, c: &mut Words, n: usize, calls: &[[u32; 3]], codes: &mut [u32]) -> Ran
    ensures runs { RunsAs w.now (record { c = c.entry.now; n = n }) calls.now codes.old codes.new result.done (record { c = c.exit.now; n = result.n }) }
    ensures done { result.done ≡ min (length calls.now) (length codes.old) }
{
    let good = is_valid(w, c, n);
    let done = calls.len().min(codes.len());
    let mut k = n;
    for j in 0..done {
        let [kind, p, q] = calls[j];
        let r = call(w, good, c, k, kind, p, q);
        codes[j] = r.code;
        k = r.n;
    }
    Ran { done, n: k }
}

// A text, and then the calls of a list one after another from its network, in the lent components: the reading's refusal, or what `run` gives, with demand 3.
pub fn run_text(
    text: &[u8],
    given: Settings,
    w: &mut Script,
    c: &mut Words,
    calls: &[[u32; 3]],
    codes: &mut [u32],
) -> RanText
    ensures { TextRuns text.now given (read_under given.edition text.now) w.old w.new c.old c.new calls.now codes.old codes.new result }
{
    let r = text_read::read(text, given, w);
    if r.code != 0 {
        return RanText {
            code: r.code,
            done: 0,
            n: 0,
        };
    }
    let st = r.state;
    let first = st.c;
    *c = first;
    let x = run(w, c, st.n, calls, codes);
    RanText {
        code: 0,
        done: x.done,
        n: x.n,
    }
}
