// The components of the network that was read.
ghost use Rattle.std.specs.Prelude.{◌≤◌, [], ◌∷◌, ◌≡◌, length, replicate};
ghost use Rattle.text_tree.specs.Asked.{comp_of};
ghost use Rattle.text_answer.specs.Answer.{StateIs};
ghost use Rattle.table.specs.Words.{state_words};

use crate::Reading;
use table::comps::put_comp;
use table::{Comp, PARTS, ROW_SIZE, STATE_WORDS, Script, State, TIMER_FIELD};

// The component at the place i and the location l: unmarked, with the timer of its part; it has not waited.
fn comp_of(w: &Script, l: u32, i: u32) -> Comp
    ensures { result ≡ comp_of w.now (l ∷ i ∷ []) }
{
    let t = table::words::word(w, PARTS + table::words::wide(i) * ROW_SIZE + TIMER_FIELD);
    Comp {
        loc: l,
        mark: 64,
        place: i,
        timer: t,
        vals: [0; 8],
        wait: 0,
    }
}

// A network of no components.
pub fn no_state() -> State
    ensures { result ≡ record { c = replicate state_words 0; n = 0 } }
{
    State {
        c: [0; STATE_WORDS],
        n: 0,
    }
}

// The components at these places, as an accepted answer.
pub fn accept(w: &Script, places: &[[u32; 2]]) -> Reading
    requires { length places.now ≤ 256 }
    ensures { (result.code ≡ 0) × StateIs w.now places.now result.state }
{
    let mut r = Reading {
        code: 0,
        state: State {
            c: [0; STATE_WORDS],
            n: places.len(),
        },
    };
    for j in 0..places.len() {
        let [l, i] = places[j];
        put_comp(&mut r.state.c, j, comp_of(w, l, i));
    }
    r
}
