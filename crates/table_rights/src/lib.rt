// Layer 1, the table: the rights in a script, by number (document 02, R-6). A move and a communication are asked for theirs; a call needs none.
#![tactic(auto)]

ghost use Rattle.std.specs.Prelude.{◌≡◌, ◌<◌};
ghost use Rattle.table.specs.Words.{rights_size, right_at};
ghost use Rattle.table.specs.Fire.{may_leave, may_meet};

use table::words::{wide, word};
use table::{LEAVE_FIELD, RECEIVE_FIELD, RIGHTS, RIGHTS_SIZE, SEND_FIELD, Script};

// The right number x among those that begin at f in the row of the location l.
#[tactic(auto, unfolding(table::specs::Words::right_at))]
fn right_at(w: &Script, f: usize, l: u32, x: u32) -> bool
    requires { f < rights_size }
    ensures { result ≡ right_at w.now f l x }
{
    word(w, RIGHTS + wide(l) * RIGHTS_SIZE + (f + wide(x))) == 1
}

// May a component leave l for v? For its own location it needs no right.
#[tactic(auto, using(std::proofs::lemmas::Bool::Decides::nat_tests), unfolding(table::specs::Fire::may_leave, table::specs::Words::rights_in))]
pub fn may_leave(w: &Script, l: u32, v: u32) -> bool
    ensures { result ≡ may_leave w.now l v }
{
    v == l || right_at(w, LEAVE_FIELD, l, v)
}

// May two components meet at l on the channel h? Both rights are those of the location.
#[tactic(auto, unfolding(table::specs::Fire::may_meet, table::specs::Words::rights_in))]
pub fn may_meet(w: &Script, l: u32, h: u32) -> bool
    ensures { result ≡ may_meet w.now l h }
{
    right_at(w, SEND_FIELD, l, h) && right_at(w, RECEIVE_FIELD, l, h)
}
